// The callers, and the lock domain of each (document 01, "What the library models" and "Locks"; request 2026-05).
ghost use Rattle.std.specs.Prelude.{◌≡◌};
ghost use Rattle.chip.specs.Callers as spec;

use crate::pages::Page;
use crate::state::{State, counted_level};

// Numbers and no enum, since a call from C may bring any number, and refuses those that are no caller (`no_caller`).
// The caller by whom writes are made and jobs are run.
pub const SECURE: u32 = 0;

pub const NONSECURE: u32 = 1;

// The bootloader, which runs as Secure. No call advances its locks.
pub const BOOTLOADER: u32 = 2;

pub const LAST_CALLER: u32 = BOOTLOADER;

// Each caller has a lock domain, with the same number.
pub const LAST_DOMAIN: u32 = LAST_CALLER;

// The level of a page in a lock domain, as it counts.
pub fn shown_level(state: State, domain: u32, page: Page) -> u32
    ensures { result ≡ spec.shown_level state domain page.number }
{
    // The levels are taken by value, each in a branch of its own: where a `match` hands them out the state is copied once more on the desk, and where
    // it counts a field in each arm, on x86-64.
    if domain == SECURE {
        let secure = state.secure;
        return counted_level(secure, page);
    }
    if domain == NONSECURE {
        let nonsecure = state.nonsecure;
        return counted_level(nonsecure, page);
    }
    let bootloader = state.bootloader;
    counted_level(bootloader, page)
}
