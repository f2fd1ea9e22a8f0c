// The levels that a refused read or write goes by (document 01, "Permission"; request 2026-05).
ghost use Rattle.std.specs.Prelude.{◌≡◌};
ghost use Rattle.wording.specs.Rights as spec;

use crate::callers;
use chip::callers::{BOOTLOADER, SECURE};
use chip::pages::Page;
use chip::state::State;
use permit::permission::{caller_level, row_key_level};
use screen::{say, say_line};
use std::fmt;

// The levels of a row's page: the caller's own, Secure's, and the key level.
#[derive(Clone, Copy, Debug, PartialEq, Eq)]
pub struct Levels {
    pub own: u32,
    pub secure: u32,
    pub key: u32,
}

pub fn levels_of(state: State, caller: u32, row: u32) -> Levels
    ensures { result ≡ spec.levels_of state caller row }
{
    Levels {
        own: caller_level(state, caller, row),
        secure: caller_level(state, SECURE, row),
        key: row_key_level(state, row),
    }
}

// "   its page has bootloader level 2, Secure level 0 and key level 0": the bootloader runs as Secure, so both levels count.
#[derive(Clone, Copy)]
struct OfPage {
    levels: Levels,
    caller: u32,
}

impl fmt::Display for OfPage {
    fn fmt<W: fmt::Write>(&self, f: &mut fmt::Formatter<W>) -> fmt::Result {
        let Levels { own, secure, key } = self.levels;
        let name = callers::Name(self.caller);
        write!(f, "   its page has {name} level {own}")?;
        if self.caller == BOOTLOADER {
            write!(f, ", Secure level {secure}")?;
        }
        write!(f, " and key level {key}")
    }
}

// A lock row goes by the levels of the page that it locks, and by the keys of the page that it stands in (erratum E28).
#[derive(Clone, Copy)]
struct OfLockRow {
    levels: Levels,
    row: u32,
}

impl fmt::Display for OfLockRow {
    fn fmt<W: fmt::Write>(&self, f: &mut fmt::Formatter<W>) -> fmt::Result {
        let Levels {
            own: _,
            secure,
            key,
        } = self.levels;
        let owner = Page::owner(self.row).number;
        let keys = Page::key_page(self.row).number;
        write!(
            f,
            "   page {owner}, which it locks, has Secure level {secure}, page {keys} has key level {key}"
        )
    }
}

pub fn of_read(rt: &HostRuntime, levels: Levels, caller: u32) {
    let all = if caller == BOOTLOADER { "all" } else { "both" };
    say_line!(rt;
        "{}, and a read needs {all} at most 1",
        OfPage { levels, caller }
    );
}

// A job's entries are written by Secure.
pub fn of_entry(rt: &HostRuntime, levels: Levels, row: u32) {
    if Page::FIRST_LOCK_ROW <= row {
        say!(rt; "{}", OfLockRow { levels, row });
    } else {
        say!(rt;
            "{}",
            OfPage {
                levels,
                caller: SECURE
            }
        );
    }
    say_line!(rt; ", and a write needs both at 0");
}
