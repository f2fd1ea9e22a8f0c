// Who may read and write a row (document 01, "Permission"; request 2026-05).
ghost use Rattle.std.specs.Prelude.{◌≡◌};
ghost use Rattle.permit.specs.Permission as spec;

use crate::keys::key_level;
use chip::callers::{BOOTLOADER, SECURE, shown_level};
use chip::pages::Page;
use chip::state::State;

// The key level of a row: that of the page whose key settings it goes by.
pub fn row_key_level(state: State, row: u32) -> u32
    ensures { result ≡ spec.row_key_level state row }
{
    key_level(state, Page::key_page(row))
}

// The caller's level at a row. The state, the caller and the row go in each by itself, here and below, as the definitions have them.
pub fn caller_level(state: State, caller: u32, row: u32) -> u32
    ensures { result ≡ spec.caller_level state caller row }
{
    shown_level(state, caller, Page::owner(row))
}

// The level that a caller reads at: its own, and for the bootloader the higher of its own and Secure's.
fn read_level(state: State, caller: u32, row: u32) -> u32
    ensures { result ≡ spec.read_level state caller row }
{
    let own = caller_level(state, caller, row);
    if caller == BOOTLOADER {
        let secure = caller_level(state, SECURE, row);
        return own.max(secure);
    }
    own
}

// Whether a caller may read a row.
#[tactic(auto, unfolding(crate::specs::Permission::may_read))]
pub fn may_read(state: State, caller: u32, row: u32) -> bool
    ensures { result ≡ spec.may_read state caller row }
{
    Page::FIRST_LOCK_ROW <= row
        || read_level(state, caller, row) <= 1 && row_key_level(state, row) <= 1
}

// Whether a row may be written by Secure, or by Secure for another caller.
#[tactic(auto, unfolding(crate::specs::Permission::may_write))]
pub fn may_write(state: State, caller: u32, row: u32) -> bool
    ensures { result ≡ spec.may_write state caller row }
{
    caller_level(state, caller, row) == 0
        && caller_level(state, SECURE, row) == 0
        && row_key_level(state, row) == 0
}

// Whether the same levels and the same key settings decide both rows: who may write one may then write the other. A job asks it of
// each entry, and of data rows one page says all.
pub fn share_permission(a: u32, b: u32) -> bool
    ensures { result ≡ spec.share_permission a b }
{
    if a < Page::FIRST_LOCK_ROW && b < Page::FIRST_LOCK_ROW {
        return a / Page::ROWS == b / Page::ROWS;
    }
    Page::owner(a) == Page::owner(b) && Page::key_page(a) == Page::key_page(b)
}
