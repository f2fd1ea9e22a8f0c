// What each caller may do with a row (document 01, "Keys", "Permission").
ghost use Rattle.std.specs.Prelude.{◌≡◌};
ghost use Rattle.wording.specs.Rights as spec;

use chip::callers::{BOOTLOADER, NONSECURE, SECURE};
use chip::state::State;
use permit::keys::hidden;
use permit::permission::{may_read, may_write};
use std::fmt;

// What a caller may do.
#[derive(Clone, Copy, Debug, PartialEq, Eq)]
pub enum May {
    Nothing,
    Read,
    ReadAndWrite,
}

impl fmt::Display for May {
    fn fmt<W: fmt::Write>(&self, f: &mut fmt::Formatter<W>) -> fmt::Result {
        f.write_str(match self {
            May::Nothing => "may neither read nor write",
            May::Read => "may read",
            May::ReadAndWrite => "may read and write",
        })
    }
}

// What each caller may do.
#[derive(Clone, Copy, Debug, PartialEq, Eq)]
pub struct Rights {
    pub secure: May,
    pub nonsecure: May,
    pub bootloader: May,
}

// What a caller may do with a row that is no valid key's.
fn allowed(state: State, caller: u32, row: u32) -> May
    ensures { result ≡ spec.allowed state caller row }
{
    if may_write(state, caller, row) {
        return May::ReadAndWrite;
    }
    if may_read(state, caller, row) {
        return May::Read;
    }
    May::Nothing
}

// A row of a valid key answers nobody.
pub fn rights_of(state: State, row: u32) -> Rights
    ensures { result ≡ spec.rights_of state row }
{
    if hidden(state, row) {
        return Rights {
            secure: May::Nothing,
            nonsecure: May::Nothing,
            bootloader: May::Nothing,
        };
    }
    Rights {
        secure: allowed(state, SECURE, row),
        nonsecure: allowed(state, NONSECURE, row),
        bootloader: allowed(state, BOOTLOADER, row),
    }
}
