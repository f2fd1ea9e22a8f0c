// The numbers of what is found at a place of a job, for those who take no enum.
ghost use Rattle.std.specs.Prelude.{◌≡◌};
ghost use Rattle.reader.specs.Numbers as spec;

use crate::handing::Found;
use form::entries::Entry;

// 10 where no entry stands, and otherwise 0.
pub fn found_number(found: Found) -> u32
    ensures { result ≡ spec.found_number found }
{
    match found {
        Found::Entry(_) | Found::End => 0,
        Found::Malformed => 10,
    }
}

// 1 at the end, and otherwise 0.
pub fn end_number(found: Found) -> u32
    ensures { result ≡ spec.end_number found }
{
    match found {
        Found::End => 1,
        Found::Entry(_) | Found::Malformed => 0,
    }
}

// The entry that is handed over, and zeros where none is.
pub fn found_entry(found: Found) -> Entry
    ensures { result ≡ spec.found_entry found }
{
    match found {
        Found::Entry(entry) => entry,
        Found::End | Found::Malformed => Entry {
            row: 0,
            kind: 0,
            value: 0,
        },
    }
}
