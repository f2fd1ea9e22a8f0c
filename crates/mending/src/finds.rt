// What a report entry of the pass says, and which kind of row that is (request 2026-11).
ghost use Rattle.std.specs.Prelude.{◌≡◌};
ghost use Rattle.mending.specs.Finds as spec;

use repair::finding::Found;
use wording::counts::Kind;

// What is found of a row, by its report entry. It is no `From`: neither u32 nor `Found` is of this crate, so the entry would need a type.
#[tactic(auto, unfolding(crate::specs::Finds::found_by))]
pub(crate) fn found_by(entry: u32) -> Found
    ensures { result ≡ spec.found_by entry }
{
    match entry % 256 {
        0 => Found::Clean,
        1 => Found::Mended(entry / 256),
        2 => Found::Worn,
        3 => Found::Damaged,
        _ => Found::NotPermitted,
    }
}

// The kind of row that it counts as. It is no `From`, as above.
pub(crate) fn kind_of(found: Found) -> Kind {
    match found {
        Found::Clean => Kind::Clean,
        Found::Mended(_) => Kind::Repaired,
        Found::Worn => Kind::Worn,
        Found::Damaged => Kind::Damaged,
        Found::NotPermitted => Kind::NotPermitted,
    }
}
