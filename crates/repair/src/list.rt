// The list of a repair pass, and what it is refused for (request 2026-11).
ghost use Rattle.std.specs.Prelude.{◌≡◌, ◌&&◌};
ghost use Rattle.std.specs.List.{list_any};
ghost use Rattle.chip.specs.Slices.{too_large};
ghost use Rattle.repair.specs.Pass as spec;
ghost use Rattle.repair.specs.Permits.{writable};

use crate::permits::writable;
use chip::pages::Page;
use chip::slices::{MOST_HELD, row_at};

// Whether a listed row is from 0xf40 up, or not above the row before it.
#[tactic(auto, using(crate::proofs::Rising::high_stops, crate::proofs::Rising::low_stops, crate::proofs::Rising::order_next, crate::proofs::Rising::no_row), unfolding(crate::specs::Pass::out_of_order))]
pub fn out_of_order(list: &[u32]) -> bool
    ensures { result ≡ spec.out_of_order 0 list.now }
{
    let mut least: u32 = 0;
    for row in list {
        if Page::FIRST_KEPT_ROW <= *row {
            return true;
        }
        if *row < least {
            return true;
        }
        least = *row + 1;
    }
    false
}

// Whether a listed row is too large, and one that Secure may write by these pages.
pub(crate) fn some_too_large(rows: &[u32], pages: &[bool], list: &[u32]) -> bool
    ensures { result ≡ list_any (λ row. writable pages.now row && too_large rows.now row) list.now }
{
    list.iter().any(|row| writable(pages, *row) && MOST_HELD < row_at(rows, *row))
}
