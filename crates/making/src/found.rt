// What the crew is told of two images: the first row that stands in the way of a job, how many do, and the bits that a job burns (request
// 2026-04). A row is judged here as the making of a job judges it.
ghost use Rattle.std.specs.Prelude.{◌≡◌, ◌≤◌};
ghost use Rattle.making.specs.Found as spec;

use chip::pages::Page;
use chip::slices::row_at;
use row::writing::pulses;

// Why a row stands in the way: it has a burnt bit that the wanted one lacks; it differs, from 0xf40 up; or it differs below that, where too
// many do.
#[derive(Clone, Copy, Debug, PartialEq, Eq)]
pub(crate) enum Why {
    Lost,
    Kept,
    Changed,
}

// The first such row, and how many there are. Where there is none both are 0, as `found_below` and `First` (specs/Found.antt) have it.
#[derive(Clone, Copy, Debug, PartialEq, Eq)]
pub(crate) struct Found {
    pub row: u32,
    pub rows: u32,
}

// The two rows, and below the two images, go side by side, as `make_job` and the definitions take them.
fn stands(why: Why, row: u32, present: u32, wanted: u32) -> bool
    ensures { result ≡ spec.such why row present wanted }
{
    match why {
        Why::Lost => present & wanted != present,
        Why::Kept => (Page::FIRST_KEPT_ROW <= row) & (present != wanted),
        Why::Changed => (row < Page::FIRST_KEPT_ROW) & (present != wanted),
    }
}

// One such row more.
fn with_one(found: Found, row: u32) -> Found
    requires { found.rows ≤ 4096 }
    ensures { result ≡ spec.with_one found row }
{
    let rows = found.rows + 1;
    if found.rows == 0 {
        return Found { row, rows };
    }
    Found {
        row: found.row,
        rows,
    }
}

// One row more, such or not.
fn with_row(found: Found, row: u32, holds: bool) -> Found
    requires { found.rows ≤ 4096 }
    ensures { result ≡ spec.with_row found row holds }
{
    if holds {
        return with_one(found, row);
    }
    found
}

pub(crate) fn find(why: Why, present: &[u32], wanted: &[u32]) -> Found
    ensures value { result ≡ spec.found_below why present.now wanted.now 4096 }
    ensures first { spec.First why present.now wanted.now result }
{
    let mut found = Found { row: 0, rows: 0 };
    // By its number, as the definition goes down to it.
    for row in 0..4096 {
        let holds = stands(why, row, row_at(present, row), row_at(wanted, row));
        found = with_row(found, row, holds);
    }
    found
}

// The bits that a job burns: those that the wanted rows have more.
pub(crate) fn bits_to_burn(present: &[u32], wanted: &[u32]) -> u32
    ensures { result ≡ spec.bits_below present.now wanted.now 4096 }
{
    let mut bits: u32 = 0;
    // By its number, as the definition goes down to it.
    for row in 0..4096 {
        bits += pulses(row_at(present, row), row_at(wanted, row));
    }
    bits
}
