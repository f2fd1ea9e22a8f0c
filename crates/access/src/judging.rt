// What a call on rows is refused for before a row is used (document 01, "The numbers we answer with").
ghost use Rattle.std.specs.Prelude.{◌≡◌};
ghost use Rattle.answer.specs.Refusals.{number_of};
ghost use Rattle.answer.specs.Rungs.{first_of};
ghost use Rattle.access.specs.Judging as spec;

use answer::refusals::Refusal;
use chip::callers::LAST_CALLER;
use chip::pages::Page;
use chip::slices::{MOST_HELD, row_at};
use chip::state::State;
use permit::keys::hidden;

// Whether a row that may or may not be used is refused: with 6, 7 or 3.
#[tactic(auto, unfolding(crate::specs::Judging::row_rungs))]
pub fn check_row(rows: &[u32], state: State, may: bool, row: u32) -> Result<(), Refusal>
    ensures { number_of result ≡ first_of (spec.row_rungs rows.now state may row) }
{
    let held = row_at(rows, row);
    if hidden(state, row) {
        return Err(Refusal::KeyRow);
    }
    if !may {
        return Err(Refusal::NotPermitted);
    }
    if MOST_HELD < held {
        return Err(Refusal::TooLarge);
    }
    Ok(())
}

// Whether a call on one row is refused before the row is used. `coded` says whether it goes by ECC, `too_large` whether its value is.
// What a call takes goes in each by itself, as C's calls take it and `call_rungs` has it: a struct of it is no plainer.
#[tactic(auto, unfolding(crate::specs::Judging::call_rungs))]
pub fn check_call(
    rows: &[u32],
    state: State,
    caller: u32,
    row: u32,
    coded: bool,
    too_large: bool,
    may: bool,
) -> Result<(), Refusal>
    ensures { number_of result ≡ first_of (spec.call_rungs rows.now state caller row coded too_large may) }
{
    if rows.len() != Page::CHIP_ROWS {
        return Err(Refusal::NotWhole);
    }
    if LAST_CALLER < caller {
        return Err(Refusal::NoSuchNumber);
    }
    if too_large {
        return Err(Refusal::NoSuchNumber);
    }
    if Page::LAST_ROW < row {
        return Err(Refusal::NoSuchRow);
    }
    if coded && Page::FIRST_LOCK_ROW <= row {
        return Err(Refusal::LockRow);
    }
    check_row(rows, state, may, row)
}
