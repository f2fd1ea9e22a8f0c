// What a call that burns does to a row, and what it leaves beside its answer (request 2026-07). It is made nowhere else.
ghost use Rattle.std.specs.Prelude.{◌≡◌, set};
ghost use Rattle.chip.specs.Tallies.{◌gains◌, with_gain};
ghost use Rattle.burn.specs.Burning as spec;

use answer::answers::Answer;
use chip::slices::put;
use chip::state::{Outcome, State, Tallies};
use chip::tallies::gain;
use row::writing::Burnt;

// Burns a row, and counts the bits that it gained. The rows and the tallies go in each by itself, here and above: a struct that lends both for a
// while is no plainer, since its contracts would speak of what each part held and holds.
pub fn burn_row(rows: &mut [u32], tallies: &mut [u16], row: u32, burnt: Burnt)
    ensures { (rows.new ≡ set rows.old row burnt.row)
        × (tallies.new ≡ with_gain tallies.old (row gains burnt.pulses)) }
{
    put(rows, row, burnt.row);
    gain(tallies, row, burnt.pulses);
}

// The state beside an answer. The tallies come by themselves, since no field of a state can be lent to what counts them; so the state is
// copied once, at the end. As a whole, and not field by field by `..state`: by that a write took twice the instructions on the Hazard3.
pub fn beside(answer: Answer, state: State, tallies: Tallies) -> Outcome
    ensures { result ≡ spec.beside answer state tallies }
{
    let mut next = state;
    next.tallies = tallies;
    Outcome {
        answer,
        state: next,
    }
}
