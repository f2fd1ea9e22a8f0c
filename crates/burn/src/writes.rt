// The writes: raw and ECC (document 01).
ghost use Rattle.std.specs.Prelude.{◌≡◌, IfOk, MatchResult, set};
ghost use Rattle.answer.specs.Answers.{refused, spent as spent_of};
ghost use Rattle.answer.specs.Refusals.{number_of, refusal_number};
ghost use Rattle.row.specs.Writing.{raw_written as written_raw, ecc_written as written_ecc, done_with};
ghost use Rattle.chip.specs.Slices.{row_at};
ghost use Rattle.chip.specs.Tallies.{◌gains◌, with_gain};
ghost use Rattle.burn.specs.Writes as spec;

use crate::burning::{beside, burn_row};
use access::judging::check_call;
use answer::answers::{Answer, spent};
use answer::refusals::Refusal;
use chip::slices::{MOST_HELD, row_at};
use chip::state::{Outcome, State};
use permit::permission::may_write;
use row::writing::Burnt;

// The two writes stand side by side: they differ in three arguments, and in whether the row itself can refuse. By one function with a closure they
// would be no plainer.

// What a raw write burns into a row, or why it is refused.
fn raw_burnt(
    rows: &[u32],
    state: State,
    caller: u32,
    row: u32,
    value: u32,
) -> Result<Burnt, Refusal>
    ensures number { number_of result ≡ spec.write_raw_number rows.now state caller row value }
    ensures burnt { IfOk result (λ burnt. done_with burnt ≡ written_raw (row_at rows.now row) value) }
{
    let may = may_write(state, caller, row);
    check_call(rows, state, caller, row, false, MOST_HELD < value, may)?;
    Ok(row::writing::write_raw(row_at(rows, row), value))
}

// What an ECC write burns into a row, or why it is refused.
#[tactic(auto, using(crate::proofs::Judged::call_refused, crate::proofs::Judged::value_of_16_bits, crate::proofs::Judged::row_refused))]
fn ecc_burnt(
    rows: &[u32],
    state: State,
    caller: u32,
    row: u32,
    value: u32,
) -> Result<Burnt, Refusal>
    ensures number { number_of result ≡ spec.write_ecc_number rows.now state caller row value }
    ensures burnt { IfOk result (λ burnt. done_with burnt ≡ written_ecc (row_at rows.now row) value) }
{
    let may = may_write(state, caller, row);
    check_call(rows, state, caller, row, true, 65535 < value, may)?;
    row::writing::write_ecc(row_at(rows, row), value as u16)
}

// Burns a row where its write is let, counts its new bits, and answers. One that is refused leaves the rows and the tallies as they were. It has
// the tallies alone: with the state in its place, and the outcome for its answer, the state is copied once more, which a Hazard3 does byte by byte.
// It stays a call: inlined into the writes it makes them so long that the compiler for x86-64 zeroes the outcome first, and copies it once more.
#[inline(never)]
fn burn(rows: &mut [u32], tallies: &mut [u16], row: u32, written: Result<Burnt, Refusal>) -> Answer
    ensures { MatchResult written
        (λ burnt. (result ≡ spent_of 0 burnt.pulses)
        × (rows.new ≡ set rows.old row burnt.row)
        × (tallies.new ≡ with_gain tallies.old (row gains burnt.pulses)))
        (λ refusal. (result ≡ refused (refusal_number refusal)) × (rows.new ≡ rows.old) × (tallies.new ≡ tallies.old)) }
{
    match written {
        Ok(burnt) => {
            burn_row(rows, tallies, row, burnt);
            spent(0, burnt.pulses)
        }
        Err(refusal) => refusal.into(),
    }
}

// Burns the bits of a value into a row.
#[tactic(auto, using(crate::proofs::Staying::left_by), unfolding(crate::specs::Writes::write_raw))]
pub fn write_raw(rows: &mut [u32], state: State, caller: u32, row: u32, value: u32) -> Outcome
    ensures { (result ≡ (spec.write_raw rows.old state caller row value).outcome)
        × (rows.new ≡ (spec.write_raw rows.old state caller row value).rows) }
{
    let written = raw_burnt(rows, state, caller, row, value);
    let mut tallies = state.tallies;
    let answer = burn(rows, &mut tallies, row, written);
    beside(answer, state, tallies)
}

// Burns a value with its code into a row, in the polarity that the bits already set allow.
#[tactic(auto, using(crate::proofs::Staying::left_by), unfolding(crate::specs::Writes::write_ecc))]
pub fn write_ecc(rows: &mut [u32], state: State, caller: u32, row: u32, value: u32) -> Outcome
    ensures { (result ≡ (spec.write_ecc rows.old state caller row value).outcome)
        × (rows.new ≡ (spec.write_ecc rows.old state caller row value).rows) }
{
    let written = ecc_burnt(rows, state, caller, row, value);
    let mut tallies = state.tallies;
    let answer = burn(rows, &mut tallies, row, written);
    beside(answer, state, tallies)
}
