// The reads of one row: raw and ECC (document 01).
ghost use Rattle.std.specs.Prelude.{◌≡◌, IfOk};
ghost use Rattle.answer.specs.Refusals.{number_of};
ghost use Rattle.answer.specs.Rungs.{first_of};
ghost use Rattle.permit.specs.Permission.{may_read};
ghost use Rattle.chip.specs.Slices.{row_at};
ghost use Rattle.access.specs.Judging.{no_value, call_rungs};
ghost use Rattle.access.specs.Reads as spec;

use crate::judging::check_call;
use answer::answers::{Answer, told};
use answer::refusals::Refusal;
use chip::slices::row_at;
use chip::state::State;
use decode::reading::read_row;
use permit::permission::may_read;

// What a row holds, to be read as it is. `coded` says whether it is then read by ECC, which no lock row is.
fn readable(rows: &[u32], state: State, caller: u32, row: u32, coded: bool) -> Result<u32, Refusal>
    ensures number { number_of result
        ≡ first_of (call_rungs rows.now state caller row coded no_value (may_read state caller row)) }
    ensures held { IfOk result (λ held. held ≡ row_at rows.now row) }
{
    let may = may_read(state, caller, row);
    check_call(rows, state, caller, row, coded, false, may)?;
    Ok(row_at(rows, row))
}

// Reads a row as it is. It and the next differ in what an `Ok` is read by: one function with a closure is no plainer.
#[tactic(auto, using(answer::proofs::Numbered::not_done), unfolding(crate::specs::Reads::read_raw))]
pub fn read_raw(rows: &[u32], state: State, caller: u32, row: u32) -> Answer
    ensures { result ≡ spec.read_raw rows.now state caller row }
{
    match readable(rows, state, caller, row, false) {
        Ok(held) => told(held),
        Err(refusal) => refusal.into(),
    }
}

// Reads a row with ECC.
#[tactic(auto, using(crate::proofs::Answering::ecc_refused, crate::proofs::Answering::ecc_read))]
pub fn read_ecc(rows: &[u32], state: State, caller: u32, row: u32) -> Answer
    ensures { result ≡ spec.read_ecc rows.now state caller row }
{
    match readable(rows, state, caller, row, true) {
        Ok(held) => read_row(held),
        Err(refusal) => refusal.into(),
    }
}
