// The end of a job that came in chunks: nothing is burnt before it is announced (request 2026-01).
ghost use Rattle.std.specs.Prelude.{◌≡◌, ◌≤◌, [], ◌∷◌, ltb, length, OnOk};
ghost use Rattle.answer.specs.Refusals.{number_of};
ghost use Rattle.answer.specs.Rungs.{◌when◌, first_of};
ghost use Rattle.chip.specs.Slices.{not_whole};
ghost use Rattle.lead.specs.Ending as spec;
ghost use Rattle.lead.specs.Notes.{no_room};

use crate::notes::{AREA_BYTES, Note};
use answer::refusals::Refusal;
use chip::pages::Page;
use chip::state::{Outcome, State};
use job::jobs::{MOST_PULSES, rehearse};

// Whether the end may be announced of what is lent and noted.
fn check_end(rows: &[u32], area: &[u8], note: Note) -> Result<(), Refusal>
    ensures number { number_of result
        ≡ first_of (1 when not_whole rows.now ∷ 12 when no_room area.now ∷ 10 when ltb 3079 note.counted ∷ []) }
    ensures room { OnOk result ((note.counted ≤ 3079) × (3079 ≤ length area.now)) }
{
    if rows.len() != Page::CHIP_ROWS {
        return Err(Refusal::NotWhole);
    }
    if area.len() < AREA_BYTES as usize {
        return Err(Refusal::NoRoom);
    }
    if AREA_BYTES < note.counted {
        return Err(Refusal::Malformed);
    }
    Ok(())
}

// Runs as many area bytes as the note counts as a job.
#[tactic(auto, using(crate::proofs::Ends::refused_end, crate::proofs::Ends::runs_on, job::proofs::Whole::whole_job))]
pub fn end_job(rows: &mut [u32], state: State, area: &[u8], note: Note) -> Outcome
    ensures { (result ≡ (spec.end_job rows.old state area.now note).outcome)
        × (rows.new ≡ (spec.end_job rows.old state area.now note).rows) }
{
    if let Err(refusal) = check_end(rows, area, note) {
        let answer = refusal.into();
        return Outcome { answer, state };
    }
    // The note counts the bytes of the area, as C's `otp_note` has it.
    let counted = note.counted as usize;
    rehearse(rows, state, &area[..counted], MOST_PULSES)
}
