// The calls on jobs: run and rehearse (document 01, "Jobs").
ghost use Rattle.std.specs.Prelude.{◌≡◌};
ghost use Rattle.job.specs.Jobs as spec;

use crate::burning::rehearsed;
use answer::answers::spent;
use burn::burning::beside;
use chip::state::{Outcome, State};
use form::entries::count_of;
use form::faults::MOST_ENTRIES;
use judge::verdicts::verdict_of;

// The longest job burns all 24 bits of each of its rows.
pub const MOST_PULSES: u32 = 24 * MOST_ENTRIES;

// Judges a job, and burns it until the pulses of the limit are spent.
#[tactic(auto, using(answer::proofs::Numbered::not_done), unfolding(crate::specs::Jobs::rehearse))]
pub fn rehearse(rows: &mut [u32], state: State, job: &[u8], limit: u32) -> Outcome
    ensures { (result ≡ (spec.rehearse rows.old state job.now limit).outcome)
        × (rows.new ≡ (spec.rehearse rows.old state job.now limit).rows) }
{
    if let Err(refused) = verdict_of(rows, state, job) {
        let answer = refused.into();
        return Outcome { answer, state };
    }
    let mut tallies = state.tallies;
    let reached = rehearsed(rows, &mut tallies, job, count_of(job), limit);
    let answer = spent(reached.place, reached.pulses);
    beside(answer, state, tallies)
}

// Judges a job and burns it.
#[tactic(auto, using(crate::proofs::Whole::whole_job))]
pub fn run_job(rows: &mut [u32], state: State, job: &[u8]) -> Outcome
    ensures { (result ≡ (spec.run_job rows.old state job.now).outcome)
        × (rows.new ≡ (spec.run_job rows.old state job.now).rows) }
{
    rehearse(rows, state, job, MOST_PULSES)
}
