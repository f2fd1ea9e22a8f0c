// `otp rehearse`: a job judged and rehearsed on a copy of an image (document 01, "Jobs").
ghost use Rattle.std.specs.Prelude.{◌≡◌, IfOk};
ghost use Rattle.std.specs.Option.{unwrap_or};
ghost use Rattle.job.specs.Jobs.{rehearse as rehearse_of};
ghost use Rattle.doing.specs.Ends.{Rehearses};

use board::begin::begin;
use chip::state::State;
use console::ended::{End, Stop};
use console::files::load_job;
use console::options::Words;
use console::takes::{Role, Takes};
use console::usage::{asked, needed, number};
use job::jobs::{MOST_PULSES, rehearse};
use report::answered::Trial;

// Rehearses a job on a copy of the rows. Without a limit it may take more pulses than any job takes.
fn rehearsed(
    rt: &HostRuntime,
    words: Words,
    before: &[u32; 4096],
    state: State,
    job: &[u8],
    limit: Option<u32>,
) -> Result<End, Stop>
    ensures { IfOk result (λ end. end
        ≡ End.Answered (rehearse_of before.now state job.now (unwrap_or limit MOST_PULSES)).outcome.answer.number) }
{
    let mut after = *before;
    let outcome = rehearse(&mut after, state, job, limit.unwrap_or(MOST_PULSES));
    let trial = Trial {
        before,
        after: &after,
        state,
        job,
        limit,
        outcome,
    };
    trial.show(rt, words)
}

fn of_files(rt: &HostRuntime, words: Words, limit: Option<u32>) -> Result<End, Stop>
    ensures { IfOk result Rehearses }
{
    let mut rows = [0u32; 4096];
    let state = begin(rt, words, &mut rows)?;
    let mut bytes = [0u8; 3080];
    let job = load_job(rt, needed(rt, words.second)?, &mut bytes)?;
    rehearsed(rt, words, &rows, state, job, limit)
}

pub fn run(rt: &HostRuntime) -> Result<End, Stop>
    ensures { IfOk result Rehearses }
{
    let takes = Takes::on_image(Role::Job, 2, 3).with_save();
    let words = asked(rt, takes)?;
    let limit = match words.third {
        Some(place) => Some(number(rt, place)?),
        None => None,
    };
    of_files(rt, words, limit)
}
