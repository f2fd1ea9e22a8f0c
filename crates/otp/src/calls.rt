// The calls of the face for C, as Rattle code has them: otp_c exports each. Each is the call of the crate below, and what C takes of its answer.
// Each contract cites the definition of that call, so all that is proved of the call holds here too.
ghost use Rattle.std.specs.Prelude.{◌≡◌};
ghost use Rattle.lock.specs.Calls as latch;
ghost use Rattle.latch.specs.Resetting as resetting;
ghost use Rattle.access.specs.Reads as reads;
ghost use Rattle.access.specs.Votes as votes;
ghost use Rattle.burn.specs.Writes as writes;
ghost use Rattle.repair.specs.Pass as pass;
ghost use Rattle.job.specs.Jobs as jobs;
ghost use Rattle.lead.specs.Ending as ending;
ghost use Rattle.lead.specs.Taking as taking;
ghost use Rattle.maker.specs.Making as making;
ghost use Rattle.reader.specs.Handing as handing;
ghost use Rattle.otp.specs.Flat.{flat_answer, flat_outcome, flat_taken, flat_entry};

use crate::flat::{FlatAnswer, FlatEntry, FlatOutcome, FlatTaken};
use access::reads::{read_ecc, read_raw};
use access::votes::read_vote;
use burn::writes::{write_ecc, write_raw};
use chip::state::State;
use job::jobs::{MOST_PULSES, rehearse};
use latch::resetting::reset;
use lead::ending::end_job;
use lead::notes::Note;
use lead::taking::take_chunk;
use lock::calls::{advance, enter_key, show};
use maker::making::make_job;
use reader::readers::next_entry;
use repair::pass::repair;

// Latches what the rows hold.
pub fn otp_reset(rows: &[u32], state: State) -> FlatOutcome
    ensures { result ≡ flat_outcome (resetting.reset rows.now state) }
{
    reset(rows, state).into()
}

// Reads a row as it is.
pub fn otp_read_raw(rows: &[u32], state: State, caller: u32, row: u32) -> FlatAnswer
    ensures { result ≡ flat_answer (reads.read_raw rows.now state caller row) }
{
    read_raw(rows, state, caller, row).into()
}

// Reads a row with ECC.
pub fn otp_read_ecc(rows: &[u32], state: State, caller: u32, row: u32) -> FlatAnswer
    ensures { result ≡ flat_answer (reads.read_ecc rows.now state caller row) }
{
    read_ecc(rows, state, caller, row).into()
}

// Reads the vote of three or eight rows.
pub fn otp_read_vote(rows: &[u32], state: State, caller: u32, row: u32, count: u32) -> FlatAnswer
    ensures { result ≡ flat_answer (votes.read_vote rows.now state caller row count) }
{
    read_vote(rows, state, caller, row, count).into()
}

// Burns the bits of a value into a row.
pub fn otp_write_raw(
    rows: &mut [u32],
    state: State,
    caller: u32,
    row: u32,
    value: u32,
) -> FlatOutcome
    ensures { (result ≡ flat_outcome (writes.write_raw rows.old state caller row value).outcome)
        × (rows.new ≡ (writes.write_raw rows.old state caller row value).rows) }
{
    write_raw(rows, state, caller, row, value).into()
}

// Burns a value with its code into a row.
pub fn otp_write_ecc(
    rows: &mut [u32],
    state: State,
    caller: u32,
    row: u32,
    value: u32,
) -> FlatOutcome
    ensures { (result ≡ flat_outcome (writes.write_ecc rows.old state caller row value).outcome)
        × (rows.new ≡ (writes.write_ecc rows.old state caller row value).rows) }
{
    write_ecc(rows, state, caller, row, value).into()
}

// Burns the lost 1 of each listed row that can be mended, and reports what was found of each.
pub fn otp_repair(rows: &mut [u32], state: State, list: &[u32], report: &mut [u32]) -> FlatOutcome
    ensures { (result ≡ flat_outcome (pass.repair rows.old state list.now report.old).left.outcome)
        × (rows.new ≡ (pass.repair rows.old state list.now report.old).left.rows)
        × (report.new ≡ (pass.repair rows.old state list.now report.old).report) }
{
    repair(rows, state, list, report).into()
}

// Advances a lock.
pub fn otp_advance(state: State, caller: u32, domain: u32, page: u32, level: u32) -> FlatOutcome
    ensures { result ≡ flat_outcome (latch.advance state caller domain page level) }
{
    advance(state, caller, domain, page, level).into()
}

// Shows a lock.
pub fn otp_show(state: State, caller: u32, domain: u32, page: u32) -> FlatAnswer
    ensures { result ≡ flat_answer (latch.show_lock state caller domain page) }
{
    show(state, caller, domain, page).into()
}

// Enters a key.
pub fn otp_enter_key(state: State, caller: u32, key: &[u8]) -> FlatOutcome
    ensures { result ≡ flat_outcome (latch.enter_key state caller key.now) }
{
    enter_key(state, caller, key).into()
}

// Judges a job and burns it.
#[tactic(auto, using(job::proofs::Whole::whole_job))]
pub fn otp_run_job(rows: &mut [u32], state: State, job: &[u8]) -> FlatOutcome
    ensures { (result ≡ flat_outcome (jobs.run_job rows.old state job.now).outcome)
        × (rows.new ≡ (jobs.run_job rows.old state job.now).rows) }
{
    // A job is a rehearsal with enough pulses. By way of `run_job` one outcome more would stand on the stack, and no call takes as much.
    rehearse(rows, state, job, MOST_PULSES).into()
}

// Judges a job, and burns it until the pulses of the limit are spent.
pub fn otp_rehearse(rows: &mut [u32], state: State, job: &[u8], limit: u32) -> FlatOutcome
    ensures { (result ≡ flat_outcome (jobs.rehearse rows.old state job.now limit).outcome)
        × (rows.new ≡ (jobs.rehearse rows.old state job.now limit).rows) }
{
    rehearse(rows, state, job, limit).into()
}

// Takes a chunk of a job into a lent area, and says early what is wrong with it.
pub fn otp_take_chunk(area: &mut [u8], note: Note, chunk: &[u8]) -> FlatTaken
    ensures { (result ≡ flat_taken (taking.take_chunk area.old note chunk.now).taken)
        × (area.new ≡ (taking.take_chunk area.old note chunk.now).area) }
{
    take_chunk(area, note, chunk).into()
}

// Judges the job that a lent area keeps and burns it.
pub fn otp_end_job(rows: &mut [u32], state: State, area: &[u8], note: Note) -> FlatOutcome
    ensures { (result ≡ flat_outcome (ending.end_job rows.old state area.now note).outcome)
        × (rows.new ≡ (ending.end_job rows.old state area.now note).rows) }
{
    end_job(rows, state, area, note).into()
}

// Makes the job that burns a present image into a wanted one.
pub fn otp_make_job(present: &[u32], wanted: &[u32], out: &mut [u8]) -> FlatAnswer
    ensures { (result ≡ flat_answer (making.make_job present.now wanted.now out.old).answer)
        × (out.new ≡ (making.make_job present.now wanted.now out.old).out) }
{
    make_job(present, wanted, out).into()
}

// Hands over what stands at a place of a job.
pub fn otp_next_entry(job: &[u8], at: usize) -> FlatEntry
    ensures { result ≡ flat_entry (handing.handed_at job.now at) }
{
    next_entry(job, at).into()
}
