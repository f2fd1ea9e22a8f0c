// libotp.a: the calls that include/otp.h declares for C. Each is the call of that name in otp, and promises the same.
#![tactic(auto)]

ghost use Rattle.std.specs.Prelude.{◌≡◌};
ghost use Rattle.lock.specs.Calls as latch;
ghost use Rattle.latch.specs.Resetting as resetting;
ghost use Rattle.access.specs.Reads as reads;
ghost use Rattle.access.specs.Votes as votes;
ghost use Rattle.burn.specs.Writes as writes;
ghost use Rattle.repair.specs.Pass as pass;
ghost use Rattle.job.specs.Jobs as jobs;
ghost use Rattle.lead.specs.Ending as ending;
ghost use Rattle.lead.specs.Taking as taking;
ghost use Rattle.maker.specs.Making as making;
ghost use Rattle.reader.specs.Handing as handing;
ghost use Rattle.otp.specs.Flat.{flat_answer, flat_outcome, flat_taken, flat_entry};

use chip::state::State;
use lead::notes::Note;
use otp::calls;
use otp::flat::{FlatAnswer, FlatEntry, FlatOutcome, FlatTaken};

// Latches what the rows hold.
#[unsafe(no_mangle)]
pub extern "C" fn otp_reset(rows: &[u32], state: State) -> FlatOutcome
    ensures { result ≡ flat_outcome (resetting.reset rows.now state) }
{
    calls::otp_reset(rows, state)
}

// Reads a row as it is.
#[unsafe(no_mangle)]
pub extern "C" fn otp_read_raw(rows: &[u32], state: State, caller: u32, row: u32) -> FlatAnswer
    ensures { result ≡ flat_answer (reads.read_raw rows.now state caller row) }
{
    calls::otp_read_raw(rows, state, caller, row)
}

// Reads a row with ECC.
#[unsafe(no_mangle)]
pub extern "C" fn otp_read_ecc(rows: &[u32], state: State, caller: u32, row: u32) -> FlatAnswer
    ensures { result ≡ flat_answer (reads.read_ecc rows.now state caller row) }
{
    calls::otp_read_ecc(rows, state, caller, row)
}

// Reads the vote of three or eight rows.
#[unsafe(no_mangle)]
pub extern "C" fn otp_read_vote(
    rows: &[u32],
    state: State,
    caller: u32,
    row: u32,
    count: u32,
) -> FlatAnswer
    ensures { result ≡ flat_answer (votes.read_vote rows.now state caller row count) }
{
    calls::otp_read_vote(rows, state, caller, row, count)
}

// Burns the bits of a value into a row.
#[unsafe(no_mangle)]
pub extern "C" fn otp_write_raw(
    rows: &mut [u32],
    state: State,
    caller: u32,
    row: u32,
    value: u32,
) -> FlatOutcome
    ensures { (result ≡ flat_outcome (writes.write_raw rows.old state caller row value).outcome)
        × (rows.new ≡ (writes.write_raw rows.old state caller row value).rows) }
{
    calls::otp_write_raw(rows, state, caller, row, value)
}

// Burns a value with its code into a row.
#[unsafe(no_mangle)]
pub extern "C" fn otp_write_ecc(
    rows: &mut [u32],
    state: State,
    caller: u32,
    row: u32,
    value: u32,
) -> FlatOutcome
    ensures { (result ≡ flat_outcome (writes.write_ecc rows.old state caller row value).outcome)
        × (rows.new ≡ (writes.write_ecc rows.old state caller row value).rows) }
{
    calls::otp_write_ecc(rows, state, caller, row, value)
}

// Burns the lost 1 of each listed row that can be mended, and reports what was found of each.
#[unsafe(no_mangle)]
pub extern "C" fn otp_repair(
    rows: &mut [u32],
    state: State,
    list: &[u32],
    report: &mut [u32],
) -> FlatOutcome
    ensures { (result ≡ flat_outcome (pass.repair rows.old state list.now report.old).left.outcome)
        × (rows.new ≡ (pass.repair rows.old state list.now report.old).left.rows)
        × (report.new ≡ (pass.repair rows.old state list.now report.old).report) }
{
    calls::otp_repair(rows, state, list, report)
}

// Advances a lock.
#[unsafe(no_mangle)]
pub extern "C" fn otp_advance(
    state: State,
    caller: u32,
    domain: u32,
    page: u32,
    level: u32,
) -> FlatOutcome
    ensures { result ≡ flat_outcome (latch.advance state caller domain page level) }
{
    calls::otp_advance(state, caller, domain, page, level)
}

// Shows a lock.
#[unsafe(no_mangle)]
pub extern "C" fn otp_show(state: State, caller: u32, domain: u32, page: u32) -> FlatAnswer
    ensures { result ≡ flat_answer (latch.show_lock state caller domain page) }
{
    calls::otp_show(state, caller, domain, page)
}

// Enters a key.
#[unsafe(no_mangle)]
pub extern "C" fn otp_enter_key(state: State, caller: u32, key: &[u8]) -> FlatOutcome
    ensures { result ≡ flat_outcome (latch.enter_key state caller key.now) }
{
    calls::otp_enter_key(state, caller, key)
}

// Judges a job and burns it.
#[unsafe(no_mangle)]
pub extern "C" fn otp_run_job(rows: &mut [u32], state: State, job: &[u8]) -> FlatOutcome
    ensures { (result ≡ flat_outcome (jobs.run_job rows.old state job.now).outcome)
        × (rows.new ≡ (jobs.run_job rows.old state job.now).rows) }
{
    calls::otp_run_job(rows, state, job)
}

// Judges a job, and burns it until the pulses of the limit are spent.
#[unsafe(no_mangle)]
pub extern "C" fn otp_rehearse(
    rows: &mut [u32],
    state: State,
    job: &[u8],
    limit: u32,
) -> FlatOutcome
    ensures { (result ≡ flat_outcome (jobs.rehearse rows.old state job.now limit).outcome)
        × (rows.new ≡ (jobs.rehearse rows.old state job.now limit).rows) }
{
    calls::otp_rehearse(rows, state, job, limit)
}

// Takes a chunk of a job into a lent area, and says early what is wrong with it.
#[unsafe(no_mangle)]
pub extern "C" fn otp_take_chunk(area: &mut [u8], note: Note, chunk: &[u8]) -> FlatTaken
    ensures { (result ≡ flat_taken (taking.take_chunk area.old note chunk.now).taken)
        × (area.new ≡ (taking.take_chunk area.old note chunk.now).area) }
{
    calls::otp_take_chunk(area, note, chunk)
}

// Judges the job that a lent area keeps and burns it.
#[unsafe(no_mangle)]
pub extern "C" fn otp_end_job(
    rows: &mut [u32],
    state: State,
    area: &[u8],
    note: Note,
) -> FlatOutcome
    ensures { (result ≡ flat_outcome (ending.end_job rows.old state area.now note).outcome)
        × (rows.new ≡ (ending.end_job rows.old state area.now note).rows) }
{
    calls::otp_end_job(rows, state, area, note)
}

// Makes the job that burns a present image into a wanted one.
#[unsafe(no_mangle)]
pub extern "C" fn otp_make_job(present: &[u32], wanted: &[u32], out: &mut [u8]) -> FlatAnswer
    ensures { (result ≡ flat_answer (making.make_job present.now wanted.now out.old).answer)
        × (out.new ≡ (making.make_job present.now wanted.now out.old).out) }
{
    calls::otp_make_job(present, wanted, out)
}

// Hands over what stands at a place of a job.
#[unsafe(no_mangle)]
pub extern "C" fn otp_next_entry(job: &[u8], at: usize) -> FlatEntry
    ensures { result ≡ flat_entry (handing.handed_at job.now at) }
{
    calls::otp_next_entry(job, at)
}
