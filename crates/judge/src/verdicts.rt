// Judging a job whole, before the first pulse (document 01, "Jobs").
ghost use Rattle.std.specs.Prelude.{◌≡◌};
ghost use Rattle.answer.specs.Answers.{refused_at};
ghost use Rattle.answer.specs.Refusals.{refusal_number, number_of};
ghost use Rattle.answer.specs.Rungs.{first_of};
ghost use Rattle.row.specs.Writing.{written_by};
ghost use Rattle.permit.specs.Permission.{may_write};
ghost use Rattle.form.specs.Entries.{entries_of};
ghost use Rattle.form.specs.Said.{refusal_of};
ghost use Rattle.judge.specs.Verdicts as spec;

use answer::answers::{Answer, refused_at};
use answer::refusals::Refusal;
use chip::pages::Page;
use chip::slices::{MOST_HELD, row_at};
use chip::state::State;
use form::entries::{Entry, count_of, entry_at};
use form::faults::{Fault, fault_of};
use permit::permission::{may_write, share_permission};
use row::writing::{Burnt, write_ecc, write_raw};

// Why a job is refused, and the place that goes with it.
#[derive(Clone, Copy, Debug, PartialEq, Eq)]
pub struct Refused {
    pub refusal: Refusal,
    pub place: u32,
}

// A refusal of the whole job has place 0.
impl From<Refusal> for Refused {
    ghost from_gives = { λ refusal refused. refused ≡ record { refusal = refusal; place = 0 } };

    fn from(refusal: Refusal) -> Refused {
        Refused { refusal, place: 0 }
    }
}

impl From<Fault> for Refused {
    ghost from_gives = { λ fault refused. refused ≡ record { refusal = refusal_of fault; place = 0 } };

    fn from(fault: Fault) -> Refused {
        fault.refusal().into()
    }
}

impl From<Refused> for Answer {
    ghost from_gives = { λ refused answer. answer ≡ refused_at (refusal_number refused.refusal) refused.place };

    fn from(refused: Refused) -> Answer {
        refused_at(refused.refusal.number(), refused.place)
    }
}

// What writing an entry over a row gives. Called and not inlined, its result would go through memory, and a job would take a sixth longer on
// x86-64.
#[tactic(auto, unfolding(crate::specs::Verdicts::entry_written))]
#[inline(always)]
pub fn entry_written(old: u32, entry: Entry) -> Result<Burnt, Refusal>
    ensures { written_by old result ≡ spec.entry_written old entry }
{
    let value = entry.value;
    if entry.kind == 0 {
        return write_ecc(old, (value % 65536) as u16);
    }
    Ok(write_raw(old, value))
}

// The row that an entry leaves, and the pulses that it takes: where it is refused, the row as it was, and none.
pub fn entry_burnt(old: u32, entry: Entry) -> Burnt
    ensures { (result.row ≡ (spec.entry_written old entry).row) × (result.pulses ≡ (spec.entry_written old entry).pulses) }
{
    let left_alone = Burnt {
        row: old,
        pulses: 0,
    };
    entry_written(old, entry).unwrap_or(left_alone)
}

// A row, and whether Secure may write it.
#[derive(Clone, Copy)]
struct Permit {
    row: u32,
    may: bool,
}

// Whether Secure may write a row. To look it up would be most of judging an entry: so that of the row before is kept where the two
// share permission.
#[tactic(auto, using(permit::proofs::Sharing::share_write))]
fn permit_for(row: u32, before: Permit, state: State) -> Permit
    requires { before.may ≡ may_write state 0 before.row }
    ensures { (result.row ≡ row) × (result.may ≡ may_write state 0 row) }
{
    if share_permission(before.row, row) {
        return Permit { row, ..before };
    }
    let may = may_write(state, 0, row);
    Permit { row, may }
}

// Whether an entry is refused, whose row may be written, or may not. `check_row` of access judges 7, then 3, too: by one function for both
// a job of 512 entries took a twelfth more instructions on the Cortex-M33, so the two tests stand here once more.
#[tactic(auto, using(crate::proofs::Fitting::entry_nine), unfolding(crate::specs::Verdicts::entry_rungs))]
fn check_entry(rows: &[u32], may: bool, entry: Entry) -> Result<(), Refusal>
    ensures { number_of result ≡ first_of (spec.entry_rungs rows.now may 0 entry) }
{
    let old = row_at(rows, entry.row);
    if !may {
        return Err(Refusal::NotPermitted);
    }
    if MOST_HELD < old {
        return Err(Refusal::TooLarge);
    }
    entry_written(old, entry)?;
    Ok(())
}

// The entries in order: the first that is refused gives its refusal and its index. By `map_err(..)?` the index would be the closure's too, which
// is no plainer to prove.
fn judged(rows: &[u32], state: State, job: &[u8]) -> Result<(), Refused>
    ensures { spec.given result ≡ spec.verdict (spec.all_rungs rows.now state 0 (entries_of job.now)) }
{
    let may = may_write(state, 0, 0);
    let mut permit = Permit { row: 0, may };
    for i in 0..count_of(job) {
        let entry = entry_at(job, i);
        permit = permit_for(entry.row, permit, state);
        if let Err(refusal) = check_entry(rows, permit.may, entry) {
            return Err(Refused { refusal, place: i });
        }
    }
    Ok(())
}

// A job judged whole.
#[tactic(auto, using(crate::proofs::Upward::rungs_stop, crate::proofs::Upward::rungs_next), unfolding(crate::specs::Verdicts::verdict_of))]
pub fn verdict_of(rows: &[u32], state: State, job: &[u8]) -> Result<(), Refused>
    ensures { spec.given result ≡ spec.verdict_of rows.now state job.now }
{
    if rows.len() != Page::CHIP_ROWS {
        return Err(Refusal::NotWhole.into());
    }
    fault_of(job)?;
    judged(rows, state, job)
}
