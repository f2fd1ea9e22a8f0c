// What is wrong with a job's bytes: why it is answered 10 or 11 (document 01, "Jobs"; request 2026-09).
ghost use Rattle.std.specs.Prelude.{◌≡◌};
ghost use Rattle.form.specs.Entries.{entries_of};
ghost use Rattle.form.specs.Faults as spec;
ghost use Rattle.form.specs.Said.{said, refusal_of};

use crate::entries::{Entry, count_of, entry_at, version_of};
use answer::refusals::Refusal;
use chip::pages::Page;

// The first fault of a job, with the index of its entry where it has one.
#[derive(Clone, Copy, Debug, PartialEq, Eq)]
pub enum Fault {
    Short,
    Mark,
    Version,
    Count,
    Length,
    Kind(u32),
    Value(u32),
    High(u32),
    Kept(u32),
    Past(u32),
    Coded(u32),
    Late(u32),
    Order(u32),
}

// A job has at most so many entries.
pub const MOST_ENTRIES: u32 = 512;

impl Fault {
    // The refusal that it is answered with.
    pub fn refusal(self) -> Refusal
        ensures { result ≡ refusal_of self }
    {
        match self {
            Fault::Short
            | Fault::Mark
            | Fault::Version
            | Fault::Count
            | Fault::Length
            | Fault::Kind(_)
            | Fault::Value(_) => Refusal::Malformed,
            Fault::High(_)
            | Fault::Kept(_)
            | Fault::Past(_)
            | Fault::Coded(_)
            | Fault::Late(_)
            | Fault::Order(_) => Refusal::OutOfPlace,
        }
    }
}

impl From<Fault> for Refusal {
    ghost from_gives = { λ fault refusal. refusal ≡ refusal_of fault };

    fn from(fault: Fault) -> Refusal {
        fault.refusal()
    }
}

// The number of a fault, and 0 where there is none: the early word of a chunk is the value of an answer (request 2026-01).
pub fn fault_number(judged: Result<(), Fault>) -> u32
    ensures { result ≡ spec.fault_number (said judged) }
{
    match judged {
        Ok(()) => 0,
        Err(fault) => fault.refusal().number(),
    }
}

// Whether a job begins with the mark.
fn marked(job: &[u8]) -> bool
    ensures { result ≡ spec.marked job.now }
{
    job.starts_with(b"OTJ")
}

// The fault of a job's head, where the job is to have a version.
#[tactic(auto, unfolding(crate::specs::Faults::head_fault))]
fn head_fault(job: &[u8], version: u32) -> Result<(), Fault>
    ensures { said result ≡ spec.head_fault version job.now }
{
    if job.len() < 7 {
        return Err(Fault::Short);
    }
    if !marked(job) {
        return Err(Fault::Mark);
    }
    if version_of(job) != version {
        return Err(Fault::Version);
    }
    let count = count_of(job);
    if MOST_ENTRIES < count {
        return Err(Fault::Count);
    }
    if job.len() != 7 + 6 * (count as usize) {
        return Err(Fault::Length);
    }
    Ok(())
}

// The fault of an entry's form. Its index, the least row and the entry go in each by itself, here and below, as the definitions have them.
pub fn form_fault(i: u32, entry: Entry) -> Result<(), Fault>
    ensures { said result ≡ spec.form_fault i entry }
{
    if 1 < entry.kind {
        return Err(Fault::Kind(i));
    }
    if entry.kind == 0 && 65535 < entry.value {
        return Err(Fault::Value(i));
    }
    Ok(())
}

// The first of a job's entries whose form is wrong.
#[tactic(auto, using(crate::proofs::Judged::form_stops, crate::proofs::Judged::form_goes_on, crate::proofs::Upward::none_left), unfolding(crate::specs::Faults::form_faults))]
fn form_faults(job: &[u8]) -> Result<(), Fault>
    ensures { said result ≡ spec.form_faults 0 (entries_of job.now) }
{
    for i in 0..count_of(job) {
        form_fault(i, entry_at(job, i))?;
    }
    Ok(())
}

// The fault of an entry's row in version 1, where `least` is the lowest that may come.
fn order_fault(i: u32, least: u32, entry: Entry) -> Result<(), Fault>
    ensures { said result ≡ spec.order_fault i least entry }
{
    if Page::FIRST_KEPT_ROW <= entry.row {
        return Err(Fault::High(i));
    }
    if entry.row < least {
        return Err(Fault::Order(i));
    }
    Ok(())
}

// The fault of an entry's row in version 2. A least row above the first lock row says that a lock row went before.
fn locking_fault(i: u32, least: u32, entry: Entry) -> Result<(), Fault>
    ensures { said result ≡ spec.locking_fault i least entry }
{
    let row = entry.row;
    if Page::LAST_ROW < row {
        return Err(Fault::Past(i));
    }
    if Page::FIRST_LOCK_ROW <= row {
        if entry.kind == 0 {
            return Err(Fault::Coded(i));
        }
        if row < least {
            return Err(Fault::Order(i));
        }
        return Ok(());
    }
    if Page::FIRST_KEPT_ROW <= row {
        return Err(Fault::Kept(i));
    }
    if Page::FIRST_LOCK_ROW < least {
        return Err(Fault::Late(i));
    }
    if row < least {
        return Err(Fault::Order(i));
    }
    Ok(())
}

// The fault of an entry's row by a version's rule. The version stays the number that the head is compared with: an enum would be no plainer.
pub fn row_fault(version: u32, i: u32, least: u32, entry: Entry) -> Result<(), Fault>
    ensures { said result ≡ spec.row_fault version i least entry }
{
    if version == 2 {
        return locking_fault(i, least, entry);
    }
    order_fault(i, least, entry)
}

// The first of a job's entries whose row is wrong by a version's rule.
#[tactic(auto, using(crate::proofs::Judged::order_stops, crate::proofs::Judged::order_goes_on, crate::proofs::Upward::none_left), unfolding(crate::specs::Faults::order_faults))]
fn order_faults(job: &[u8], version: u32) -> Result<(), Fault>
    ensures { said result ≡ spec.order_faults version 0 0 (entries_of job.now) }
{
    let mut least = 0;
    for i in 0..count_of(job) {
        let entry = entry_at(job, i);
        row_fault(version, i, least, entry)?;
        least = entry.row + 1;
    }
    Ok(())
}

// The first fault of a job by a version's rule: its head, then the form of all entries, then the order of their rows.
#[tactic(auto, using(crate::proofs::Judged::stops, crate::proofs::Judged::goes_on), unfolding(crate::specs::Faults::fault_under))]
fn fault_under(job: &[u8], version: u32) -> Result<(), Fault>
    ensures { said result ≡ spec.fault_under version job.now }
{
    head_fault(job, version)?;
    form_faults(job)?;
    order_faults(job, version)
}

// The version by whose rule a job is judged: 2 where that is its version, and else 1.
pub fn rule_of(job: &[u8]) -> u32
    ensures { result ≡ spec.rule_of job.now }
{
    match version_of(job) {
        2 => 2,
        _ => 1,
    }
}

// The first fault of a job, by the rule of its version.
pub fn fault_of(job: &[u8]) -> Result<(), Fault>
    ensures { said result ≡ spec.fault_of job.now }
{
    fault_under(job, rule_of(job))
}
