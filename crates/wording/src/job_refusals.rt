// Why a job is refused: the number, its words, and what it is about.
use crate::refusals::{Numbered, OfRow};
use form::entries::entry_at;
use form::faults::{Fault, fault_of};
use screen::say_line;
use screen::shown::Row;
use std::fmt;

// ", entry 2, row 0x0c3"
#[derive(Clone, Copy)]
struct OfEntry<'a>(&'a [u8], u32);

impl fmt::Display for OfEntry<'_> {
    fn fmt<W: fmt::Write>(&self, f: &mut fmt::Formatter<W>) -> fmt::Result {
        let OfEntry(job, place) = *self;
        write!(f, ", entry {place}{}", OfRow(entry_at(job, place).row))
    }
}

// The same of an entry beside the one before it: ", entry 2, row 0x0c3 after row 0x0c4".
#[derive(Clone, Copy)]
struct AfterEntry<'a>(&'a [u8], u32);

impl fmt::Display for AfterEntry<'_> {
    fn fmt<W: fmt::Write>(&self, f: &mut fmt::Formatter<W>) -> fmt::Result {
        let AfterEntry(job, place) = *self;
        write!(f, "{}", OfEntry(job, place))?;
        if place == 0 {
            return Ok(());
        }
        write!(f, " after row {}", Row(entry_at(job, place - 1).row))
    }
}

// The fault of the bytes as the library finds it or, where there is none, the entry at the answer's place.
#[derive(Clone, Copy)]
struct Reason<'a> {
    job: &'a [u8],
    judged: Result<(), Fault>,
    place: u32,
}

impl fmt::Display for Reason<'_> {
    fn fmt<W: fmt::Write>(&self, f: &mut fmt::Formatter<W>) -> fmt::Result {
        let job = self.job;
        let Err(fault) = self.judged else {
            return write!(f, "{}", OfEntry(job, self.place));
        };
        match fault {
            Fault::Short => f.write_str(": short"),
            Fault::Mark => f.write_str(": mark not 4f 54 4a"),
            Fault::Version => f.write_str(": version neither 1 nor 2"),
            Fault::Count => f.write_str(": count above 512"),
            Fault::Length => f.write_str(": length not 7 + 6 x count"),
            Fault::Kind(at) => write!(f, ": kind above 1{}", OfEntry(job, at)),
            Fault::Value(at) => write!(f, ": ECC value above 65,535{}", OfEntry(job, at)),
            Fault::High(at) => write!(f, ": from 0xf40 up{}", OfEntry(job, at)),
            Fault::Kept(at) => write!(f, ": from 0xf40 to 0xf7f{}", OfEntry(job, at)),
            Fault::Past(at) => write!(f, ": above 4,095{}", OfEntry(job, at)),
            Fault::Coded(at) => write!(f, ": ECC entry at a lock row{}", OfEntry(job, at)),
            Fault::Late(at) => write!(f, ": data row after a lock row{}", AfterEntry(job, at)),
            Fault::Order(at) => {
                write!(f, ": not above the row before it{}", AfterEntry(job, at))
            }
        }
    }
}

pub fn headline(rt: &HostRuntime, job: &[u8], number: u32, place: u32) {
    let judged = fault_of(job);
    say_line!(rt; "{}{}", Numbered(number), Reason { job, judged, place });
}

// What is wrong with a job that is still coming: "early: 10: job bytes malformed: kind above 1, entry 1, row 0x0c4". The script ./otp knows
// such a line by its first word, and shows it at once.
pub fn early(rt: &HostRuntime, job: &[u8], fault: Fault) {
    let number = Numbered(fault.refusal().number());
    let judged = Err(fault);
    say_line!(rt;
        "early: {number}{}",
        Reason {
            job,
            judged,
            place: 0
        }
    );
}
