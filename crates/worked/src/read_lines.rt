// What a read must answer, whether an answer is that, and the line that says so.
use crate::table::Table;
use answer::answers::{Answer, Condition, Polarity};
use decode::reading::read_row;
use screen::say;
use screen::shown::{Bits, Value};
use std::fmt;

// What must be is written out here, since the library's own makers of answers are under test.
fn must(number: u32, value: u32, condition: Condition, polarity: Polarity) -> Answer {
    Answer {
        number,
        value,
        condition,
        polarity,
        place: 0,
        pulses: 0,
    }
}

pub fn clean(value: u32, polarity: Polarity) -> Answer {
    must(0, value, Condition::Clean, polarity)
}

pub fn repaired(value: u32, place: u32, polarity: Polarity) -> Answer {
    must(0, value, Condition::Repaired(place), polarity)
}

// A row whose bits 23 and 22 disagree is read as plain.
pub fn worn(value: u32) -> Answer {
    must(0, value, Condition::FlagWorn, Polarity::Plain)
}

pub fn worn_and_repaired(value: u32, place: u32) -> Answer {
    must(
        0,
        value,
        Condition::FlagWornRepaired(place),
        Polarity::Plain,
    )
}

pub fn refused(number: u32) -> Answer {
    must(number, 0, Condition::Clean, Polarity::Plain)
}

// Whether a row reads as it must.
pub fn reads(row: u32, must: Answer) -> bool {
    read_row(row) == must
}

// How an answer is shown in its column. The place and the pulses of a read, always 0, have none, and are compared all the same.
#[derive(Clone, Copy)]
struct Shown(Answer);

impl fmt::Display for Shown {
    fn fmt<W: fmt::Write>(&self, f: &mut fmt::Formatter<W>) -> fmt::Result {
        let Shown(answer) = *self;
        let polarity = match answer.polarity {
            Polarity::Plain => ", plain",
            Polarity::Inverted => ", inverted",
        };
        write!(f, "{}, {}, ", answer.number, Value(answer.value))?;
        match answer.condition {
            Condition::Clean => write!(f, "clean{polarity:<12}"),
            Condition::Repaired(place) => write!(f, "bit {place:2}{polarity:<11}"),
            Condition::FlagWorn => write!(f, "worn{polarity:<13}"),
            Condition::FlagWornRepaired(place) => write!(f, "worn{place:2}{polarity:<11}"),
        }
    }
}

// One read on a line of its own.
pub fn read_line(table: &mut Table, label: &str, row: u32, must: Answer) {
    let is = read_row(row);
    say!(table.rt;
        "{label:<10}read {}               {}{}   ",
        Bits(row),
        Shown(must),
        Shown(is)
    );
    table.verdict(is == must);
}
