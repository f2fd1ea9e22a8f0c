// Jobs on a board: the board, and a line of the table for each run (document 01, "Jobs").
use crate::table::Table;
use answer::answers::Answer;
use chip::state::State;
use latch::resetting::reset;
use screen::say;
use std::fmt;

// All rows of a chip.
pub type Board = [u32; 4096];

// The state of a board just reset.
pub fn ready(rows: &[u32]) -> State {
    let outcome = reset(rows, State::zeros());
    outcome.state
}

// The number, the place and the pulses that a job answers.
#[derive(Clone, Copy, Debug, PartialEq, Eq)]
pub struct Told(pub u32, pub u32, pub u32);

impl From<Answer> for Told {
    fn from(answer: Answer) -> Told {
        Told(answer.number, answer.place, answer.pulses)
    }
}

impl fmt::Display for Told {
    fn fmt<W: fmt::Write>(&self, f: &mut fmt::Formatter<W>) -> fmt::Result {
        let Told(number, place, pulses) = *self;
        write!(f, "{number:2}, place {place:3}, pulses {pulses:4}")
    }
}

// A job by its name, what must be answered, what is, and whether that and the rows are right.
pub fn job_line(table: &mut Table, name: &str, answer: Answer, must: Told, rows_right: bool) {
    say!(table.rt; "{name:<30}");
    answer_line(table, answer, must, rows_right);
}

// The same, where the name stands already.
pub fn answer_line(table: &mut Table, answer: Answer, must: Told, rows_right: bool) {
    let is = Told::from(answer);
    say!(table.rt; "{must}   {is}   ");
    table.verdict(is == must && rows_right);
}
