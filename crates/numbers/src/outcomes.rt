// The rest of a case's line: what must be, what is, what is left of rows and state, the verdict.
use crate::board::{Board, ROWS};
use crate::columns::Columns;
use crate::said::{NONE, Said};
use crate::{states, tallies};
use answer::answers::Answer;
use chip::state::{Outcome, State};
use screen::say;

impl Board<'_> {
    // The word says what must be left, and "other" stands there where something else is. The place of an answer, always 0 outside
    // jobs, has no column, and is compared all the same.
    fn finished(&mut self, line: Said, is: Answer, word: &str, as_must: bool) {
        let must = line.must;
        let left = if as_must { word } else { "other" };
        say!(self.table.rt; "{}{}{left:<8}", Columns(must), Columns(is));
        self.table.verdict(is == must && as_must);
    }

    // A call that is lent nothing to change.
    pub fn answered(&mut self, line: Said, is: Answer) {
        self.finished(line, is, "-", true);
    }

    // A call that can change the state, with what it must leave and the word for that.
    pub fn changed(&mut self, line: Said, outcome: Outcome, must: State, word: &str) {
        self.left(line, outcome, must, word, true);
    }

    // A write: all rows were compared.
    pub fn written(&mut self, line: Said, outcome: Outcome, same_rows: bool) {
        if line.must.number == 0 {
            let must = self.must_state(line);
            return self.left(line, outcome, must, "burnt", same_rows);
        }
        self.left(line, outcome, self.state, "kept", same_rows);
    }

    fn left(&mut self, line: Said, outcome: Outcome, must: State, word: &str, same_rows: bool) {
        let as_must = same_rows && outcome.state == must;
        self.state = must;
        self.hand = must;
        self.finished(line, outcome.answer, word, as_must);
    }

    // A done write leaves its row as the line says, and every other row as it was.
    pub fn must_rows(&self, line: Said) -> [u32; ROWS] {
        let mut rows = self.rows;
        if line.must.number == 0 {
            let [_, row, _, _] = line.given;
            rows[row as usize % ROWS] = line.left.unwrap_or(NONE);
        }
        rows
    }

    // A done write leaves the tally of its page as the line says, or as the bits newly set make it, and the rest of the state.
    fn must_state(&self, line: Said) -> State {
        let [_, row, _, _] = line.given;
        match line.tally {
            Some(count) => states::with_tally(self.state, row / 64, count),
            None => tallies::with_new_bits(self.state, row, line.must.pulses),
        }
    }
}
