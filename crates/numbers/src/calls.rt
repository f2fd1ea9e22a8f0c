// The nine calls: each is made, and its line finished.
use crate::board::{Board, ROWS};
use crate::names::Name;
use crate::said::Said;
use crate::{states, tallies};
use access::reads::{read_ecc, read_raw};
use access::votes::read_vote;
use burn::writes::{write_ecc, write_raw};
use chip::state::{Outcome, State};
use latch::resetting::reset;
use lock::calls::{advance, enter_key, show};
use screen::say_line;

impl Board<'_> {
    // What was made by hand since the last call is what a reset must latch. Any other call is made on
    // it.
    pub fn call(&mut self, name: Option<Name>, line: Said) {
        if name == Some(Name::Reset) {
            return self.reset(line);
        }
        let state = self.hand;
        self.state = state;
        let [caller, row, count, _] = line.given;
        match name {
            Some(Name::ReadRaw) => {
                let is = read_raw(self.lent(), state, caller, row);
                self.answered(line, is)
            }
            Some(Name::ReadEcc) => {
                let is = read_ecc(self.lent(), state, caller, row);
                self.answered(line, is)
            }
            Some(Name::ReadVote) => {
                let is = read_vote(self.lent(), state, caller, row, count);
                self.answered(line, is)
            }
            Some(Name::WriteRaw) => self.write(line, write_raw),
            Some(Name::WriteEcc) => self.write(line, write_ecc),
            Some(Name::Advance) => self.advance(line),
            Some(Name::Show) => {
                let is = show(state, caller, row, count);
                self.answered(line, is)
            }
            Some(Name::EnterKey) => self.enter_key(line),
            _ => say_line!(self.table.rt; "no such line"),
        }
    }

    // A done reset leaves what was made by hand, with the tallies that the rows have. A refused one gives back what came in.
    fn reset(&mut self, line: Said) {
        let state = self.state;
        let hand = self.hand;
        let outcome = reset(self.lent(), state);
        if line.must.number == 0 {
            let must = tallies::with_counted(hand, self.lent());
            return self.changed(line, outcome, must, "latched");
        }
        self.changed(line, outcome, state, "kept");
    }

    // Either write. Given the caller, the row and the value.
    fn write<F: Fn(&mut [u32], State, u32, u32, u32) -> Outcome>(&mut self, line: Said, write: F)
        requires { F.IsAlwaysCallable write }
    {
        let must = self.must_rows(line);
        let [caller, row, value, _] = line.given;
        let end = (self.entries as usize).min(ROWS);
        let state = self.state;
        let outcome = write(&mut self.rows[..end], state, caller, row, value);
        let same_rows = self.rows == must;
        self.written(line, outcome, same_rows)
    }

    // Given the caller, the domain, the page and the level. Where the line says no level that is left,
    // the state must be exactly as it was.
    fn advance(&mut self, line: Said) {
        let [caller, domain, page, level] = line.given;
        let outcome = advance(self.state, caller, domain, page, level);
        match line.left {
            None => self.changed(line, outcome, self.state, "kept"),
            Some(left) => {
                let must = states::with_level(self.state, domain, page, left);
                self.changed(line, outcome, must, "raised")
            }
        }
    }

    // Given the caller and the count of bytes. Entered, the prepared bytes must be the prepared words.
    fn enter_key(&mut self, line: Said) {
        let [caller, count, _, _] = line.given;
        let end = (count as usize).min(self.bytes.len());
        let outcome = enter_key(self.state, caller, &self.bytes[..end]);
        if line.must.number == 0 {
            let must = states::with_entered(self.state, self.words);
            return self.changed(line, outcome, must, "entered");
        }
        self.changed(line, outcome, self.state, "kept");
    }
}
