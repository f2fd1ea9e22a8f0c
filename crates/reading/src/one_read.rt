// The screen of one read: the answer, what was read, the bits of each row that is read, and whose row it is.
ghost use Rattle.std.specs.Prelude.{◌≡◌, ◌≤◌};
ghost use Rattle.reading.specs.Reads as spec;

use access::reads::{read_ecc, read_raw};
use access::votes::read_vote;
use answer::answers::Answer;
use chip::state::State;
use screen::shown::{Bits, FIELD_TITLES, Fields, Row, Value};
use screen::{say, say_line};
use std::fmt;
use wording::levels::levels_of;
use wording::rights::rights_of;
use wording::{callers, condition, levels, owner, refusals};

// How a row is read: with ECC, as it is, or by a vote of so many rows.
#[derive(Clone, Copy, Debug, PartialEq, Eq)]
pub(crate) enum Way {
    Ecc,
    Raw,
    Vote(u32),
}

impl Way {
    pub(crate) fn read(self, rows: &[u32], state: State, caller: u32, row: u32) -> Answer
        ensures { result ≡ spec.read_by self rows.now state caller row }
    {
        match self {
            Way::Ecc => read_ecc(rows, state, caller, row),
            Way::Raw => read_raw(rows, state, caller, row),
            Way::Vote(count) => read_vote(rows, state, caller, row, count),
        }
    }

    // How many rows are read: at most eight, and one where a vote of another count is asked for.
    fn span(self) -> u32
        ensures { result ≤ 8 }
    {
        match self {
            Way::Vote(3) => 3,
            Way::Vote(8) => 8,
            _ => 1,
        }
    }
}

impl fmt::Display for Way {
    fn fmt<W: fmt::Write>(&self, f: &mut fmt::Formatter<W>) -> fmt::Result {
        match self {
            Way::Ecc => f.write_str(" with ECC"),
            Way::Raw => f.write_str(" as it is"),
            Way::Vote(count) => write!(f, ", a vote of {count} rows"),
        }
    }
}

// The first line of the screen. A vote's count, which 4 is about, is no row's.
pub(crate) fn headline(rt: &HostRuntime, number: u32, row: u32) {
    if number == 4 {
        refusals::because(rt, 4, "vote count neither 3 nor 8");
        return;
    }
    refusals::row(rt, number, row);
}

// A read of a row of the chip: who reads it, and how.
#[derive(Clone, Copy)]
pub(crate) struct Read<'a> {
    pub rows: &'a [u32],
    pub state: State,
    pub caller: u32,
    pub row: u32,
    pub way: Way,
    ghost on_the_chip: { row ≤ 4095 },
}

impl Read<'_> {
    pub(crate) fn show(&self, rt: &HostRuntime, answer: Answer) {
        let Read {
            rows: _,
            state,
            caller,
            row,
            way,
        } = *self;
        let about = self.refused_row(answer.number);
        headline(rt, answer.number, about);
        if answer.number == 7 {
            levels::of_read(rt, levels_of(state, caller, about), caller);
        }
        say_line!(rt; "{:<12}{}{way}{}", "read", Row(row), callers::By(caller));
        if answer.number == 0 {
            self.value_lines(rt, answer);
        }
        say_line!(rt; "{:<12}row    all       {FIELD_TITLES}", "bits");
        self.bits_lines(rt);
        owner::lines(rt, rights_of(state, about), about);
    }

    // The number that a row answers by itself, as an answer has it. 5 is for ECC and votes alone.
    fn number_alone(&self, row: u32, number: u32) -> u32 {
        let way = if number == 5 { Way::Ecc } else { Way::Raw };
        way.read(self.rows, self.state, self.caller, row).number
    }

    // The row that the read's number is about. Of a vote it is the first, taken upward, that gives the number by itself.
    fn refused_row(&self, number: u32) -> u32 {
        (self.row..self.row + self.way.span())
            .find(|row| self.number_alone(*row, number) == number)
            .unwrap_or(self.row)
    }

    // What was read. Only a read with ECC has a condition, and a value of 16 bits.
    fn value_lines(&self, rt: &HostRuntime, answer: Answer) {
        let value = answer.value;
        if self.way != Way::Ecc {
            say_line!(rt; "{:<12}{} = {value}", "value", Bits(value));
            return;
        }
        say_line!(rt; "{:<12}{} = {value}", "value", Value(value));
        say_line!(rt; "{:<12}{}", "condition", condition::Words(answer));
    }

    // The bits of each row that is read, or why they are not shown, as far as there are rows.
    fn bits_lines(&self, rt: &HostRuntime) {
        for row in self.row..(self.row + self.way.span()).min(4096) {
            say!(rt; "{:<12}{}  ", "", Row(row));
            let answer = read_raw(self.rows, self.state, self.caller, row);
            if answer.number == 0 {
                say_line!(rt; "{}  {}", Bits(answer.value), Fields(answer.value));
            } else {
                say_line!(rt; "{}", refusals::Numbered(answer.number));
            }
        }
    }
}
