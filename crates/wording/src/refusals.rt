// The answers as number and words: by its number, as a call answers it, C too.
use screen::say_line;
use screen::shown::Row;
use std::fmt;

// The words of a number: the one table of them (document 01, "The numbers we answer with"). What a number that stands for several things
// means here is said behind it.
#[derive(Clone, Copy)]
pub struct Words(pub u32);

impl fmt::Display for Words {
    fn fmt<W: fmt::Write>(&self, f: &mut fmt::Formatter<W>) -> fmt::Result {
        f.write_str(match self.0 {
            0 => "done",
            1 => "the row slice hasn't 4,096 entries",
            2 => "row above 4,095, or a vote group that runs past row 4,095",
            3 => "an entry that this call uses is above 16,777,215",
            4 => "a number that this call does not take",
            5 => "ECC on a row from 0xf80 up, or a vote group with any such row",
            6 => "a row of a latched valid key",
            7 => "the permission rules don't allow it",
            8 => "no value has a code within one bit",
            9 => "neither polarity fits",
            10 => "job bytes malformed",
            11 => "job row out of place",
            12 => "the lent area is too short",
            13 => "a burnt bit that the wanted row lacks",
            14 => "more than 512 rows differ",
            _ => "a number that has no words here",
        })
    }
}

// "9: neither polarity fits"
#[derive(Clone, Copy)]
pub struct Numbered(pub u32);

impl fmt::Display for Numbered {
    fn fmt<W: fmt::Write>(&self, f: &mut fmt::Formatter<W>) -> fmt::Result {
        write!(f, "{}: {}", self.0, Words(self.0))
    }
}

// The same of a list of rows: "11: listed row out of place". The table has 11 in the words of a job, and a list is none (request 2026-11).
#[derive(Clone, Copy)]
pub struct ListNumbered(pub u32);

impl fmt::Display for ListNumbered {
    fn fmt<W: fmt::Write>(&self, f: &mut fmt::Formatter<W>) -> fmt::Result {
        if self.0 == 11 {
            return f.write_str("11: listed row out of place");
        }
        write!(f, "{}", Numbered(self.0))
    }
}

// ", row 0x0c3"
#[derive(Clone, Copy)]
pub struct OfRow(pub u32);

impl fmt::Display for OfRow {
    fn fmt<W: fmt::Write>(&self, f: &mut fmt::Formatter<W>) -> fmt::Result {
        write!(f, ", row {}", Row(self.0))
    }
}

// "4: a number that this call does not take: vote count neither 3 nor 8"
pub fn because(rt: &HostRuntime, number: u32, reason: &str) {
    say_line!(rt; "{}: {reason}", Numbered(number));
}

// An answer on one row.
pub fn row(rt: &HostRuntime, number: u32, row: u32) {
    if number == 0 {
        say_line!(rt; "{}", Numbered(number));
        return;
    }
    say_line!(rt; "{}{}", Numbered(number), OfRow(row));
}
