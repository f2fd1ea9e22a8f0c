// What a write must leave, whether what it left is that, and the line that says so.
use crate::table::Table;
use answer::refusals::Refusal;
use row::writing::{Burnt, write_ecc, write_raw};
use screen::say;
use screen::shown::{Bits, Value};
use std::fmt;

// What a write leaves: its number, the row, and the bits newly set. Refused, the old row stands, and no pulse is spent.
#[derive(Clone, Copy, Debug, PartialEq, Eq)]
pub struct Left(pub u32, pub u32, pub u32);

impl Left {
    // Of a write that is refused the library answers the refusal alone, so only its number is compared here. What such a call leaves of a row that
    // it is lent, and of the tallies, `numbers` compares.
    fn of(old: u32, written: Result<Burnt, Refusal>) -> Left {
        match written {
            Ok(burnt) => Left(0, burnt.row, burnt.pulses),
            Err(refusal) => Left(refusal.number(), old, 0),
        }
    }
}

impl fmt::Display for Left {
    fn fmt<W: fmt::Write>(&self, f: &mut fmt::Formatter<W>) -> fmt::Result {
        let Left(number, row, pulses) = *self;
        write!(f, "{number}, {}, pulses {pulses:2}", Bits(row))
    }
}

fn compared(table: &mut Table, old: u32, must: Left, is: Left) {
    say!(table.rt; " over {}  {must}      {is}         ", Bits(old));
    table.verdict(is == must);
}

// One ECC write on a line of its own.
pub fn ecc_line(table: &mut Table, label: &str, value: u16, old: u32, must: Left) {
    say!(table.rt; "{label:<10}write {}", Value(u32::from(value)));
    compared(table, old, must, Left::of(old, write_ecc(old, value)));
}

// One raw write on a line of its own.
pub fn raw_line(table: &mut Table, label: &str, value: u32, old: u32, must: Left) {
    say!(table.rt; "{label:<10}raw {}", Bits(value));
    compared(table, old, must, Left::of(old, Ok(write_raw(old, value))));
}
