// What ECC reads of a row's bits, in a column of its own. Who may read the row is not asked (document 01, "A row with ECC").
use answer::answers::Condition;
use chip::pages::Page;
use decode::reading::read_row;
use screen::shown::Value;
use std::fmt;

// What ECC reads of a row that holds some bits: "0x0001 repaired bit 12", and blanks to the end of the column, which is one past the widest,
// "0x0001 flag worn bit 12". ECC reads no lock row.
#[derive(Clone, Copy)]
pub struct Column(pub u32, pub u32);

impl fmt::Display for Column {
    fn fmt<W: fmt::Write>(&self, f: &mut fmt::Formatter<W>) -> fmt::Result {
        let Column(row, bits) = *self;
        if Page::FIRST_LOCK_ROW <= row {
            return write!(f, "{:<24}", "no ECC");
        }
        let answer = read_row(bits);
        // By its number: an answer of the library has one, and is no result.
        if answer.number != 0 {
            return write!(f, "{:<24}", "no value");
        }
        let value = Value(answer.value);
        match answer.condition {
            Condition::Clean => write!(f, "{value} {:<17}", "clean"),
            Condition::Repaired(place) => write!(f, "{value} repaired bit {place:<4}"),
            Condition::FlagWorn => write!(f, "{value} {:<17}", "flag worn"),
            Condition::FlagWornRepaired(place) => write!(f, "{value} flag worn bit {place:<3}"),
        }
    }
}
