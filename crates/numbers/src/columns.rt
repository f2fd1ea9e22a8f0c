// How the columns of a case are printed: words of the input, and an answer.
use answer::answers::{Answer, Condition, Polarity};
use screen::say;
use screen::saying::said_bytes;
use screen::shown::Bits;
use std::fmt;

// Bytes of the input, and blanks to the end of their column.
pub fn left(rt: &HostRuntime, words: &[u8], width: usize) {
    said_bytes(rt, words);
    let blanks = width.saturating_sub(words.len());
    say!(rt; "{:blanks$}", "");
}

// Number, value, condition and pulses. A mark stands behind the condition of an inverted row.
#[derive(Clone, Copy)]
pub struct Columns(pub Answer);

impl fmt::Display for Columns {
    fn fmt<W: fmt::Write>(&self, f: &mut fmt::Formatter<W>) -> fmt::Result {
        let Columns(answer) = *self;
        let mark = match answer.polarity {
            Polarity::Plain => ' ',
            Polarity::Inverted => '~',
        };
        write!(f, "{} {}", answer.number, Bits(answer.value))?;
        match answer.condition {
            Condition::Clean => write!(f, " clean{mark}")?,
            Condition::Repaired(place) => write!(f, " bit{place:2}{mark}")?,
            Condition::FlagWorn => write!(f, " worn {mark}")?,
            Condition::FlagWornRepaired(place) => write!(f, " worn{place:2}")?,
        }
        write!(f, "{:2}  ", answer.pulses)
    }
}
