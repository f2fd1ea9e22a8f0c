// What a rehearsal did: a line for each entry, with the old and the new bits of its row.
use crate::answered::Trial;
use answer::answers::Polarity;
use chip::slices::row_at;
use decode::reading::read_row;
use form::entries::{Entry, count_of, entry_at};
use judge::verdicts::entry_burnt;
use row::writing::pulses;
use screen::say_line;
use screen::shown::{Bits, Row, Value};
use std::fmt;

// An entry, and the old and the new bits of its row: "0x0c0  0x000000 -> 0x230001  +4      ECC   0x0001". Behind that stands which polarity an
// ECC entry takes, as reading its row would say, and what there was or is left to burn.
#[derive(Clone, Copy)]
struct Change {
    entry: Entry,
    old: u32,
    new: u32,
}

impl fmt::Display for Change {
    fn fmt<W: fmt::Write>(&self, f: &mut fmt::Formatter<W>) -> fmt::Result {
        let Change { entry, old, new } = *self;
        let must = entry_burnt(old, entry).row;
        let burnt = pulses(old, new);
        write!(
            f,
            "{}  {} -> {}  +{burnt:<7}",
            Row(entry.row),
            Bits(old),
            Bits(new)
        )?;
        // By its number: that is what stands in a job's bytes.
        if entry.kind == 0 {
            write!(f, "ECC   {}", Value(entry.value))?;
            if read_row(must).polarity == Polarity::Inverted {
                f.write_str(", inverted")?;
            }
        } else {
            write!(f, "raw   {}", Bits(entry.value))?;
        }
        if old == must {
            f.write_str(", stands already")
        } else if new == must {
            Ok(())
        } else if new == old {
            f.write_str(", not reached")
        } else {
            write!(f, ", cut off with {} to go", pulses(new, must))
        }
    }
}

// A line for each entry.
pub(crate) fn lines(rt: &HostRuntime, trial: &Trial<'_>) {
    let after = trial.after;
    for place in 0..count_of(trial.job) {
        let entry = entry_at(trial.job, place);
        let old = row_at(trial.before, entry.row);
        let new = row_at(after, entry.row);
        say_line!(rt; "{}", Change { entry, old, new });
    }
}
