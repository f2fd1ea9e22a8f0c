// A job from a text, line by line.
ghost use Rattle.std.specs.Prelude.{◌≡◌};
ghost use Rattle.form.specs.Writing.{with_entries};
ghost use Rattle.text.specs.Jobs as spec;
ghost use Rattle.text.specs.Readings.{read_as};
ghost use Rattle.text.specs.Steps.{job_line, job_entry};

use crate::reading::{Kept, Reading, Wrong};
use crate::room::Room;
use crate::versions::Said;
use crate::{reading, versions};
use form::writing::put_entry;
use typed::words::line_at;

// The bytes of a job, in which its entries are put.
impl Kept for u8 {
    ghost by = { λ text reading. spec.read_by text reading (spec.next_of text reading) };

    ghost puts = { λ text reading job. with_entries job reading.count (spec.entry_by (spec.next_of text reading)) };

    #[tactic(auto, unfolding(form::specs::Writing::with_entries))]
    fn step(text: &[u8], job: &mut [u8], room: Room) -> Result<Reading, Wrong> {
        let reading = room.reading;
        let count = reading.count;
        match versions::read(line_at(text, reading.next), reading.first) {
            Ok(None) => Ok(room.passed(text, reading.first, reading.version, count)),
            Ok(Some(Said::Version(version))) => Ok(room.passed(text, false, version, count)),
            Ok(Some(Said::Entry(entry))) => {
                put_entry(job, count, entry);
                Ok(room.passed(text, false, reading.version, count + 1))
            }
            Err(wrong) => Err(room.stopped(wrong)),
        }
    }

    ghost one_line = { λ text reading. job_line text reading (spec.next_of text reading) };

    ghost one_more = { λ text reading. job_entry text reading (spec.next_of text reading) };
}

// Reads a text as far as so many entries, its end or a wrong line, and puts its entries into a job.
pub fn read(text: &[u8], job: &mut [u8], most: u32) -> Result<Reading, Wrong>
    ensures value { read_as result ≡ spec.reading_of text.now most }
    ensures job_after { job.new ≡ with_entries job.old 0 (spec.entries_of text.now most) }
{
    reading::read(text, job, most)
}
