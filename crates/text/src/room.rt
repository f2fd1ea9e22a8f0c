// A reading that a line more may follow, and what it is after that line.
ghost use Rattle.std.specs.Prelude.{◌≡◌, ◌<◌};
ghost use Rattle.text.specs.Jobs as jobs;
ghost use Rattle.text.specs.Readings as spec;
ghost use Rattle.text.specs.Said.{reason};

use crate::entries::WrongWord;
use crate::reading::{Reading, Wrong};
use typed::words::next_line;

// Lines, and entries or rows, are counted: there is room for one more of each.
#[derive(Clone, Copy)]
pub(crate) struct Room {
    pub(crate) reading: Reading,
    ghost line_room: { reading.line < 65537 },
    ghost count_room: { reading.count < 65537 },
}

impl Room {
    // The line is read: whether no line has said anything yet, the version, and how many entries or rows there are now.
    #[tactic(auto, unfolding(crate::specs::Jobs::passed))]
    pub(crate) fn passed(self, text: &[u8], first: bool, version: u32, count: u32) -> Reading
        ensures { spec.going result ≡ jobs.passed text.now (spec.going self.reading) first version count }
    {
        let reading = self.reading;
        Reading {
            line: reading.line + 1,
            start: reading.next,
            next: next_line(text, reading.next),
            first,
            version,
            count,
        }
    }

    // The line is wrong.
    #[tactic(auto, unfolding(crate::specs::Jobs::stopped))]
    pub(crate) fn stopped(self, wrong: WrongWord) -> Wrong
        ensures { spec.ended result ≡ jobs.stopped (spec.going self.reading) wrong.word (reason wrong.why) }
    {
        let reading = self.reading;
        Wrong {
            reading: Reading {
                line: reading.line + 1,
                start: reading.next,
                ..reading
            },
            word: wrong.word,
            why: wrong.why,
        }
    }
}
