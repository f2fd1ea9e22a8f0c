// A text that is read line by line: how far it is read, and the one way in which its lines are gone through.
ghost use Rattle.std.specs.Prelude.{◌≡◌, ℕ, ◌+◌, ◌≤◌, List};
ghost use Rattle.text.specs.Jobs as jobs;
ghost use Rattle.text.specs.Readings as spec;

use crate::entries::Why;
use crate::room::Room;

// How far a text is read: the line that was read last, where it and the next begin, whether no line has said anything yet, and the version
// and the entries or rows so far.
#[derive(Clone, Copy, Debug, PartialEq, Eq)]
pub struct Reading {
    pub line: u32,
    pub start: usize,
    pub next: usize,
    pub first: bool,
    pub version: u32,
    pub count: u32,
}

// The line at which a text is read no further, and what is wrong with which of its words.
#[derive(Clone, Copy, Debug, PartialEq, Eq)]
pub struct Wrong {
    pub reading: Reading,
    pub word: u32,
    pub why: Why,
}

// More lines than a text of 65,536 bytes has.
const LINES: u32 = 65537;

impl Reading {
    // Nothing is read yet.
    fn begun() -> Reading
        ensures { spec.going result ≡ jobs.begun }
    {
        Reading {
            line: 0,
            start: 0,
            next: 0,
            first: true,
            version: 1,
            count: 0,
        }
    }

    // Whether there is more to read.
    fn goes_on(self, text: &[u8], most: u32) -> bool
        ensures { result ≡ jobs.goes_on text.now most (spec.going self) }
    {
        self.count < most && self.next < text.len()
    }
}

// What a text is read into, place by place: the bytes of a job, or the rows of a list.
pub(crate) trait Kept: Copy {
    // What one line more makes of a reading, and of what is kept.
    ghost by: { List ℕ → jobs.Reading → jobs.Reading };

    ghost puts: { List ℕ → jobs.Reading → List Self → List Self };

    // Reads one line more.
    fn step(text: &[u8], kept: &mut [Self], room: Room) -> Result<Reading, Wrong>
        ensures value { spec.read_as result ≡ by text.now (spec.going room.reading) }
        ensures kept_after { kept.new ≡ puts text.now (spec.going room.reading) kept.old };

    // A line is one line more, and at most one entry or row.
    ghost one_line: { (text : List ℕ) (reading : jobs.Reading) → (by text reading).line ≡ reading.line + 1 };

    ghost one_more: { (text : List ℕ) (reading : jobs.Reading) → (by text reading).count ≤ reading.count + 1 };
}

// Reads a text as far as so many entries or rows, its end or a wrong line.
pub(crate) fn read<K: Kept>(text: &[u8], kept: &mut [K], most: u32) -> Result<Reading, Wrong>
    ensures value { spec.read_as result ≡ spec.walk K.by jobs.most_lines text.now most jobs.begun }
    ensures kept_after { kept.new ≡ spec.walk_puts K.by K.puts jobs.most_lines text.now most jobs.begun kept.old }
{
    let mut reading = Reading::begun();
    for _ in 0..LINES {
        if !reading.goes_on(text, most) {
            break;
        }
        reading = K::step(text, kept, Room { reading })?;
    }
    Ok(reading)
}
