// The note of a job that comes in chunks: what has come of the file (request 2026-01).
ghost use Rattle.std.specs.Prelude.{◌≡◌};
ghost use Rattle.lead.specs.Notes as spec;

use form::faults::MOST_ENTRIES;

// The bytes of one entry that is begun, at most five, and zeros behind them.
pub type Part = [u8; 8];

// What is kept between two chunks: the bytes counted, 3,080 for any more; the lowest row that may come next; the entry begun.
#[repr(C)]
#[derive(Clone, Copy, Debug, PartialEq, Eq)]
pub struct Note {
    pub counted: u32,
    pub least: u32,
    pub part: Part,
}

// The longest job has so many bytes, and a lent area has room for them.
pub const AREA_BYTES: u32 = 7 + 6 * MOST_ENTRIES;

// A note counts so many bytes for any more.
const MOST_COUNTED: u32 = AREA_BYTES + 1;

impl Note {
    // The note before the first chunk.
    pub fn fresh() -> Note
        ensures { result ≡ spec.fresh }
    {
        Note {
            counted: 0,
            least: 0,
            part: [0; 8],
        }
    }

    // Where a chunk starts in the file, by the bytes that the note counts.
    pub fn start(self) -> u32
        ensures { result ≡ spec.start_of self }
    {
        self.counted.min(MOST_COUNTED)
    }

    // And where it stops.
    pub fn stop(self, chunk: &[u8]) -> u32
        ensures { result ≡ spec.stop_of self chunk.now }
    {
        (self.start() as usize + chunk.len()).min(MOST_COUNTED as usize) as u32
    }
}

// How many of `count` entries end among the first bytes of a file.
pub fn ended_in(count: u32, bytes: u32) -> u32
    ensures { result ≡ spec.ended_of count bytes }
{
    (bytes.saturating_sub(7) / 6).min(count)
}

// How many bytes of the next one are among them.
pub fn begun_in(count: u32, bytes: u32) -> u32
    ensures { result ≡ spec.begun_of count bytes }
{
    if bytes < 7 + 6 * count.min(MOST_ENTRIES) {
        return bytes.saturating_sub(7) % 6;
    }
    0
}
