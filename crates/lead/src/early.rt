// The early word of a chunk: the first fault among what its bytes bring to an end (request 2026-01).
ghost use Rattle.std.specs.Prelude.{◌≡◌, ◌-◌, ◌≤◌, ◌<◌};
ghost use Rattle.form.specs.Entries.{entries_from};
ghost use Rattle.form.specs.Faults.{◌otherwise◌, form_fault, row_fault};
ghost use Rattle.form.specs.Said.{said};
ghost use Rattle.lead.specs.Early as spec;
ghost use Rattle.lead.specs.Notes as notes;

use crate::notes::{AREA_BYTES, Note, ended_in};
use crate::so_far::FileSoFar;
use form::entries::{Entry, byte_at, count_of, version_of};
use form::faults::{Fault, MOST_ENTRIES, form_fault, row_fault, rule_of};

// What came of a file: the bytes of its area from a start up to a stop.
#[derive(Clone, Copy)]
struct Came<'a> {
    area: &'a [u8],
    start: u32,
    stop: u32,
}

impl<'a> Came<'a> {
    // Whether the byte at a place came.
    fn has(&self, place: u32) -> bool
        ensures { result ≡ spec.came self.now.start self.now.stop place }
    {
        (self.start..self.stop).contains(&place)
    }

    // Whether a byte of the mark came and is another: each is judged as it comes.
    fn spoils(&self, place: u32, byte: u32) -> bool
        ensures { result ≡ spec.spoils self.now.area.now self.now.start self.now.stop place byte }
    {
        self.has(place) && byte_at(self.area, place as usize) != byte
    }

    // Whether the version came and is neither 1 nor 2.
    fn unknown_version(&self) -> bool
        ensures { result ≡ spec.unknown_version self.now.area.now self.now.start self.now.stop }
    {
        self.has(4) && version_of(self.area) != rule_of(self.area)
    }

    // Whether the count came and is above 512.
    fn large_count(&self) -> bool
        ensures { result ≡ spec.large_count self.now.area.now self.now.start self.now.stop }
    {
        self.has(6) && MOST_ENTRIES < count_of(self.area)
    }

    // The first fault of the head that came to its end.
    #[tactic(auto, unfolding(crate::specs::Early::head_brought))]
    fn head_fault(&self) -> Result<(), Fault>
        ensures { said result ≡ spec.head_brought self.now.area.now self.now.start self.now.stop }
    {
        if self.spoils(0, 0x4f) || self.spoils(1, 0x54) || self.spoils(2, 0x4a) {
            return Err(Fault::Mark);
        }
        if self.unknown_version() {
            return Err(Fault::Version);
        }
        if self.large_count() {
            return Err(Fault::Count);
        }
        Ok(())
    }
}

// The fault of an entry: of its form, and then of its row.
fn entry_fault(version: u32, i: u32, least: u32, entry: Entry) -> Result<(), Fault>
    ensures { said result ≡ form_fault i entry otherwise row_fault version i least entry }
{
    form_fault(i, entry)?;
    row_fault(version, i, least, entry)
}

// The first fault of the entries from the one begun up to another.
fn entry_faults(file: &FileSoFar, last: u32, version: u32) -> Result<(), Fault>
    requires { last ≤ 512 }
    ensures { said result
        ≡ spec.entry_faults version file.now.begun.index file.now.note.least
        (entries_from (notes.so_far file.now.area.now file.now.note) file.now.begun.index (last - file.now.begun.index)) }
{
    let mut least = file.note.least;
    for i in file.begun.index..last {
        let entry = file.entry(i);
        entry_fault(version, i, least, entry)?;
        least = entry.row + 1;
    }
    Ok(())
}

// The fault of a byte past the entries that the head counts.
fn past_brought(count: u32, stop: u32) -> Result<(), Fault>
    requires { count < 65536 }
    ensures { said result ≡ spec.past_brought count stop }
{
    if 7 + 6 * count < stop {
        return Err(Fault::Length);
    }
    Ok(())
}

// The first fault among what the bytes up to a stop bring to an end.
fn brought(file: &FileSoFar, stop: u32) -> Result<(), Fault>
    requires { stop ≤ 3080 }
    ensures { said result
        ≡ spec.brought file.now.note.least (notes.so_far file.now.area.now file.now.note) (notes.start_of file.now.note) stop }
{
    let area = file.area;
    let start = file.note.start();
    Came { area, start, stop }.head_fault()?;
    let count = count_of(area);
    entry_faults(file, ended_in(count, stop), rule_of(area))?;
    past_brought(count, stop)
}

// The first fault that a chunk, whose bytes the area has, brings to its end.
#[tactic(auto, using(crate::proofs::Heads::judged))]
pub(crate) fn chunk_fault(file: &FileSoFar, chunk: &[u8]) -> Result<(), Fault>
    ensures { said result ≡ spec.early_fault file.now.area.now file.now.note chunk.now }
{
    if chunk.is_empty() {
        return Ok(());
    }
    brought(file, file.note.stop(chunk))
}

// The same, of any area: one that has no room takes no chunk.
pub fn early_fault(area: &[u8], note: Note, chunk: &[u8]) -> Result<(), Fault>
    ensures { said result ≡ spec.early_fault area.now note chunk.now }
{
    if area.len() < AREA_BYTES as usize {
        return Ok(());
    }
    chunk_fault(&FileSoFar::before(area, note), chunk)
}
