// The file so far: as the area has it, but for the entry begun before a chunk, which the note has (request 2026-01).
ghost use Rattle.std.specs.Prelude.{◌≡◌, ◌+◌, ◌≤◌, ◌<◌, length};
ghost use Rattle.form.specs.Entries.{byte_at, entry_at};
ghost use Rattle.lead.specs.Notes as spec;

use crate::notes::{Note, Part, begun_in, ended_in};
use form::entries::{Entry, byte_at, count_of, entry_at, first_entry};
use std::array::from_fn;

// An entry begun: its index, how many of its bytes came before, and these: eight bytes with their number beside, as the note of C has them.
#[derive(Clone, Copy, Debug, PartialEq, Eq)]
pub struct Begun {
    pub index: u32,
    pub bytes: u32,
    pub part: Part,
}

// The entry begun before a chunk.
pub fn begun_before(area: &[u8], note: Note) -> Begun
    ensures { result ≡ spec.begun_before area.now note }
{
    let count = count_of(area);
    let start = note.start();
    let index = ended_in(count, start);
    let bytes = begun_in(count, start);
    let part = note.part;
    Begun { index, bytes, part }
}

// An area with room for the longest file, the note before a chunk, and the entry begun then.
#[derive(Clone, Copy)]
pub(crate) struct FileSoFar<'a> {
    pub area: &'a [u8],
    pub note: Note,
    pub begun: Begun,
    ghost room: { 3079 ≤ length area.now },
    ghost before: { begun ≡ spec.begun_before area.now note },
}

// One of the bytes that a note has of an entry, of which it has room for eight. Of an array in a struct behind a reference a proof does not know the length.
fn part_at(part: Part, i: usize) -> u32
    requires { i < 8 }
    ensures value { result ≡ byte_at part i }
    ensures upper_bound { (result < 256) × (length part ≡ 8) }
{
    part[i] as u32
}

impl<'a> FileSoFar<'a> {
    // Before a chunk that a note goes before.
    pub(crate) fn before(area: &'a [u8], note: Note) -> FileSoFar<'a>
        requires { 3079 ≤ length area.now }
        ensures { (result.area ≡ area.entry) × (result.note ≡ note) }
    {
        let begun = begun_before(area, note);
        FileSoFar { area, note, begun }
    }

    // The byte at a place: those of the entry begun are the note's, and all others the area's.
    fn byte(&self, at: usize) -> u32
        ensures value { result ≡ byte_at (spec.so_far self.now.area.now self.now.note) at }
        ensures upper_bound { result < 256 }
    {
        let first = 7 + 6 * (self.begun.index as usize);
        if at < first || first + (self.begun.bytes as usize) <= at {
            return byte_at(self.area, at);
        }
        let part = self.begun.part;
        part_at(part, at - first)
    }

    // The i-th entry. Of all but the one begun the area has every byte.
    pub(crate) fn entry(&self, i: u32) -> Entry
        requires { i < 512 }
        ensures { result ≡ entry_at (spec.so_far self.now.area.now self.now.note) i }
    {
        if i != self.begun.index {
            return entry_at(self.area, i);
        }
        first_entry(&self.part_from(7 + 6 * i, 6))
    }

    // One above the row of an entry.
    #[tactic(auto, unfolding(form::specs::Entries::entry_at))]
    pub(crate) fn above(&self, i: u32) -> u32
        requires { i < 512 }
        ensures { result ≡ (entry_at (spec.so_far self.now.area.now self.now.note) i).row + 1 }
    {
        let at = 7 + 6 * (i as usize);
        self.byte(at) + 256 * self.byte(at + 1) + 1
    }

    // One of so many bytes from a place on, and a zero behind them.
    fn part_byte(&self, at: u32, bytes: u32, i: usize) -> u8
        requires { (at < 65536) × (i < 8) }
        ensures { result ≡ spec.part_byte (spec.so_far self.now.area.now self.now.note) at bytes i }
    {
        if bytes as usize <= i {
            return 0;
        }
        self.byte(at as usize + i) as u8
    }

    // So many bytes from a place on, and zeros behind.
    pub(crate) fn part_from(&self, at: u32, bytes: u32) -> Part
        requires { at < 65536 }
        ensures { result ≡ spec.part_from (spec.so_far self.now.area.now self.now.note) at bytes }
    {
        from_fn(|i| self.part_byte(at, bytes, i))
    }
}
