// The call that takes a chunk into a lent area. It is lent neither rows nor state, so it burns nothing (request 2026-01).
ghost use Rattle.std.specs.Prelude.{◌≡◌, ◌-◌, ◌≤◌, length, take};
ghost use Rattle.form.specs.Writing.{with_bytes};
ghost use Rattle.lead.specs.Notes as notes;
ghost use Rattle.lead.specs.Taking as spec;

use crate::early::chunk_fault;
use crate::notes::{AREA_BYTES, Note, begun_in, ended_in};
use crate::so_far::FileSoFar;
use answer::answers::{Answer, told};
use answer::refusals::Refusal;
use form::entries::count_of;
use form::faults::fault_number;

// What a chunk is answered, and the note after it.
#[derive(Clone, Copy, Debug, PartialEq, Eq)]
pub struct Taken {
    pub answer: Answer,
    pub note: Note,
}

// Stores a chunk's bytes from a place on, as many as fit below 3,079.
fn store(area: &mut [u8], start: u32, chunk: &[u8])
    requires { 3079 ≤ length area.old }
    ensures { area.new ≡ with_bytes area.old start (take (3079 - start) chunk.now) }
{
    if AREA_BYTES <= start {
        return;
    }
    let room = AREA_BYTES - start;
    let bytes = chunk.len().min(room as usize) as u32;
    // Byte by byte: to copy a part at once takes both addresses as numbers of 64 bits, and the desk's cores have 32. So it is counted by 32 too.
    for i in 0..bytes {
        area[(start + i) as usize] = chunk[i as usize];
    }
}

// The note after a chunk whose bytes the area has.
fn noted(file: &FileSoFar, chunk: &[u8]) -> Note
    ensures { result ≡ notes.noted (notes.so_far file.now.area.now file.now.note) file.now.note chunk.now }
{
    let note = file.note;
    let start = note.start();
    let stop = note.stop(chunk);
    if start == stop {
        return Note {
            counted: stop,
            ..note
        };
    }
    let count = count_of(file.area);
    let ended = ended_in(count, stop);
    let part = file.part_from(7 + 6 * ended, begun_in(count, stop));
    if file.begun.index == ended {
        return Note {
            counted: stop,
            part,
            ..note
        };
    }
    let least = file.above(ended - 1);
    Note {
        counted: stop,
        least,
        part,
    }
}

// Takes a chunk, and says early what is wrong with what it brought to an end.
pub fn take_chunk(area: &mut [u8], note: Note, chunk: &[u8]) -> Taken
    ensures { (result ≡ (spec.take_chunk area.old note chunk.now).taken)
        × (area.new ≡ (spec.take_chunk area.old note chunk.now).area) }
{
    if area.len() < AREA_BYTES as usize {
        return Taken {
            answer: Refusal::NoRoom.into(),
            note,
        };
    }
    store(area, note.start(), chunk);
    let file = FileSoFar::before(area, note);
    Taken {
        answer: told(fault_number(chunk_fault(&file, chunk))),
        note: noted(&file, chunk),
    }
}
