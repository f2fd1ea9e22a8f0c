// `otp receive`: a job taken from standard input as its bytes come, and run on a copy of an image at their end (request 2026-01).
ghost use Rattle.std.specs.Prelude.{◌≡◌, IfOk};
ghost use Rattle.typed.specs.Words.{part_of};
ghost use Rattle.lead.specs.Ending.{end_job as end_of};
ghost use Rattle.receiving.specs.Ends.{Receives};

use crate::early;
use board::begin::begin;
use chip::state::State;
use console::ended::{End, Stop};
use console::files::read_input;
use console::options::Words;
use console::takes::{Role, Takes};
use console::usage::asked;
use lead::early::early_fault;
use lead::ending::end_job;
use lead::notes::{AREA_BYTES, Note};
use lead::taking::take_chunk;
use report::answered::Trial;
use typed::words::part;

// The area that is lent, and room for a byte more, so that a job that is too long can be shown as one.
const AREA: usize = AREA_BYTES as usize;

const ROOM: usize = AREA + 1;

// What has come: the note of it, and how many faults were said.
#[derive(Clone, Copy)]
struct Heard {
    note: Note,
    said: u32,
}

impl Heard {
    fn nothing_yet() -> Heard {
        Heard {
            note: Note::fresh(),
            said: 0,
        }
    }

    // With one byte more. Its answer's value is the number of its fault, so a fault is asked for only where there is one.
    fn take_byte(&mut self, rt: &HostRuntime, area: &mut [u8], byte: u8) {
        let chunk = [byte];
        let before = self.note;
        let taken = take_chunk(area, before, &chunk);
        self.note = taken.note;
        if taken.answer.value != 0
            && let Err(fault) = early_fault(area, before, &chunk)
        {
            self.said = early::say(rt, area, before, fault, self.said);
        }
    }

    // With what comes next, however long it takes to come: whether that is the end. Nothing that comes past the longest job changes the answer,
    // so that is an end too. A piece is taken byte by byte, so that each fault is said as soon as its byte is there, and with its own entry.
    fn take_next(&mut self, rt: &HostRuntime, area: &mut [u8]) -> Result<bool, Stop> {
        let mut bytes = [0u8; 4096];
        let piece = read_input(rt, &mut bytes)?;
        for byte in piece {
            self.take_byte(rt, area, *byte);
        }
        Ok(piece.is_empty() || AREA_BYTES < self.note.counted)
    }
}

// All that comes. Each piece has a byte at least, so the longest job has come after as many pieces as it has bytes.
fn all_of(rt: &HostRuntime, area: &mut [u8]) -> Result<Note, Stop> {
    let mut heard = Heard::nothing_yet();
    for _ in 0..ROOM {
        if heard.take_next(rt, area)? {
            break;
        }
    }
    Ok(heard.note)
}

// The end of the job: it is run on a copy of the rows.
fn ended(
    rt: &HostRuntime,
    words: Words,
    before: &[u32; 4096],
    state: State,
    room: &[u8; ROOM],
    note: Note,
) -> Result<End, Stop>
    ensures { IfOk result (λ end. end ≡ End.Answered (end_of before.now state (part_of room.now 0 AREA) note).outcome.answer.number) }
{
    // The area and the job are the first bytes of the room: nothing is allocated.
    let mut after = *before;
    let outcome = end_job(&mut after, state, part(room, 0, AREA), note);
    let trial = Trial {
        before,
        after: &after,
        state,
        job: part(room, 0, note.counted as usize),
        limit: None,
        outcome,
    };
    trial.show(rt, words)
}

// The image is loaded first, so that what is wrong with it is said before anything is awaited.
fn of_words(rt: &HostRuntime, words: Words) -> Result<End, Stop>
    ensures { IfOk result Receives }
{
    let mut rows = [0u32; 4096];
    let state = begin(rt, words, &mut rows)?;
    let mut room = [0u8; ROOM];
    let note = all_of(rt, &mut room[..AREA])?;
    ended(rt, words, &rows, state, &room, note)
}

// The job has no word: it is standard input.
pub fn run(rt: &HostRuntime) -> Result<End, Stop>
    ensures { IfOk result Receives }
{
    let takes = Takes::on_image(Role::Job, 1, 1).with_save();
    of_words(rt, asked(rt, takes)?)
}
