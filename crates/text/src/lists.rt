// A list of rows from a text, a row on each line, as `0x0c0` (request 2026-11). Its lines, comments and numbers are those of a job's text.
ghost use Rattle.std.specs.Prelude.{◌≡◌};
ghost use Rattle.text.specs.Lists as spec;
ghost use Rattle.text.specs.Readings.{read_as};
ghost use Rattle.text.specs.Said.{row_said_as};
ghost use Rattle.text.specs.Steps.{list_line, list_row};

use crate::entries::{Why, WrongWord, has, number, wrong};
use crate::reading;
use crate::reading::{Kept, Reading, Wrong};
use crate::room::Room;
use chip::slices::put;
use typed::words::line_at;

// A line has a row alone, or nothing.
#[tactic(auto, unfolding(crate::specs::Lists::listed_by))]
fn said_by(line: &[u8]) -> Result<Option<u32>, WrongWord>
    ensures { row_said_as result ≡ spec.listed_by line.now }
{
    if !has(line, 0) {
        return Ok(None);
    }
    if has(line, 1) {
        return wrong(1, Why::Extra);
    }
    match number(line, 0) {
        Some(row) => Ok(Some(row)),
        None => wrong(0, Why::Number),
    }
}

// The rows of a list. What a job's text says of a version, a list leaves as it was.
impl Kept for u32 {
    ghost by = { λ text reading. spec.list_by text reading (spec.next_listed text reading) };

    ghost puts = { λ text reading list. spec.with_rows list reading.count (spec.row_by (spec.next_listed text reading)) };

    #[tactic(auto, unfolding(crate::specs::Lists::with_rows))]
    fn step(text: &[u8], list: &mut [u32], room: Room) -> Result<Reading, Wrong> {
        let reading = room.reading;
        let count = reading.count;
        match said_by(line_at(text, reading.next)) {
            Ok(None) => Ok(room.passed(text, reading.first, reading.version, count)),
            Ok(Some(row)) => {
                put(list, count, row);
                Ok(room.passed(text, reading.first, reading.version, count + 1))
            }
            Err(wrong) => Err(room.stopped(wrong)),
        }
    }

    ghost one_line = { λ text reading. list_line text reading (spec.next_listed text reading) };

    ghost one_more = { λ text reading. list_row text reading (spec.next_listed text reading) };
}

// Reads a text as far as so many rows, its end or a wrong line, and puts its rows into a list.
pub fn read(text: &[u8], list: &mut [u32], most: u32) -> Result<Reading, Wrong>
    ensures value { read_as result ≡ spec.list_reading text.now most }
    ensures list_after { list.new ≡ spec.with_rows list.old 0 (spec.rows_of text.now most) }
{
    reading::read(text, list, most)
}
