// `otp repair`: the repair pass over the rows of a range or of a text, on a copy of an image (request 2026-11).
ghost use Rattle.std.specs.Prelude.{IfOk};
ghost use Rattle.mending.specs.Ends.{Repairs};

use crate::list_errors;
use crate::lists::{first, put_range};
use crate::pass::Pass;
use board::begin::begin;
use board::range;
use console::ended::{End, Stop};
use console::files::load_text;
use console::options::Words;
use console::takes::{Role, Takes};
use console::usage::asked;
use console::{usage, word};
use text::lists::read;

// A text is read as far as so many rows. No list of so many is in place, since 3,904 are below 0xf40: so it is refused, whatever follows.
const MOST: u32 = 4096;

// The list is the first rows of an array.
fn by_text(rt: &HostRuntime, words: Words, place: usize) -> Result<End, Stop>
    ensures { IfOk result Repairs }
{
    let mut rows = [0u32; 4096];
    let state = begin(rt, words, &mut rows)?;
    let mut bytes = [0u8; 65536];
    let text = load_text(rt, place, &mut bytes)?;
    let mut listed = [0u32; 4096];
    let reading = match read(text, &mut listed, MOST) {
        Ok(reading) => reading,
        Err(wrong) => return list_errors::line(rt, place, text, wrong),
    };
    let copy = rows;
    let pass = Pass {
        before: &rows,
        state,
        list: first(&listed, reading.count as usize),
        text,
    };
    pass.run(rt, words, copy)
}

fn by_range(rt: &HostRuntime, words: Words) -> Result<End, Stop>
    ensures { IfOk result Repairs }
{
    let range = range::from_first_to_last(rt, words)?;
    let mut rows = [0u32; 4096];
    let state = begin(rt, words, &mut rows)?;
    let mut listed = [0u32; 4096];
    put_range(&mut listed, range.first, range.past);
    let copy = rows;
    let pass = Pass {
        before: &rows,
        state,
        list: first(&listed, (range.past - range.first) as usize),
        text: b"",
    };
    pass.run(rt, words, copy)
}

pub fn run(rt: &HostRuntime) -> Result<End, Stop>
    ensures { IfOk result Repairs }
{
    let takes = Takes::on_image(Role::Other, 1, 3).with_rows().with_save();
    let words = asked(rt, takes)?;
    match (words.rows, words.second) {
        (Some(text), None) => by_text(rt, words, text),
        (None, Some(_)) => by_range(rt, words),
        (Some(_), Some(first)) => usage::wrong(
            rt,
            first,
            "the rows are those of FIRST and LAST or of --rows, not of both",
        ),
        (None, None) => usage::wrong(
            rt,
            word::command(rt),
            "FIRST and LAST, or --rows, are missing; ./otp help shows them",
        ),
    }
}
