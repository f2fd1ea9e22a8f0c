// `otp write`: a job from a text that a person types and can review. A text whose job the library would refuse for its bytes gives none.
ghost use Rattle.std.specs.Prelude.{◌≡◌, IfOk, IsErrAnd};
ghost use Rattle.console.specs.Ends.{StopsWith};

use crate::text_errors::{Found, line, reason};
use console::ended::{End, Stop};
use console::files::load_text;
use console::options::Words;
use console::saving::{Entries, save_bytes, written_line};
use console::takes::{Role, Takes};
use console::usage::{asked, needed};
use form::faults::{Fault, MOST_ENTRIES, fault_of};
use form::writing::put_head;
use text::jobs::read;
use typed::words::part;

// Room for one entry more than a job has, so that the library can say that it is too many.
const ROOM: usize = 7 + 6 * (MOST_ENTRIES as usize + 1);

// Names the line of a fault: the text is read again, as far as the entry.
fn refuse(rt: &HostRuntime, place: usize, text: &[u8], fault: Fault) -> Result<End, Stop>
    ensures { IsErrAnd result (StopsWith End.File) }
{
    let found = Found::from(fault);
    let mut job = [0u8; ROOM];
    let reading = read(text, &mut job, found.entry.saturating_add(1)).unwrap_or_else(
        |wrong| wrong.reading,
    );
    line(rt, place, text, reading, found.word, found.why)
}

// The text is at one place, and the job is written at another, where the library finds no fault in it.
fn of_text(rt: &HostRuntime, from: usize, to: usize, text: &[u8]) -> Result<End, Stop>
    ensures { IfOk result (λ end. end ≡ End.Answered 0) }
{
    let mut bytes = [0u8; ROOM];
    let reading = match read(text, &mut bytes, MOST_ENTRIES + 1) {
        Ok(reading) => reading,
        Err(wrong) => return line(rt, from, text, wrong.reading, wrong.word, reason(wrong.why)),
    };
    let count = reading.count;
    put_head(&mut bytes, reading.version, count);
    // The first bytes of the room: nothing is allocated.
    let job = part(&bytes, 0, 7 + 6 * (count as usize));
    if let Err(fault) = fault_of(job) {
        return refuse(rt, from, text, fault);
    }
    save_bytes(rt, to, job)?;
    written_line(rt, Entries(count), to);
    Ok(End::Answered(0))
}

fn of_words(rt: &HostRuntime, words: Words) -> Result<End, Stop>
    ensures { IfOk result (λ end. end ≡ End.Answered 0) }
{
    let mut bytes = [0u8; 65536];
    let from = needed(rt, words.first)?;
    let text = load_text(rt, from, &mut bytes)?;
    of_text(rt, from, needed(rt, words.second)?, text)
}

pub fn run(rt: &HostRuntime) -> Result<End, Stop>
    ensures { IfOk result (λ end. end ≡ End.Answered 0) }
{
    let takes = Takes::words(Role::Text, Role::Written, 2, 2).with_replace();
    of_words(rt, asked(rt, takes)?)
}
