// `otp make`: the job that burns a present image into a wanted one (request 2026-04).
ghost use Rattle.std.specs.Prelude.{◌≡◌, IfOk, replicate};
ghost use Rattle.maker.specs.Making.{make_job as made_of};
ghost use Rattle.making.specs.Ends.{Makes};

use crate::against;
use crate::found::bits_to_burn;
use console::ended::{End, Stop};
use console::files::load_image;
use console::options::Words;
use console::saving::{Entries, save_bytes, written_line};
use console::takes::{Role, Takes};
use console::usage::{asked, needed};
use form::entries::count_of;
use form::faults::MOST_ENTRIES;
use maker::making::make_job;
use screen::shown::Counted;
use typed::words::part;

// Room for the longest job, so that an output that is too short is never the reason.
const ROOM: usize = 7 + 6 * (MOST_ENTRIES as usize);

// "5 entries, 37 bits to burn, written as card.job"
fn last_line(rt: &HostRuntime, entries: u32, bits: u32, place: usize) {
    if entries == 0 {
        return written_line(rt, "no entries, for the images are the same", place);
    }
    let bits = Counted(bits, "bit");
    written_line(
        rt,
        format_args!("{}, {bits} to burn", Entries(entries)),
        place,
    );
}

fn of_images(
    rt: &HostRuntime,
    place: usize,
    present: &[u32; 4096],
    wanted: &[u32; 4096],
) -> Result<End, Stop>
    ensures { IfOk result (λ end. end ≡ End.Answered (made_of present.now wanted.now (replicate ROOM 0)).answer.number) }
{
    let mut bytes = [0u8; ROOM];
    let answer = make_job(present, wanted, &mut bytes);
    // By its number: an answer of the library has one, and is no result.
    if answer.number != 0 {
        against::lines(rt, answer.number, present, wanted);
        return Ok(End::Answered(answer.number));
    }
    // The first bytes of the room: nothing is allocated.
    let job = part(&bytes, 0, answer.value as usize);
    save_bytes(rt, place, job)?;
    last_line(rt, count_of(job), bits_to_burn(present, wanted), place);
    Ok(End::Answered(0))
}

fn of_words(rt: &HostRuntime, words: Words) -> Result<End, Stop>
    ensures { IfOk result Makes }
{
    let mut present = [0u32; 4096];
    load_image(rt, needed(rt, words.first)?, &mut present)?;
    let mut wanted = [0u32; 4096];
    load_image(rt, needed(rt, words.second)?, &mut wanted)?;
    of_images(rt, needed(rt, words.third)?, &present, &wanted)
}

pub fn run(rt: &HostRuntime) -> Result<End, Stop>
    ensures { IfOk result Makes }
{
    let takes = Takes::words(Role::Image, Role::Image, 3, 3)
        .with_third(Role::Written)
        .with_replace();
    of_words(rt, asked(rt, takes)?)
}
