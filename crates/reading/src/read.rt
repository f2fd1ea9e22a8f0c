// `otp read`: one row with ECC, as it is, or by a vote, and whose row it is (document 01).
ghost use Rattle.std.specs.Prelude.{◌≡◌, IfOk};
ghost use Rattle.reading.specs.Reads.{Reads, read_by};

use crate::one_read::{Read, Way, headline};
use board::begin::{begin, finish};
use chip::callers::{BOOTLOADER, NONSECURE, SECURE};
use chip::pages::Page;
use chip::state::State;
use console::ended::{End, Stop};
use console::options::Words;
use console::takes::{Role, Takes};
use console::usage::asked;
use console::{usage, word};

// The way that the options ask for.
fn way_asked(rt: &HostRuntime, words: Words) -> Result<Way, Stop> {
    let Some(vote) = words.vote else {
        return Ok(if words.raw.is_some() {
            Way::Raw
        } else {
            Way::Ecc
        });
    };
    if let Some(raw) = words.raw {
        return usage::wrong(rt, raw, "a read is raw or a vote, not both");
    }
    Ok(Way::Vote(usage::number(rt, vote)?))
}

// The caller that a word names.
fn caller_named(rt: &HostRuntime, place: usize) -> Result<u32, Stop> {
    // A word is asked for by its place, and may hold any bytes: a table of three is no plainer.
    if word::is(rt, place, b"secure") {
        return Ok(SECURE);
    }
    if word::is(rt, place, b"non-secure") {
        return Ok(NONSECURE);
    }
    if word::is(rt, place, b"bootloader") {
        return Ok(BOOTLOADER);
    }
    usage::wrong(
        rt,
        place,
        "no such caller; the callers are secure, non-secure and bootloader",
    )
}

// The caller that the words ask for: Secure where they name none.
fn caller_asked(rt: &HostRuntime, words: Words) -> Result<u32, Stop> {
    match (words.caller, words.nonsecure) {
        (None, None) => Ok(SECURE),
        (None, Some(_)) => Ok(NONSECURE),
        (Some(caller), None) => caller_named(rt, caller),
        (Some(_), Some(place)) => {
            usage::wrong(rt, place, "a read has one caller, and --as names it")
        }
    }
}

// The number of the answer. Of a row that the chip does not have only that is shown.
fn answered(
    rt: &HostRuntime,
    rows: &[u32; 4096],
    state: State,
    caller: u32,
    row: u32,
    way: Way,
) -> u32
    ensures { result ≡ (read_by way rows.now state caller row).number }
{
    let answer = way.read(rows, state, caller, row);
    if Page::LAST_ROW < row {
        headline(rt, answer.number, row);
        return answer.number;
    }
    let read = Read {
        rows,
        state,
        caller,
        row,
        way,
    };
    read.show(rt, answer);
    answer.number
}

pub fn run(rt: &HostRuntime) -> Result<End, Stop>
    ensures { IfOk result Reads }
{
    let words = asked(rt, Takes::on_image(Role::Other, 2, 2).with_ways())?;
    let row = usage::number(rt, usage::needed(rt, words.second)?)?;
    let caller = caller_asked(rt, words)?;
    let way = way_asked(rt, words)?;
    let mut rows = [0u32; 4096];
    let state = begin(rt, words, &mut rows)?;
    let number = answered(rt, &rows, state, caller, row, way);
    finish(rt, words, state, number)
}
