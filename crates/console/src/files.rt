// Images, jobs and texts as files, and standard input. Whatever goes wrong is said in one line, and the command has ended. What a file holds
// is the system's to say: a contract here says only how much of it there is.
ghost use Rattle.std.specs.Prelude.{IfErr, IfOk, length, ◌≤◌};
ghost use Rattle.console.specs.Ends.{StopsWith};
ghost use Rattle.console.specs.Files as spec;

use crate::ended::{End, Stop};
use crate::file_errors::{Wrong, input_unread, named, refused, unread};
use crate::word;
use image::rows::rows_of;
use std::fs::File;
use std::io::Read;
use std::os::fd::AsRawFd;

// Reads a file from its start: how many bytes it has, or nothing where it has more than there is room for. One byte more is asked for, to tell
// the end of the file from a failure and from a file that is longer.
fn contents(rt: &HostRuntime, place: usize, bytes: &mut [u8]) -> Result<Option<usize>, Wrong> {
    let mut path = io::buffer();
    let n = word::put(rt, place, &mut path)?;
    let mut file = File::open(rt, named(&path[..n])?)?;
    // std::io has no call that fills as much of an array as there is, but into a Vec.
    let got = io::read_full(file.as_raw_fd(), bytes);
    let mut next = [0u8; 1];
    let more = file.read(&mut next)?;
    Ok(if more == 0 { Some(got) } else { None })
}

// The same, where one line says what went wrong.
fn load(rt: &HostRuntime, place: usize, bytes: &mut [u8]) -> Result<Option<usize>, Stop>
    ensures { IfErr result (StopsWith End.File) }
{
    match contents(rt, place, bytes) {
        Ok(loaded) => Ok(loaded),
        Err(wrong) => unread(rt, place, wrong),
    }
}

// Reads an image.
pub fn load_image(rt: &HostRuntime, place: usize, rows: &mut [u32; 4096]) -> Result<(), Stop>
    ensures image { spec.Image result rows.new }
    ensures stop { IfErr result (StopsWith End.File) }
{
    let mut bytes = [0u8; 16384];
    match load(rt, place, &mut bytes)? {
        Some(16384) => {
            *rows = rows_of(&bytes);
            Ok(())
        }
        Some(n) => refused(
            rt,
            place,
            format_args!("an image has 16384 bytes, and this file {n}"),
        ),
        None => refused(rt, place, "an image has 16384 bytes, and this file more"),
    }
}

// Reads a job. One byte more than the longest has is room enough: whatever is longer is malformed, and so are its first 3,080 bytes.
pub fn load_job<'a>(
    rt: &HostRuntime,
    place: usize,
    job: &'a mut [u8; 3080],
) -> Result<&'a [u8], Stop>
    ensures within { IfOk result (λ own. length own.now ≤ 3080) }
    ensures stop { IfErr result (StopsWith End.File) }
{
    let n = load(rt, place, job)?.unwrap_or(3080);
    Ok(&job[..n.min(3080)])
}

// Reads a text.
pub fn load_text<'a>(
    rt: &HostRuntime,
    place: usize,
    text: &'a mut [u8; 65536],
) -> Result<&'a [u8], Stop>
    ensures within { IfOk result (λ own. length own.now ≤ 65536) }
    ensures stop { IfErr result (StopsWith End.File) }
{
    match load(rt, place, text)? {
        Some(n) => Ok(&text[..n.min(65536)]),
        None => refused(
            rt,
            place,
            "a text has at most 65536 bytes, and this file more",
        ),
    }
}

// Reads what has come of standard input, and waits where nothing has. At its end that is nothing.
pub fn read_input<'a>(rt: &HostRuntime, piece: &'a mut [u8; 4096]) -> Result<&'a [u8], Stop>
    ensures within { IfOk result (λ own. length own.now ≤ 4096) }
    ensures stop { IfErr result (StopsWith End.File) }
{
    let mut input = rt.stdin();
    match input.read(piece) {
        Ok(n) => Ok(&piece[..n]),
        Err(error) => input_unread(rt, error.into()),
    }
}
