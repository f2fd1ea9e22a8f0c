// Saving an image or a job: whole under its name, or not at all. It is written under a temporary name beside its own, and renamed at the end.
ghost use Rattle.std.specs.Prelude.{IfErr};
ghost use Rattle.console.specs.Ends.{StopsWith};

use crate::ended::{End, Stop};
use crate::file_errors::{Wrong, named, unwritten};
use crate::options::Words;
use crate::word;
use image::rows::bytes_of;
use screen::{say, say_line};
use std::fs::{File, OpenOptions};
use std::io::Write;
use std::{fmt, fs, io};

// Gives a new file its bytes, sees that they have reached the disk, and closes it. Closing tells of no error.
fn fill(mut file: File, bytes: &[u8]) -> io::Result<()> {
    file.write_all(bytes)?;
    file.sync_all()
}

// Makes a file that is not there yet.
fn created(rt: &HostRuntime, name: &str) -> io::Result<File> {
    OpenOptions::new()
        .write(true)
        .create_new(true)
        .open(rt, name)
}

fn filled_and_named(
    rt: &HostRuntime,
    file: File,
    temporary: &str,
    path: &str,
    bytes: &[u8],
) -> io::Result<()> {
    fill(file, bytes)?;
    fs::rename(rt, temporary, path)
}

// Writes the temporary file and gives it its name. Where that fails the temporary file goes.
fn write_beside(rt: &HostRuntime, path: &str, temporary: &str, bytes: &[u8]) -> io::Result<()> {
    let file = created(rt, temporary)?;
    let done = filled_and_named(rt, file, temporary, path, bytes);
    if done.is_err() {
        let _ = fs::remove_file(rt, temporary);
    }
    done
}

// Writes bytes under the name at a place. The temporary name is that with '.part' after it.
fn write(rt: &HostRuntime, place: usize, bytes: &[u8]) -> Result<(), Wrong> {
    let mut name = [0u8; 4096];
    let n = word::put(rt, place, &mut name)?;
    if n == 0 {
        return Err(Wrong::NotThere);
    }
    if 4090 < n {
        return Err(Wrong::NameTooLong);
    }
    name[n..n + 5].copy_from_slice(b".part");
    write_beside(rt, named(&name[..n])?, named(&name[..n + 5])?, bytes)?;
    Ok(())
}

// Saves bytes under the name at a place. Where it could not, one line has said so, and the command has ended.
pub fn save_bytes(rt: &HostRuntime, place: usize, bytes: &[u8]) -> Result<(), Stop>
    ensures { IfErr result (StopsWith End.File) }
{
    match write(rt, place, bytes) {
        Ok(()) => Ok(()),
        Err(wrong) => unwritten(rt, place, wrong),
    }
}

// The same of the image of rows.
pub fn save(rt: &HostRuntime, place: usize, rows: &[u32; 4096]) -> Result<(), Stop>
    ensures { IfErr result (StopsWith End.File) }
{
    save_bytes(rt, place, &bytes_of(rows))
}

// Saves the image of rows, where that is asked for.
pub fn save_asked(rt: &HostRuntime, words: Words, rows: &[u32; 4096]) -> Result<(), Stop>
    ensures { IfErr result (StopsWith End.File) }
{
    match words.save {
        Some(place) => save(rt, place, rows),
        None => Ok(()),
    }
}

// "saved as cut.img", where that was asked for.
pub fn saved_line(rt: &HostRuntime, words: Words) {
    let Some(place) = words.save else {
        return;
    };
    say!(rt; "saved as ");
    word::print(rt, place);
    say_line!(rt; "");
}

// How many entries a job has that is written: "1 entry", "5 entries".
#[derive(Clone, Copy)]
pub struct Entries(pub u32);

impl fmt::Display for Entries {
    fn fmt<W: fmt::Write>(&self, f: &mut fmt::Formatter<W>) -> fmt::Result {
        match self.0 {
            1 => write!(f, "1 entry"),
            count => write!(f, "{count} entries"),
        }
    }
}

// "5 entries, written as card.job"
pub fn written_line(rt: &HostRuntime, what: impl fmt::Display + Drop, place: usize) {
    say!(rt; "{what}, written as ");
    word::print(rt, place);
    say_line!(rt; "");
}
