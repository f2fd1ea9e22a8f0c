// One line on a file that is not what it must be, or that the system refuses, and on standard input.
ghost use Rattle.std.specs.Prelude.{IsErrAnd};
ghost use Rattle.console.specs.Ends.{StopsWith};

use crate::ended::{End, Stop};
use crate::word;
use screen::{say, say_line};
use std::env::FillError;
use std::{fmt, io, str};

// The numbers of the system's errors, as C has them: those that a line of the console tells apart. The kinds of std::io tell too few apart.
const ENOENT: i32 = 2;

const EIO: i32 = 5;

const EBADF: i32 = 9;

const EACCES: i32 = 13;

const EEXIST: i32 = 17;

const ENOTDIR: i32 = 20;

const EISDIR: i32 = 21;

const ENOSPC: i32 = 28;

const ENAMETOOLONG: i32 = 36;

const EILSEQ: i32 = 84;

// What is wrong with a file, as `Display` has it in words. `NoFolder` is a part of its path, `PartThere` its temporary file, and `NoText` its name.
#[derive(Clone, Copy, Debug, PartialEq, Eq)]
pub enum Wrong {
    NotThere,
    NotPermitted,
    Folder,
    NameTooLong,
    NoFolder,
    PartThere,
    DiskFull,
    NotOpen,
    Device,
    NoText,
    Refused,
}

impl From<io::Error> for Wrong {
    // A write that takes nothing has no number.
    fn from(error: io::Error) -> Wrong {
        match error.raw_os_error() {
            None | Some(0 | EIO) => Wrong::Device,
            Some(ENOENT) => Wrong::NotThere,
            Some(EBADF) => Wrong::NotOpen,
            Some(EACCES) => Wrong::NotPermitted,
            Some(EEXIST) => Wrong::PartThere,
            Some(ENOTDIR) => Wrong::NoFolder,
            Some(EISDIR) => Wrong::Folder,
            Some(ENOSPC) => Wrong::DiskFull,
            Some(ENAMETOOLONG) => Wrong::NameTooLong,
            Some(EILSEQ) => Wrong::NoText,
            Some(_) => Wrong::Refused,
        }
    }
}

// A word that is not there names no file, and one that is longer than its room is longer than any path.
impl From<FillError> for Wrong {
    fn from(error: FillError) -> Wrong {
        match error {
            FillError::NotPresent => Wrong::Refused,
            FillError::TooLong => Wrong::NameTooLong,
        }
    }
}

impl fmt::Display for Wrong {
    fn fmt<W: fmt::Write>(&self, f: &mut fmt::Formatter<W>) -> fmt::Result {
        f.write_str(match *self {
            Wrong::NotThere => "no such file or folder",
            Wrong::NotPermitted => "no permission",
            Wrong::Folder => "it is a folder",
            Wrong::NameTooLong => "its name is too long",
            Wrong::NoFolder => "a part of its path is no folder",
            Wrong::PartThere => "its .part file is in the way, from a run that was stopped",
            Wrong::DiskFull => "the disk is full",
            Wrong::NotOpen => "it is not open for reading",
            Wrong::Device => "the device failed, or is gone",
            Wrong::NoText => "its name is no UTF-8 text",
            Wrong::Refused => "the system refuses it",
        })
    }
}

// The name of a file that some bytes are. The library names files in UTF-8 alone: another name cannot be asked for.
pub(crate) fn named(bytes: &[u8]) -> Result<&str, Wrong> {
    str::from_utf8(bytes).map_err(|_| Wrong::NoText)
}

// The beginning of a line on the file at a place: "otp: 'card.img': ".
pub fn said(rt: &HostRuntime, place: usize) {
    say!(rt; "otp: '");
    word::print(rt, place);
    say!(rt; "': ");
}

// One line on the file at a place, which ends the command.
pub fn refused<T>(rt: &HostRuntime, place: usize, what: impl fmt::Display + Drop) -> Result<T, Stop>
    ensures { IsErrAnd result (StopsWith End.File) }
{
    said(rt, place);
    say_line!(rt; "{what}");
    Err(Stop(End::File))
}

// The command has ended, since the file at a place cannot be read.
pub fn unread<T>(rt: &HostRuntime, place: usize, wrong: Wrong) -> Result<T, Stop>
    ensures { IsErrAnd result (StopsWith End.File) }
{
    refused(rt, place, format_args!("cannot be read: {wrong}"))
}

// The same of standard input.
pub fn input_unread<T>(rt: &HostRuntime, wrong: Wrong) -> Result<T, Stop>
    ensures { IsErrAnd result (StopsWith End.File) }
{
    say_line!(rt; "otp: standard input cannot be read: {wrong}");
    Err(Stop(End::File))
}

// The same of a file that cannot be written.
pub fn unwritten<T>(rt: &HostRuntime, place: usize, wrong: Wrong) -> Result<T, Stop>
    ensures { IsErrAnd result (StopsWith End.File) }
{
    refused(rt, place, format_args!("cannot be written: {wrong}"))
}
