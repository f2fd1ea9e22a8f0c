// How a command ends: by its last line, since a program has no exit status of its own. The script ./otp cuts that line off and goes by it.
use std::fmt;

// `Answered` has the number that the library answered with. `Different`: two images differ. `Usage`: a word is not what it must be. `File`: a
// file is not what it must be, or the system refuses it.
#[derive(Clone, Copy, Debug, PartialEq, Eq)]
pub enum End {
    Answered(u32),
    Different,
    Usage,
    File,
}

impl fmt::Display for End {
    fn fmt<W: fmt::Write>(&self, f: &mut fmt::Formatter<W>) -> fmt::Result {
        match *self {
            End::Answered(number) => write!(f, "={number}"),
            End::Different => write!(f, "=different"),
            End::Usage => write!(f, "=usage"),
            End::File => write!(f, "=file"),
        }
    }
}

// Why a command goes no further: it has ended, and what it had to say is said.
#[derive(Clone, Copy)]
pub struct Stop(pub End);
