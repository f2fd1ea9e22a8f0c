// What a program says on standard output. What that does not take, since it is full, closed, or a pipe whose reader has ended, is passed over in
// silence: whether anyone reads along changes nothing of what a program does.
use std::fmt;
use std::fmt::{Display, Formatter};

// Bytes as they are, which need be no text.
pub fn said_bytes(rt: &HostRuntime, bytes: &[u8]) {
    let _ = rt.write_all(bytes);
}

// Each piece of a format is written by itself, so that a pipe that is nearly full still takes those that it has room for.
#[derive(Drop)]
struct Pieces<'a>(&'a HostRuntime);

impl fmt::Write for Pieces<'_> {
    fn write_str(&mut self, piece: &str) -> fmt::Result {
        said_bytes(self.0, piece.as_bytes());
        Ok(())
    }
}

pub fn said<D: Display + Drop>(rt: &HostRuntime, value: D) {
    let _ = Formatter::new(Pieces(rt)).write(&value);
}

// `say!(rt; "{row}  ")` says a part of a line.
#[macro_export]
macro_rules! say {
    ($rt:expr; $($arg:tt)+) => {{
        $crate::saying::said($rt, format_args!($($arg)+))
    }};
}

// `say_line!(rt; "{row}  {bits}")` says a line, or what is left of one.
#[macro_export]
macro_rules! say_line {
    ($rt:expr; $($arg:tt)+) => {{
        $crate::saying::said($rt, format_args_nl!($($arg)+))
    }};
}
