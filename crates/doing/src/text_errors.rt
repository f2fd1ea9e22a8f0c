// One line on a text that gives no job: the line's number, its word, and what is wrong with it. With it the command has ended.
ghost use Rattle.std.specs.Prelude.{IsErrAnd};
ghost use Rattle.console.specs.Ends.{StopsWith};

use console::ended::{End, Stop};
use console::text_errors::{NO_NUMBER, at};
use form::faults::{Fault, MOST_ENTRIES};
use screen::say_line;
use text::entries::Why;
use text::reading::Reading;

const KIND: &str = "a kind is ecc or raw";

// What is wrong with a word that the text says.
pub(crate) fn reason(why: Why) -> &'static str {
    match why {
        Why::Missing => "a line has a row, a kind and a value",
        Why::Extra => "a line has a row, a kind and a value; a comment begins with #",
        Why::Number => NO_NUMBER,
        Why::Kind => KIND,
        Why::RawValue => "a raw value is at most 16,777,215, 0xffffff",
        Why::Version => "a version line is 'version 1' or 'version 2'",
        Why::NotFirst => "a version line stands once, before all entries",
    }
}

// What the library finds wrong: at which entry, with which of its words, and why.
#[derive(Clone, Copy)]
pub(crate) struct Found {
    pub entry: u32,
    pub word: u32,
    pub why: &'static str,
}

impl From<Fault> for Found {
    // Of the faults of a head only the count is one that a text can give.
    fn from(fault: Fault) -> Found {
        let (entry, word, why) = match fault {
            Fault::Kind(entry) => (entry, 1, KIND),
            Fault::Value(entry) => (entry, 2, "an ECC value is at most 65,535, 0xffff"),
            Fault::High(entry) => (entry, 0, "a version 1 job's rows end at 0xf3f"),
            Fault::Kept(entry) => (
                entry,
                0,
                "data rows end at 0xf3f, and lock rows begin at 0xf80",
            ),
            Fault::Past(entry) => (entry, 0, "lock rows end at 0xfff"),
            Fault::Coded(entry) => (entry, 1, "an entry of a lock row is raw"),
            Fault::Late(entry) => (entry, 0, "a data row comes before all lock rows"),
            Fault::Order(entry) => (entry, 0, "it is not above the row before it"),
            _ => (MOST_ENTRIES, 0, "a job has at most 512 entries"),
        };
        Found { entry, word, why }
    }
}

// "otp: 'card.txt': line 3: '0x0c0': it is not above the row before it"
pub(crate) fn line<T>(
    rt: &HostRuntime,
    place: usize,
    text: &[u8],
    reading: Reading,
    n: u32,
    why: &str,
) -> Result<T, Stop>
    ensures { IsErrAnd result (StopsWith End.File) }
{
    at(rt, place, text, reading.line, reading.start, n);
    say_line!(rt; "{why}");
    Err(Stop(End::File))
}
