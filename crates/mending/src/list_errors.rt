// One line on a text that gives no list of rows: the line's number, its word, and what is wrong with it. With it the command has ended.
ghost use Rattle.std.specs.Prelude.{IsErrAnd};
ghost use Rattle.console.specs.Ends.{StopsWith};

use console::ended::{End, Stop};
use console::text_errors::{NO_NUMBER, at};
use screen::say_line;
use text::entries::Why;
use text::reading::Wrong;

// A line of a list has one word: it spells no row, or another follows it.
fn reason(why: Why) -> &'static str {
    match why {
        Why::Number => NO_NUMBER,
        _ => "a line has a row alone; a comment begins with #",
    }
}

// "otp: 'rows.txt': line 3: 'ecc': a line has a row alone; a comment begins with #"
pub(crate) fn line<T>(rt: &HostRuntime, place: usize, text: &[u8], wrong: Wrong) -> Result<T, Stop>
    ensures { IsErrAnd result (StopsWith End.File) }
{
    let Wrong { reading, word, why } = wrong;
    at(rt, place, text, reading.line, reading.start, word);
    say_line!(rt; "{}", reason(why));
    Err(Stop(End::File))
}
