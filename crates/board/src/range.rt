// The rows that a command goes over: those between two that its words name, or those that hold bits.
ghost use Rattle.std.specs.Prelude.{◌≡◌, ◌≤◌, IfErr, MatchResult};
ghost use Rattle.console.specs.Ends.{StopsWith};
ghost use Rattle.board.specs.Ranges as spec;

use chip::pages::Page;
use console::ended::{End, Stop};
use console::options::Words;
use console::usage;

// The rows from `first` on, as far as the one before `past`; where `held`, only those of them that hold bits.
#[derive(Clone, Copy, Debug, PartialEq, Eq)]
pub struct Range {
    pub first: u32,
    pub past: u32,
    pub held: bool,
}

// The rows before one that hold bits.
pub fn held_before(past: u32) -> Range
    ensures { result ≡ spec.held_before past }
{
    Range {
        first: 0,
        past,
        held: true,
    }
}

// All rows from one to another.
fn between(first: u32, last: u32) -> Range
    requires { last ≤ 4095 }
    ensures { result ≡ spec.between first last }
{
    Range {
        first,
        past: last + 1,
        held: false,
    }
}

// The row that the word at a place names.
fn row_at(rt: &HostRuntime, place: usize) -> Result<u32, Stop>
    ensures { MatchResult result (λ row. row ≤ 4095) (StopsWith End.Usage) }
{
    let row = usage::number(rt, place)?;
    if Page::LAST_ROW < row {
        return usage::wrong(rt, place, "no such row; the rows are 0 to 4095, 0xfff");
    }
    Ok(row)
}

// From the row that the second word names to the one that the third names, or the one row alone.
pub fn named(rt: &HostRuntime, words: Words) -> Result<Range, Stop>
    ensures named { spec.Named result }
    ensures stop { IfErr result (StopsWith End.Usage) }
{
    let first = row_at(rt, usage::needed(rt, words.second)?)?;
    let Some(place) = words.third else {
        return Ok(between(first, first));
    };
    let last = row_at(rt, place)?;
    if last < first {
        return usage::wrong(rt, place, "it comes before the first row asked for");
    }
    Ok(between(first, last))
}

// The same, where one row alone is not asked for: both words or none.
pub fn from_first_to_last(rt: &HostRuntime, words: Words) -> Result<Range, Stop>
    ensures named { spec.Named result }
    ensures stop { IfErr result (StopsWith End.Usage) }
{
    if words.third.is_none() {
        let place = usage::needed(rt, words.second)?;
        return usage::wrong(rt, place, "FIRST and LAST go together, and LAST is missing");
    }
    named(rt, words)
}
