// The line of a text that says the version of its job, `version 1` or `version 2`, before all entries.
ghost use Rattle.std.specs.Prelude.{◌≡◌};
ghost use Rattle.text.specs.Said.{line_said};
ghost use Rattle.text.specs.Versions as spec;

use crate::entries;
use crate::entries::{Why, WrongWord, has, is, wrong};
use form::entries::Entry;

// What a line of a job's text says, where it says anything.
#[derive(Clone, Copy, Debug, PartialEq, Eq)]
pub enum Said {
    Version(u32),
    Entry(Entry),
}

// The version that the second word names.
#[tactic(auto, unfolding(crate::specs::Versions::version_named))]
fn named(line: &[u8]) -> Result<Option<Said>, WrongWord>
    ensures { line_said result ≡ spec.version_named line.now }
{
    // As for a kind: a `match` is no plainer.
    if is(line, 1, b"1") {
        return Ok(Some(Said::Version(1)));
    }
    if is(line, 1, b"2") {
        return Ok(Some(Said::Version(2)));
    }
    wrong(1, Why::Version)
}

// What a line says, which is the first that says anything or a later one.
#[tactic(auto, unfolding(crate::specs::Versions::said_by))]
pub fn read(line: &[u8], first: bool) -> Result<Option<Said>, WrongWord>
    ensures { line_said result ≡ spec.said_by first line.now }
{
    if !is(line, 0, b"version") {
        return Ok(entries::read(line)?.map(Said::Entry));
    }
    if !first {
        return wrong(0, Why::NotFirst);
    }
    if !has(line, 1) {
        return wrong(0, Why::Version);
    }
    if has(line, 2) {
        return wrong(2, Why::Version);
    }
    named(line)
}
