// An entry of a job as a person types it: a row, a kind and a value, as `0x0c0 ecc 320` or `0x0c1 raw 0x000003`.
ghost use Rattle.std.specs.Prelude.{◌≡◌};
ghost use Rattle.chip.specs.Lists.{same};
ghost use Rattle.text.specs.Lines as spec;
ghost use Rattle.text.specs.Said.{entry_said};
ghost use Rattle.typed.specs.Words.{word_of};

use form::entries::Entry;
use typed::numbers;
use typed::words::word;

// Why a word of a text is wrong.
#[derive(Clone, Copy, Debug, PartialEq, Eq)]
pub enum Why {
    Missing,
    Extra,
    Number,
    Kind,
    RawValue,
    Version,
    NotFirst,
}

// A word of a line, counted from 0, that is wrong.
#[derive(Clone, Copy, Debug, PartialEq, Eq)]
pub struct WrongWord {
    pub word: u32,
    pub why: Why,
}

pub(crate) fn wrong<T>(word: u32, why: Why) -> Result<T, WrongWord>
    ensures { result ≡ Err (record { word = word; why = why }) }
{
    Err(WrongWord { word, why })
}

// Whether a line has a word, counted from 0.
#[tactic(auto, using(typed::proofs::Finding::word_some))]
pub fn has(line: &[u8], n: u32) -> bool
    ensures { result ≡ spec.has_word line.now n }
{
    !word(line, n).is_empty()
}

// The number that a word spells.
pub(crate) fn number(line: &[u8], n: u32) -> Option<u32>
    ensures { result ≡ spec.number_at line.now n }
{
    numbers::of_text(word(line, n))
}

// Whether a word is the one named.
#[tactic(auto, using(chip::proofs::Same::same_as))]
pub fn is(line: &[u8], n: u32, name: &[u8]) -> bool
    ensures { result ≡ same (word_of line.now n) name.now }
{
    word(line, n) == name
}

// Whether a raw value has no room in an entry.
fn is_cut(kind: u32, value: u32) -> bool
    ensures { result ≡ spec.is_cut kind value }
{
    kind == 1 && 0xffffff < value
}

// An entry has no room for a row above 16 bits, nor for a value above 24. The largest that fits stands for it, which the library
// refuses for the same reason; only of a raw value it would not.
#[tactic(auto, unfolding(crate::specs::Lines::entry_of))]
fn entry(row: u32, kind: u32, value: u32) -> Result<Option<Entry>, WrongWord>
    ensures { entry_said result ≡ spec.entry_of row kind value }
{
    if is_cut(kind, value) {
        return wrong(2, Why::RawValue);
    }
    Ok(Some(Entry {
        row: row.min(0xffff),
        kind,
        value: value.min(0xffffff),
    }))
}

fn with_value(line: &[u8], row: u32, kind: u32) -> Result<Option<Entry>, WrongWord>
    ensures { entry_said result ≡ spec.with_value row kind (spec.number_at line.now 2) }
{
    match number(line, 2) {
        Some(value) => entry(row, kind, value),
        None => wrong(2, Why::Number),
    }
}

#[tactic(auto, unfolding(crate::specs::Lines::with_kind))]
fn with_kind(line: &[u8], row: u32) -> Result<Option<Entry>, WrongWord>
    ensures { entry_said result ≡ spec.with_kind line.now row }
{
    // There are two, and a word is bytes that need not be UTF-8: a `match` is no plainer.
    if is(line, 1, b"ecc") {
        return with_value(line, row, 0);
    }
    if is(line, 1, b"raw") {
        return with_value(line, row, 1);
    }
    wrong(1, Why::Kind)
}

fn with_row(line: &[u8]) -> Result<Option<Entry>, WrongWord>
    ensures { entry_said result ≡ spec.with_row line.now (spec.number_at line.now 0) }
{
    match number(line, 0) {
        Some(row) => with_kind(line, row),
        None => wrong(0, Why::Number),
    }
}

// What a line says: nothing, or an entry.
#[tactic(auto, unfolding(crate::specs::Lines::line_of))]
pub fn read(line: &[u8]) -> Result<Option<Entry>, WrongWord>
    ensures { entry_said result ≡ spec.line_of line.now }
{
    if !has(line, 0) {
        return Ok(None);
    }
    if !has(line, 1) {
        return wrong(0, Why::Missing);
    }
    if !has(line, 2) {
        return wrong(1, Why::Missing);
    }
    if has(line, 3) {
        return wrong(3, Why::Extra);
    }
    with_row(line)
}
