// Keys: matching the entered one, the key level of a page, and the rows that are hidden (document 01, "Keys").
ghost use Rattle.std.specs.Prelude.{◌≡◌, map, fold, bit_or, bit_xor};
ghost use Rattle.std.specs.List.{zip};
ghost use Rattle.permit.specs.Keys as spec;
ghost use Rattle.chip.specs.Lists.{same as same_lists};

use chip::pages::Page;
use chip::state::{State, Words, counted_index, counted_no_key};

// The bits in which some words differ, put together.
fn differing(a: &[u16], b: &[u16]) -> u16
    ensures { result ≡ fold (λ bits word. bit_or bits word) 0 (map (λ pair. bit_xor pair.0 pair.1) (zip a.now b.now)) }
{
    a.iter()
        .zip(b)
        .map(|(one, other)| *one ^ *other)
        .fold(0, |bits, word| bits | word)
}

// Whether two keys have the same words. All eight are compared before the one test, wherever they differ: a test at each word would tell by
// its time how much of a key is right.
fn same(a: Words, b: Words) -> bool
    ensures { result ≡ same_lists a b }
{
    differing(&a, &b) == 0
}

// Whether the key of an index matches the entered one, by one test of all that is secret of it.
#[tactic(auto, unfolding(crate::specs::Keys::matches))]
pub fn matches(state: State, index: u32) -> bool
    ensures { result ≡ spec.matches state index }
{
    if !(1..=6).contains(&index) {
        return false;
    }
    let keys = state.keys;
    let key = keys[(index - 1) as usize];
    if !key.valid {
        return false;
    }
    let entered = state.entered;
    let equal = same(key.words, entered);
    let none = same(entered, [0; 8]);
    key.whole & equal & !none
}

// A level stays a number: levels are compared by size, and a state from C may hold any byte.
// The key level of a page. Level 1 is one path, whether the read key gives it or the no-key state.
#[tactic(auto, unfolding(crate::specs::Keys::key_level))]
pub fn key_level(state: State, page: Page) -> u32
    ensures { result ≡ spec.key_level state page.number }
{
    let writekeys = state.writekey;
    let readkeys = state.readkey;
    let nokeys = state.nokey;
    let writekey = counted_index(writekeys, page);
    let readkey = counted_index(readkeys, page);
    if writekey == 0 && readkey == 0 {
        return 0;
    }
    if matches(state, writekey) {
        return 0;
    }
    let by_read_key = matches(state, readkey);
    let closed = counted_no_key(nokeys, page);
    if by_read_key | !closed { 1 } else { 2 }
}

// Whether a row is one of a latched valid key.
#[tactic(auto, unfolding(crate::specs::Keys::hidden))]
pub fn hidden(state: State, row: u32) -> bool
    ensures { result ≡ spec.hidden state row }
{
    if !(Page::FIRST_KEY_ROW..Page::PAST_KEY_ROWS).contains(&row) {
        return false;
    }
    let keys = state.keys;
    keys[((row - Page::FIRST_KEY_ROW) / 8) as usize].valid
}
