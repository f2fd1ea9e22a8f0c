// The latched state, which goes in by value and comes back by value, and what is counted of it (document 01).
ghost use Rattle.std.specs.Prelude.{◌≡◌, get_or};
ghost use Rattle.chip.specs.States as spec;

use crate::pages::Page;
use answer::answers::{Answer, refused};

// A level, a key index, a flag and a tally of each page; the words of a key.
pub type Levels = [u8; Page::COUNT];

pub type Indexes = [u8; Page::COUNT];

pub type Flags = [bool; Page::COUNT];

pub type Words = [u16; 8];

pub type Tallies = [u16; Page::COUNT];

// A key as reset latched it: its words, its valid flag, and whether all its rows decoded.
#[repr(C)]
#[derive(Clone, Copy, Debug, PartialEq, Eq)]
pub struct Key {
    pub words: Words,
    pub valid: bool,
    pub whole: bool,
}

// What the hardware latches at reset, for each page and each key, the key that was entered since, and each page's bits burnt, as they stand.
// The arrays stand beside each other, and not in a struct of a page, since this is the layout of C's `otp_state`.
#[repr(C)]
#[derive(Clone, Copy, Debug, PartialEq, Eq)]
pub struct State {
    pub secure: Levels,
    pub nonsecure: Levels,
    pub bootloader: Levels,
    pub writekey: Indexes,
    pub readkey: Indexes,
    pub nokey: Flags,
    pub keys: [Key; 6],
    pub entered: Words,
    pub tallies: Tallies,
}

impl State {
    // All levels, indexes and words 0 and no flag set: for a caller who has no state yet, and whose first call is a reset.
    pub fn zeros() -> State
        ensures { result ≡ spec.zeros }
    {
        let key = Key {
            words: [0; 8],
            valid: false,
            whole: false,
        };
        State {
            secure: [0; Page::COUNT],
            nonsecure: [0; Page::COUNT],
            bootloader: [0; Page::COUNT],
            writekey: [0; Page::COUNT],
            readkey: [0; Page::COUNT],
            nokey: [false; Page::COUNT],
            keys: [key; 6],
            entered: [0; 8],
            tallies: [0; Page::COUNT],
        }
    }
}

// What a call that can change the state answers.
#[derive(Clone, Copy, Debug, PartialEq, Eq)]
pub struct Outcome {
    pub answer: Answer,
    pub state: State,
}

// The outcome of a refusal, which leaves the state as it was. By its number, as `refused` is.
pub fn refusal(number: u32, state: State) -> Outcome
    ensures { result ≡ spec.refusal number state }
{
    Outcome {
        answer: refused(number),
        state,
    }
}

// The level of a page, counted as 2 where it is above. Where there is no page, nothing is allowed.
pub fn counted_level(levels: Levels, page: Page) -> u32
    ensures { result ≡ spec.counted_level levels page.number }
{
    at_page(&levels, page, 2).min(2) as u32
}

// A key index of a page, counted as 7 where it is above.
pub fn counted_index(indexes: Indexes, page: Page) -> u32
    ensures { result ≡ spec.counted_index indexes page.number }
{
    at_page(&indexes, page, 0).min(7) as u32
}

// The no-key state of a page.
pub fn counted_no_key(nokeys: Flags, page: Page) -> bool
    ensures { result ≡ spec.counted_no_key nokeys page.number }
{
    at_page(&nokeys, page, false)
}

// What is latched of a page, or what stands where there is no page.
fn at_page<T: Copy>(latched: &[T], page: Page, none: T) -> T
    ensures { result ≡ get_or latched.now page.number none }
{
    latched.get(page.number as usize).copied().unwrap_or(none)
}
