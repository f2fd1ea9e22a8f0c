// Reset, and what it latches of the rows (document 01, "Locks" and "Keys"; request 2026-07).
ghost use Rattle.std.specs.Prelude.{◌≡◌, ◌+◌, ◌<◌, ◌≤◌, ◌^◌, length, sum_by, IfOk};
ghost use Rattle.answer.specs.Refusals.{number_of};
ghost use Rattle.chip.specs.Lists.{listed};
ghost use Rattle.row.specs.Code.{set_bits};
ghost use Rattle.chip.specs.Tallies.{page_rows, bits_of, tallies_of};
ghost use Rattle.latch.specs.Resetting as spec;

use crate::locks::{level_of, voted_byte};
use answer::answers::{Answer, done};
use answer::refusals::Refusal;
use chip::pages::Page;
use chip::slices::MOST_HELD;
use chip::state::{Key, Outcome, State, Tallies, refusal};
use decode::reading::read_row;
use row::coding::set_bits;
use std::array;

// The rows of a whole chip.
type Chip = [u32; Page::CHIP_ROWS];

// Whether no entry is above 16,777,215.
pub fn all_in_range(rows: &[u32]) -> bool
    ensures { result ≡ spec.all_in_range rows.now }
{
    rows.iter().all(|row| *row <= MOST_HELD)
}

// The fields of one lock word.
#[derive(Clone, Copy)]
struct LockWord {
    secure: u8,
    nonsecure: u8,
    bootloader: u8,
    writekey: u8,
    readkey: u8,
    nokey: bool,
}

// The fields of a lock word's two rows.
fn lock_word(low_row: u32, high_row: u32) -> LockWord
    ensures { result ≡ spec.lock_word low_row high_row }
{
    let low = voted_byte(low_row);
    let high = voted_byte(high_row);
    LockWord {
        secure: level_of(high % 4),
        nonsecure: level_of(high / 4 % 4),
        bootloader: level_of(high / 16 % 4),
        writekey: (low % 8) as u8,
        readkey: (low / 8 % 8) as u8,
        nokey: low / 64 % 2 == 1,
    }
}

// The lock word of a page.
fn lock_word_of(rows: &Chip, at: usize) -> LockWord
    requires { at < 64 }
    ensures { result ≡ spec.lock_word_of rows.now at }
{
    let page = Page { number: at as u8 };
    let low = page.low_lock_row() as usize;
    let high = page.high_lock_row() as usize;
    lock_word(rows[low], rows[high])
}

// What reset latches of key k.
fn latched_key(rows: &Chip, k: u32) -> Key
    requires { (1 ≤ k) × (k ≤ 6) }
    ensures { result ≡ spec.latched_key rows.now k }
{
    let first = (Page::FIRST_KEY_ROW + 8 * (k - 1)) as usize;
    let flag = rows[(Page::PAST_KEY_ROWS + k) as usize];
    let read: [Answer; 8] = array::from_fn(|i| read_row(rows[first + i]));
    Key {
        words: array::from_fn(|i| (read[i].value % 65536) as u16),
        valid: voted_byte(flag) % 2 == 1,
        whole: read.iter().all(|answer| answer.number == 0),
    }
}

// The six keys.
fn six_keys(rows: &Chip) -> [Key; 6]
    ensures { result ≡ listed 6 (λ i. spec.latched_key rows.now (i + 1)) }
{
    array::from_fn(|i| latched_key(rows, (i + 1) as u32))
}

// The set bits of some rows.
fn set_bits_of(rows: &[u32]) -> u32
    requires { sum_by set_bits rows.now < 2 ^ 32 }
    ensures { result ≡ sum_by set_bits rows.now }
{
    rows.iter().map(|row| set_bits(*row)).sum()
}

// The set bits of a page's rows.
fn page_bits(rows: &Chip, page: Page) -> u16
    requires { page.number < 64 }
    ensures { result ≡ bits_of (page_rows rows.now page.number) }
{
    let first = page.first_row() as usize;
    let past = first + Page::ROWS as usize;
    set_bits_of(&rows[first..past]) as u16
}

// The set bits of each page's rows.
fn tallies_of(rows: &Chip) -> Tallies
    ensures { result ≡ tallies_of rows.now }
{
    array::from_fn(|page| page_bits(rows, Page { number: page as u8 }))
}

// All that reset latches. The entered key is cleared, and the tallies are filled. Each field of the lock words is read by itself: an array of
// all 64 words would stand on the stack beside the state.
fn latched(rows: &Chip) -> State
    ensures { result ≡ spec.latched rows.now }
{
    State {
        secure: array::from_fn(|page| lock_word_of(rows, page).secure),
        nonsecure: array::from_fn(|page| lock_word_of(rows, page).nonsecure),
        bootloader: array::from_fn(|page| lock_word_of(rows, page).bootloader),
        writekey: array::from_fn(|page| lock_word_of(rows, page).writekey),
        readkey: array::from_fn(|page| lock_word_of(rows, page).readkey),
        nokey: array::from_fn(|page| lock_word_of(rows, page).nokey),
        keys: six_keys(rows),
        entered: [0; 8],
        tallies: tallies_of(rows),
    }
}

// The rows of a whole chip, of which no entry is above 16,777,215.
fn chip_of(rows: &[u32]) -> Result<&Chip, Refusal>
    ensures number { number_of result ≡ spec.reset_number rows.now }
    ensures same { IfOk result (λ chip. chip.now ≡ rows.now) }
{
    let chip: &Chip = rows.as_array().ok_or(Refusal::NotWhole)?;
    if !all_in_range(rows) {
        return Err(Refusal::TooLarge);
    }
    Ok(chip)
}

// Latches what the rows hold.
#[tactic(auto, unfolding(crate::specs::Resetting::reset))]
pub fn reset(rows: &[u32], state: State) -> Outcome
    ensures { result ≡ spec.reset rows.now state }
{
    // Not by an outcome in each arm: by that one state more stood on the stack.
    let chip = match chip_of(rows) {
        Ok(chip) => chip,
        Err(refused) => return refusal(refused.number(), state),
    };
    let answer = done();
    let state = latched(chip);
    Outcome { answer, state }
}
