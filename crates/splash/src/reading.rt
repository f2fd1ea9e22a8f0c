// Reading a card, as Non-secure (request 2026-12).
ghost use Rattle.std.specs.Prelude.{◌≡◌, IfOk};
ghost use Rattle.answer.specs.Refusals.{number_of};
ghost use Rattle.splash.specs.Reading as spec;

use crate::cards::{Card, is_mark, known_version};
use answer::refusals::Refusal;
use chip::callers::NONSECURE;
use chip::pages::Page;
use chip::slices::{MOST_HELD, row_at};
use chip::state::State;
use decode::reading::read_row;
use permit::permission::may_read;

// One of the card's rows, read with ECC by one who may read page 3, or may not. All six are in that page and none of them is a key's or a lock's:
// so who may read them is looked up once, and the tests of access's `check_call` that can
// answer stand here once more: 1, 7 and 3.
fn read_card_row(rows: &[u32], may: bool, row: u32) -> Result<u32, Refusal>
    ensures number { number_of result ≡ (spec.read_where rows.now may row).number }
    ensures value { IfOk result (λ value. value ≡ (spec.read_where rows.now may row).value) }
{
    let held = row_at(rows, row);
    if rows.len() != Page::CHIP_ROWS {
        return Err(Refusal::NotWhole);
    }
    if !may {
        return Err(Refusal::NotPermitted);
    }
    if MOST_HELD < held {
        return Err(Refusal::TooLarge);
    }
    let read = read_row(held);
    if read.number != 0 {
        return Err(Refusal::NotDecoded);
    }
    Ok(read.value)
}

// The row of the bytes in a line: of version 2 the sixth, and of version 1 that of the width.
fn line_row(version: u32) -> u32
    ensures { result ≡ spec.line_row version }
{
    if version == 2 {
        return Card::LINE_ROW;
    }
    Card::WIDTH_ROW
}

// Reads the card.
pub fn read_card(rows: &[u32], state: State) -> Result<Card, Refusal>
    ensures { spec.card_read result ≡ spec.read_card rows.now state }
{
    let may = may_read(state, NONSECURE, Card::FIRST_ROW);
    let first = read_card_row(rows, may, Card::FIRST_ROW)?;
    let second = read_card_row(rows, may, Card::SECOND_ROW)?;
    let version = read_card_row(rows, may, Card::VERSION_ROW)?;
    let width = read_card_row(rows, may, Card::WIDTH_ROW)?;
    let height = read_card_row(rows, may, Card::HEIGHT_ROW)?;
    if !is_mark(first, second) {
        return Err(Refusal::NoMark);
    }
    if !known_version(version) {
        return Err(Refusal::NoSuchVersion);
    }
    let line = read_card_row(rows, may, line_row(version))?;
    let card = Card {
        version,
        width,
        height,
        line,
    };
    if !card.in_range() {
        return Err(Refusal::OutOfRange);
    }
    Ok(card)
}
