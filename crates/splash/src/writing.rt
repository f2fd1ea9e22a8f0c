// Writing a card: the job that burns it (request 2026-12).
ghost use Rattle.std.specs.Prelude.{◌≡◌, length};
ghost use Rattle.answer.specs.Refusals.{number_of};
ghost use Rattle.form.specs.Writing.{with_entry, with_job};
ghost use Rattle.splash.specs.Writing as spec;

use crate::cards::{Card, known_version};
use answer::answers::{Answer, told};
use answer::refusals::Refusal;
use form::entries::Entry;
use form::writing::{put_entry, put_head};

// How many entries the job of a card has.
#[tactic(auto, unfolding(crate::specs::Writing::card_entries))]
fn entry_count(card: Card) -> u32
    ensures { result ≡ length (spec.card_entries card) }
{
    if card.version == 2 {
        return 6;
    }
    5
}

// How many bytes it has.
#[tactic(auto, unfolding(crate::specs::Writing::card_entries))]
fn card_bytes(card: Card) -> u32
    ensures { result ≡ spec.card_bytes card }
{
    7 + 6 * entry_count(card)
}

// Whether a card may be written into so many bytes of room.
fn check_card(card: Card, room: usize) -> Result<(), Refusal>
    ensures { number_of result ≡ spec.write_number card room }
{
    if !known_version(card.version) {
        return Err(Refusal::NoSuchVersion);
    }
    if !card.in_range() {
        return Err(Refusal::OutOfRange);
    }
    if room < card_bytes(card) as usize {
        return Err(Refusal::NoRoom);
    }
    Ok(())
}

// Puts the ECC entry of one of the card's rows.
fn put_value(area: &mut [u8], i: u32, row: u32, value: u32)
    ensures { area.new ≡ with_entry area.old i (spec.ecc_entry row value) }
{
    put_entry(
        area,
        i,
        Entry {
            row,
            kind: 0,
            value,
        },
    )
}

// Puts the job of a card, a line for each row: a loop over the six, which stops at five for version 1, is no plainer.
fn put_card(area: &mut [u8], card: Card)
    ensures { area.new ≡ with_job area.old 1 (spec.card_entries card) }
{
    put_head(area, 1, entry_count(card));
    put_value(area, 0, Card::FIRST_ROW, Card::FIRST_MARK);
    put_value(area, 1, Card::SECOND_ROW, Card::SECOND_MARK);
    put_value(area, 2, Card::VERSION_ROW, card.version);
    put_value(area, 3, Card::WIDTH_ROW, card.width);
    put_value(area, 4, Card::HEIGHT_ROW, card.height);
    if card.version == 2 {
        put_value(area, 5, Card::LINE_ROW, card.line);
    }
}

// The four numbers come as C's call takes them, and any may come: `Card::of` makes a card of them.
// Writes a card: makes the job that burns it. Its length is the value.
pub fn write_card(area: &mut [u8], version: u32, width: u32, height: u32, line: u32) -> Answer
    ensures { (result ≡ (spec.write_card area.old version width height line).answer)
        × (area.new ≡ (spec.write_card area.old version width height line).area) }
{
    let card = Card::of(version, width, height, line);
    match check_card(card, area.len()) {
        Ok(()) => {
            put_card(area, card);
            told(card_bytes(card))
        }
        Err(refusal) => refusal.into(),
    }
}
