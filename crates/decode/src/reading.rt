// Reading a row with ECC (document 01, "A row with ECC").
ghost use Rattle.std.specs.Prelude.{◌≡◌, ◌%◌, ◌^◌};
ghost use Rattle.decode.specs.Reading as spec;

use answer::answers::{Answer, Condition, Polarity, found_in};
use answer::refusals::Refusal;
use row::coding::{code, flipped};

// What bits 21:0 hold: a value, and the place of the bit that was repaired.
#[derive(Clone, Copy)]
struct Held {
    value: u32,
    repaired: Option<u32>,
}

// Whether bits 23 and 22 are both set.
fn both_set(row: u32) -> bool
    ensures { result ≡ spec.both_set row }
{
    (row >> 22) % 4 == 3
}

// The row with its polarity taken off.
fn upright(row: u32) -> u32
    ensures { result ≡ spec.upright row }
{
    if both_set(row) { flipped(row) } else { row }
}

// What bits 21:0 hold: the value whose code differs from them in at most one place. The syndrome, which is where the check bits differ from
// those of the data, names that place: the flip of each of the 22 makes another.
fn decoded(bits: u32) -> Result<Held, Refusal>
    ensures { spec.held_by result ≡ spec.decoded (bits % 2 ^ 22) }
{
    let own = bits % 4194304;
    let value = own % 65536;
    let syndrome = ((own ^ code(value as u16)) >> 16) % 64;
    if syndrome == 0 {
        let repaired = None;
        return Ok(Held { value, repaired });
    }
    let place = match syndrome {
        0x23 => 0,
        0x25 => 1,
        0x26 => 2,
        0x07 => 3,
        0x29 => 4,
        0x2a => 5,
        0x0b => 6,
        0x2c => 7,
        0x0d => 8,
        0x0e => 9,
        0x2f => 10,
        0x31 => 11,
        0x32 => 12,
        0x13 => 13,
        0x34 => 14,
        0x15 => 15,
        0x01 => 16,
        0x02 => 17,
        0x04 => 18,
        0x08 => 19,
        0x10 => 20,
        0x20 => 21,
        _ => return Err(Refusal::NotDecoded),
    };
    let value = (own ^ (1 << place)) % 65536;
    let repaired = Some(place);
    Ok(Held { value, repaired })
}

// Which polarity a row is in.
fn polarity_of(row: u32) -> Polarity
    ensures { result ≡ spec.polarity_of row }
{
    if both_set(row) {
        Polarity::Inverted
    } else {
        Polarity::Plain
    }
}

// Whether bits 23 and 22 disagree.
fn disagree(row: u32) -> bool
    ensures { result ≡ spec.disagree row }
{
    (row >> 23) % 2 != (row >> 22) % 2
}

// What is said of a row that holds this: its polarity, whether a bit was repaired, and flag worn where bits 23 and 22 disagree.
fn said_of(row: u32, held: Held) -> Answer
    ensures { result ≡ spec.said_of row (spec.held_as held) }
{
    let polarity = polarity_of(row);
    let condition = match (disagree(row), held.repaired) {
        (false, None) => Condition::Clean,
        (false, Some(bit)) => Condition::Repaired(bit),
        (true, None) => Condition::FlagWorn,
        (true, Some(bit)) => Condition::FlagWornRepaired(bit),
    };
    found_in(polarity, held.value, condition)
}

// A row read with ECC. A refusal says neither polarity nor wear. It answers as a call does, by a number: so its definition says it, on which
// reads, reset and repair rest.
pub fn read_row(row: u32) -> Answer
    ensures { result ≡ spec.read_row row }
{
    match decoded(upright(row)) {
        Ok(held) => said_of(row, held),
        Err(refusal) => refusal.into(),
    }
}
