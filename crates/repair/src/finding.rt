// What is found of a row that is to be repaired, and what that means for it (request 2026-11).
ghost use Rattle.std.specs.Prelude.{◌≡◌, ◌<◌};
ghost use Rattle.answer.specs.Conditions.{repaired_bit};
ghost use Rattle.repair.specs.Finding as spec;

use answer::answers::Condition;
use decode::reading::read_row;

// Clean; mended, with the bit that was lost and is burnt; worn, which no burning mends; damaged, which does not decode; or not permitted.
// The bit is a plain number, and not one below 24 by its type: the crew's command makes of any report entry what it says.
#[derive(Clone, Copy, Debug, PartialEq, Eq)]
pub enum Found {
    Clean,
    Mended(u32),
    Worn,
    Damaged,
    NotPermitted,
}

// What is found of a row that was repaired in reading: whether the bit is a 1 that it lacks as it is stored.
fn found_repaired(held: u32, bit: u32) -> Found
    requires { bit < 24 }
    ensures { result ≡ spec.found_repaired held bit }
{
    if (held >> bit) % 2 == 0 {
        return Found::Mended(bit);
    }
    Found::Worn
}

// What is found of a row that decodes.
fn found_read(held: u32, condition: Condition) -> Found
    requires { repaired_bit condition < 24 }
    ensures { result ≡ spec.found_read held condition }
{
    match condition {
        Condition::Clean => Found::Clean,
        Condition::Repaired(bit) => found_repaired(held, bit),
        Condition::FlagWorn => Found::Worn,
        Condition::FlagWornRepaired(_) => Found::Worn,
    }
}

// What is found of a row that holds this, and that Secure may or may not write.
#[tactic(auto, using(crate::proofs::Bits::low_read, crate::proofs::Decoding::not_decoded, crate::proofs::Decoding::decodes), unfolding(crate::specs::Finding::found_of))]
pub fn found_of(may: bool, held: u32) -> Found
    ensures { result ≡ spec.found_of may held }
{
    if !may {
        return Found::NotPermitted;
    }
    let read = read_row(held);
    if read.number != 0 {
        return Found::Damaged;
    }
    let condition = read.condition;
    found_read(held, condition)
}

impl Found {
    // Its kind in a report. A `match`, since `as` takes no enum of which a variant holds a bit.
    pub fn kind(self) -> u32
        ensures { result ≡ spec.kind_of self }
    {
        match self {
            Found::Clean => 0,
            Found::Mended(_) => 1,
            Found::Worn => 2,
            Found::Damaged => 3,
            Found::NotPermitted => 4,
        }
    }

    // The bit that is burnt, 0 but for a mended row.
    pub fn bit(self) -> u32
        ensures { result ≡ spec.bit_of self }
    {
        match self {
            Found::Mended(bit) => bit,
            _ => 0,
        }
    }

    // Its report entry.
    pub(crate) fn report_entry(self) -> u32
        requires { spec.bit_of self < 24 }
        ensures { result ≡ spec.report_entry self }
    {
        self.kind() + 256 * self.bit()
    }

    // What a row that held this holds then.
    pub(crate) fn left(self, held: u32) -> u32
        requires { spec.bit_of self < 24 }
        ensures { result ≡ spec.left_by self held }
    {
        match self {
            Found::Mended(bit) => held | (1 << bit),
            _ => held,
        }
    }

    // The pulses that it takes.
    pub fn pulses(self) -> u32
        ensures { result ≡ spec.pulses_by self }
    {
        match self {
            Found::Mended(_) => 1,
            _ => 0,
        }
    }
}
