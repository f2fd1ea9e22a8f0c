// What a write leaves in a row (document 01, "A row with ECC" and "Jobs").
ghost use Rattle.std.specs.Prelude.{◌≡◌};
ghost use Rattle.row.specs.Writing as spec;

use crate::coding::{flipped, inverted, plain, set_bits};
use answer::refusals::Refusal;

// The row that a write leaves, and the pulses that it takes.
#[derive(Clone, Copy, Debug, PartialEq, Eq)]
pub struct Burnt {
    pub row: u32,
    pub pulses: u32,
}

// Whether every bit already set is in the row.
fn fits(old: u32, row: u32) -> bool
    ensures { result ≡ spec.fits old row }
{
    old & row == old
}

// The pulses that burn a row over an old one: the bits newly set, of the 24.
#[tactic(auto, unfolding(crate::specs::Writing::pulses))]
pub fn pulses(old: u32, row: u32) -> u32
    ensures { result ≡ spec.pulses old row }
{
    set_bits(row & flipped(old))
}

// A row burnt over an old one.
fn burnt_over(old: u32, row: u32) -> Burnt
    ensures { spec.done_with result ≡ spec.burnt_over old row }
{
    Burnt {
        row,
        pulses: pulses(old, row),
    }
}

// An ECC write: the polarity is chosen from the bits already set.
pub fn write_ecc(old: u32, value: u16) -> Result<Burnt, Refusal>
    ensures { spec.written_by old result ≡ spec.ecc_written old value }
{
    let upright = plain(value);
    if fits(old, upright) {
        return Ok(burnt_over(old, upright));
    }
    let turned = inverted(value);
    if fits(old, turned) {
        return Ok(burnt_over(old, turned));
    }
    Err(Refusal::NeitherFits)
}

// A raw write adds its bits.
pub fn write_raw(old: u32, value: u32) -> Burnt
    ensures { spec.done_with result ≡ spec.raw_written old value }
{
    burnt_over(old, old | value)
}
