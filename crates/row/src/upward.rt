// A row burnt for some pulses only, bits upward (document 01, "Jobs").
ghost use Rattle.std.specs.Prelude.{◌≡◌};
ghost use Rattle.row.specs.Upward as spec;

use crate::coding::flipped;

// The n lowest of some bits, of the 24 places.
fn lowest(bits: u32, n: u32) -> u32
    ensures { result ≡ spec.lowest_below 24 n bits }
{
    let mut kept = 0;
    let mut passed = 0;
    for place in 0..24u32 {
        let bit = (bits >> place) % 2;
        if passed < n {
            kept += bit << place;
        }
        passed += bit;
    }
    kept
}

// A row burnt for n pulses, bits upward.
#[tactic(auto, unfolding(crate::specs::Upward::burnt_upward))]
pub fn burnt_upward(n: u32, old: u32, row: u32) -> u32
    ensures { result ≡ spec.burnt_upward n old row }
{
    old | lowest(row & flipped(old), n)
}
