// The tallies: how many bits of each page are burnt (request 2026-07).
ghost use Rattle.std.specs.Prelude.{◌≡◌, ◌+◌, min};
ghost use Rattle.chip.specs.Tallies as spec;
ghost use Rattle.chip.specs.Tallies.{◌gains◌};

use crate::pages::Page;

// A page's 64 rows have 24 bits each.
pub const FULL_PAGE: u32 = 1536;

// The lesser of a full page and a tally plus new bits. Either may be anything, and their sum is cut off where it no longer fits.
pub fn tally(old: u16, bits: u32) -> u16
    ensures { result ≡ min 1536 (old + bits) }
{
    (old as u32).saturating_add(bits).min(FULL_PAGE) as u16
}

// Adds the bits that a row gained to the tally of the page that it is in.
pub fn gain(tallies: &mut [u16], row: u32, bits: u32)
    ensures { tallies.new ≡ spec.with_gain tallies.old (row gains bits) }
{
    // By index, as in `put`.
    let at = (row / Page::ROWS) as usize;
    if at < tallies.len() {
        tallies[at] = tally(tallies[at], bits);
    }
}
