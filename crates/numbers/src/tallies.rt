// What the tallies must be, counted bit by bit, apart from the library (request 2026-07).
ghost use Rattle.std.specs.Prelude.{◌≤◌};

use crate::states;
use chip::state::{State, Tallies};

// The set bits of a row.
fn ones(row: u32) -> u16
    ensures { result ≤ 24 }
{
    let mut bits = 0;
    for place in 0u32..24 {
        if (row >> place) % 2 == 1 {
            bits += 1;
        }
    }
    bits
}

// The set bits of each page's rows: no page has more than a tally can hold.
fn counted(rows: &[u32]) -> Tallies {
    let mut tallies = [0u16; 64];
    for (row, entry) in rows.iter().enumerate() {
        let page = row / 64 % 64;
        tallies[page] = tallies[page].saturating_add(ones(*entry));
    }
    tallies
}

// What reset must latch: the state made by hand, with the tallies that the rows have.
pub fn with_counted(state: State, rows: &[u32]) -> State {
    let mut next = state;
    next.tallies = counted(rows);
    next
}

// What a done write must leave: the tally of its row's page at the lesser of 1,536 and old plus new bits. No row has 32 bits.
pub fn with_new_bits(state: State, row: u32, bits: u32) -> State {
    let page = row / 64;
    let old = u32::from(state.tallies[(page % 64) as usize]);
    states::with_tally(state, page, (old + bits % 32).min(1536))
}
