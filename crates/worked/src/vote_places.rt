// Votes on each of the 24 places by itself, for each number of rows that have the bit there.
// Which rows have it goes round with the place, so that no row is always among them.
ghost use Rattle.std.specs.Prelude.{◌≤◌, ◌<◌};

use crate::places::places;
use crate::table::{Share, Table, headings};
use screen::say;
use vote::voting::{Gathered, vote};

const FULL: u32 = 0xffffff;

// A vote of so many rows, and how many of them must have a bit.
#[derive(Clone, Copy)]
struct Ballot {
    count: u32,
    least: u32,
    ghost few: { count ≤ 8 },
}

impl Ballot {
    // `held` of the first rows have the bit. The rows past those of the vote are full: a vote that counted one of them would show it.
    fn rows(self, turn: u32, held: u32, bit: u32) -> Gathered
        requires { turn < 24 }
    {
        let mut rows = [FULL; 8];
        // By its number: which rows have the bit goes by it.
        for row in 0..self.count {
            let has = (row + turn) % self.count < held;
            rows[row as usize] = if has { bit } else { 0 };
        }
        rows
    }

    // At how many places the vote is right, where `held` of its rows have the bit.
    fn right(self, held: u32) -> u32 {
        places(24, |place| {
            let bit = 1 << place;
            let rows = self.rows(place, held, bit);
            let must = if self.least <= held { bit } else { 0 };
            vote(rows, self.count, self.least) == must
        })
    }

    fn line(self, table: &mut Table, held: u32) {
        let right = self.right(held);
        let voted = if self.least <= held { "set  " } else { "clear" };
        let count = self.count;
        say!(table.rt; "{held} of {count} rows    {}   ", Share(right, 24, voted));
        table.verdict_of_many(right, 24);
    }
}

pub fn run(table: &mut Table) {
    headings(
        table,
        "Votes on each of the 24 places by itself",
        "have the bit   places",
    );
    let of_three = Ballot { count: 3, least: 2 };
    for held in 0..4 {
        of_three.line(table, held);
    }
    let of_eight = Ballot { count: 8, least: 3 };
    for held in 0..9 {
        of_eight.line(table, held);
    }
}
