// Every two-bit damage of bits 21:0, in both polarities: 231 pairs of places.
// Each is refused with 8, since no code is within one bit of two flips.
ghost use Rattle.std.specs.Prelude.{◌<◌, ◌≤◌};

use crate::places::places;
use crate::read_lines::{reads, refused};
use crate::samples::Sample;
use crate::table::{Share, Table, headings};
use screen::say;
use screen::shown::Value;

const DOUBLY_DAMAGED: [Sample; 4] = [
    Sample(0x0000, 0x000000, 0xffffff),
    Sample(0xffff, 0x1effff, 0xe10000),
    Sample(0xbeef, 0x0ebeef, 0xf14110),
    Sample(0x5053, 0x225053, 0xddafac),
];

// How many of the bits below a place, where the row is flipped already, have it refused.
fn refused_below(row: u32, place: u32) -> u32
    requires { place < 22 }
    ensures { result ≤ 22 }
{
    places(place, |lower| reads(row ^ (1 << lower), refused(8)))
}

fn refused_pairs(row: u32) -> u32
    ensures { result ≤ 484 }
{
    let mut right = 0;
    for place in 1..22 {
        right += refused_below(row ^ (1 << place), place);
    }
    right
}

fn pairs_line(table: &mut Table, sample: Sample) {
    let Sample(value, plain_row, inverted_row) = sample;
    let of_plain = refused_pairs(plain_row);
    let of_inverted = refused_pairs(inverted_row);
    say!(table.rt;
        "{}   plain {}   inverted {}   ",
        Value(u32::from(value)),
        Share(of_plain, 231, "refused"),
        Share(of_inverted, 231, "refused")
    );
    table.verdict_of_many(of_plain + of_inverted, 462);
}

// As in the file of the codes.
pub fn run(table: &mut Table) {
    headings(
        table,
        "Every two-bit damage of bits 21:0",
        "value    of the plain row           of the inverted row",
    );
    for sample in DOUBLY_DAMAGED {
        pairs_line(table, sample);
    }
}
