// Every one-bit damage of each sample's two rows (document 01, "A row with ECC"), and of the plain one
// also one of bits 23:22 with one of bits 21:0.
// One of bits 21:0 is repaired in either polarity. One of bits 23:22 makes a plain row flag worn, with
// the repaired bit if there is one, and has an inverted row refused.
ghost use Rattle.std.specs.Prelude.{◌≤◌};

use crate::places::places;
use crate::read_lines::{reads, refused, repaired, worn, worn_and_repaired};
use crate::samples::{SAMPLES, Sample};
use crate::table::{Share, Table, headings};
use answer::answers::{Answer, Polarity};
use screen::say;
use screen::shown::Value;

// Bits 23 and 22, which tell the polarity.
const FLAGS: [u32; 2] = [0x400000, 0x800000];

// How many of bits 21:0, each flipped by itself, are repaired to the value.
fn repaired_places(row: u32, value: u32, polarity: Polarity) -> u32
    ensures { result ≤ 22 }
{
    places(22, |place| {
        reads(row ^ (1 << place), repaired(value, place, polarity))
    })
}

// How many of bits 21:0, each flipped where the flag of a plain row is worn, are repaired to the value.
fn worn_places(row: u32, value: u32) -> u32
    ensures { result ≤ 22 }
{
    places(22, |place| {
        reads(row ^ (1 << place), worn_and_repaired(value, place))
    })
}

// How many of bits 23:22, each flipped by itself, have a row read as it must.
fn flags(row: u32, must: Answer) -> u32
    ensures { result ≤ 2 }
{
    let [low, high] = FLAGS;
    u32::from(reads(row ^ low, must)) + u32::from(reads(row ^ high, must))
}

fn damage_line(table: &mut Table, sample: Sample) {
    let Sample(value_of_16, plain, inverted) = sample;
    let value = u32::from(value_of_16);
    let [low, high] = FLAGS;
    let upright = repaired_places(plain, value, Polarity::Plain);
    let flag_worn = flags(plain, worn(value));
    let both = worn_places(plain ^ low, value) + worn_places(plain ^ high, value);
    let turned = repaired_places(inverted, value, Polarity::Inverted);
    let flag_refused = flags(inverted, refused(8));
    say!(table.rt;
        "{}   plain {}, {}, {}   inverted {}, {}   ",
        Value(value),
        Share(upright, 22, "repaired"),
        Share(flag_worn, 2, "worn"),
        Share(both, 44, "both"),
        Share(turned, 22, "repaired"),
        Share(flag_refused, 2, "refused")
    );
    table.verdict_of_many(upright + flag_worn + both + turned + flag_refused, 92);
}

// As in the file of the codes.
pub fn run(table: &mut Table) {
    headings(
        table,
        "Every one-bit damage: bits 21:0, bits 23:22, and of the plain row one of both",
        "value    of the plain row                                      of the inverted row",
    );
    for sample in SAMPLES {
        damage_line(table, sample);
    }
}
