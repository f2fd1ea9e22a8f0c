// With at most one bit set beforehand 9 is never given (document 01, "A row with ECC").
// Each sample is written over each of the 24 rows that have one bit set.
use crate::places::places;
use crate::samples::{SAMPLES, Sample};
use crate::table::{Share, Table, headings};
use row::writing::write_ecc;
use screen::say;
use screen::shown::Value;

// Whether a write over one bit burns the one of a sample's two rows that has the bit: it is in just one of them.
fn burns(bit: u32, sample: Sample) -> bool {
    let Sample(value, plain_row, inverted_row) = sample;
    let must = if plain_row & bit == bit {
        plain_row
    } else {
        inverted_row
    };
    write_ecc(bit, value).is_ok_and(|burnt| burnt.row == must)
}

fn single_bits_line(table: &mut Table, sample: Sample) {
    let Sample(value, _, _) = sample;
    let right = places(24, |place| burns(1 << place, sample));
    say!(table.rt;
        "{}   {}   ",
        Value(u32::from(value)),
        Share(right, 24, "burnt")
    );
    table.verdict_of_many(right, 24);
}

// As in the file of the codes.
pub fn run(table: &mut Table) {
    headings(
        table,
        "Writes over each row with one bit set: never 9",
        "value    the row that has the bit",
    );
    for sample in SAMPLES {
        single_bits_line(table, sample);
    }
}
