// Of each sample: the code, both rows, and what the undamaged rows read back.
ghost use Rattle.std.specs.Prelude.{◌≤◌};

use crate::read_lines::{clean, reads};
use crate::samples::{SAMPLES, Sample};
use crate::table::{Share, Table, headings};
use answer::answers::Polarity;
use row::coding::{code, inverted, plain};
use screen::say;
use screen::shown::{Bits, Value};

// How many of the two undamaged rows read the value, clean, in their polarity.
fn clean_reads(sample: Sample) -> u32
    ensures { result ≤ 2 }
{
    let Sample(value, plain_row, inverted_row) = sample;
    let plain_read = clean(u32::from(value), Polarity::Plain);
    let inverted_read = clean(u32::from(value), Polarity::Inverted);
    u32::from(reads(plain_row, plain_read)) + u32::from(reads(inverted_row, inverted_read))
}

fn code_line(table: &mut Table, sample: Sample) {
    let Sample(value, plain_row, inverted_row) = sample;
    let own_code = code(value);
    let own_plain = plain(value);
    let own_inverted = inverted(value);
    let read_back = clean_reads(sample);
    let right = read_back
        + u32::from(own_code == plain_row)
        + u32::from(own_plain == plain_row)
        + u32::from(own_inverted == inverted_row);
    say!(table.rt;
        "{}  {}  {}  {}  {}  {}  {}   ",
        Value(u32::from(value)),
        Bits(plain_row),
        Bits(own_code),
        Bits(own_plain),
        Bits(inverted_row),
        Bits(own_inverted),
        Share(read_back, 2, "clean")
    );
    table.verdict_of_many(right, 5);
}

// The titles, and a line for each sample, here and in the files like it: by one function with a closure it would be no plainer.
pub fn run(table: &mut Table) {
    headings(
        table,
        "Codes, plain and inverted rows, and what the two rows read back",
        "value   must be   code is   plain is  must be   inverted  read back",
    );
    for sample in SAMPLES {
        code_line(table, sample);
    }
}
