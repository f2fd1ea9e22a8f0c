// The twelve worked rows of document 01, in its order, with the answers that it prints.
// Of a write it prints the row or the number alone. The pulses are the bits newly set, by its rule.
use crate::read_lines::{clean, read_line, refused, repaired};
use crate::table::{Table, headings};
use crate::write_lines::{Left, ecc_line};
use answer::answers::Polarity;
use row::coding::code;
use screen::say;
use screen::shown::{Bits, Value};

const CODES: [(&str, u16, u32); 2] = [("P1", 0xffff, 0x1effff), ("P2", 0x8000, 0x158000)];

const WRITES: [(&str, u16, u32, Left); 3] = [
    ("P10", 1, 0x000002, Left(0, 0xdcfffe, 19)),
    ("P11", 1, 0x000003, Left(9, 0x000003, 0)),
    ("P12", 3, 0x230001, Left(9, 0x230001, 0)),
];

fn code_line(table: &mut Table, label: &str, value: u16, must: u32) {
    let is = code(value);
    say!(table.rt;
        "{label:<10}code of {}              {}                    {}                       ",
        Value(u32::from(value)),
        Bits(must),
        Bits(is)
    );
    table.verdict(is == must);
}

fn read_lines(table: &mut Table) {
    let reads = [
        ("P3", 0x230001, clean(1, Polarity::Plain)),
        ("P4", 0x230000, repaired(1, 0, Polarity::Plain)),
        ("P5", 0x000001, repaired(0, 0, Polarity::Plain)),
        ("P6", 0x000003, refused(8)),
        ("P7", 0x160000, refused(8)),
        ("P8", 0xdcfffe, clean(1, Polarity::Inverted)),
        ("P9", 0x9cfffe, refused(8)),
    ];
    for (label, row, must) in reads {
        read_line(table, label, row, must);
    }
}

pub fn run(table: &mut Table) {
    headings(
        table,
        "The twelve worked rows: number, value, condition and polarity, or number, row and pulses",
        "case      what                        must be                     is",
    );
    for (label, value, must) in CODES {
        code_line(table, label, value, must);
    }
    read_lines(table);
    for (label, value, old, must) in WRITES {
        ecc_line(table, label, value, old, must);
    }
}
