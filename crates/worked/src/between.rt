// Writing again over each row that a cut write can leave: the same row is reached, and the pulses
// are the bits still missing.
use crate::table::{Table, headings};
use crate::write_lines::{Left, ecc_line};

// A row between the old one and the burnt one, and the pulses that it still takes.
type Between = (u32, u32);

// Every row between 0 and the plain row of 1, 0x230001.
const TO_PLAIN: [Between; 16] = [
    (0x000000, 4),
    (0x000001, 3),
    (0x010000, 3),
    (0x010001, 2),
    (0x020000, 3),
    (0x020001, 2),
    (0x030000, 2),
    (0x030001, 1),
    (0x200000, 3),
    (0x200001, 2),
    (0x210000, 2),
    (0x210001, 1),
    (0x220000, 2),
    (0x220001, 1),
    (0x230000, 1),
    (0x230001, 0),
];

// From 0x000002 to the inverted row of 1, 0xdcfffe, there are too many to run: these are the ones
// that a write burning its bits upward leaves.
const TO_INVERTED: [Between; 20] = [
    (0x000002, 19),
    (0x000006, 18),
    (0x00000e, 17),
    (0x00001e, 16),
    (0x00003e, 15),
    (0x00007e, 14),
    (0x0000fe, 13),
    (0x0001fe, 12),
    (0x0003fe, 11),
    (0x0007fe, 10),
    (0x000ffe, 9),
    (0x001ffe, 8),
    (0x003ffe, 7),
    (0x007ffe, 6),
    (0x00fffe, 5),
    (0x04fffe, 4),
    (0x0cfffe, 3),
    (0x1cfffe, 2),
    (0x5cfffe, 1),
    (0xdcfffe, 0),
];

fn lines(table: &mut Table, fits: &str, burnt: u32, rows: &[Between]) {
    for &(row, missing) in rows {
        ecc_line(table, fits, 1, row, Left(0, burnt, missing));
    }
}

pub fn run(table: &mut Table) {
    headings(
        table,
        "Writing 1 again over the rows between the old one and the burnt one",
        "fits      what                        must be                     is",
    );
    lines(table, "plain", 0x230001, &TO_PLAIN);
    lines(table, "inverted", 0xdcfffe, &TO_INVERTED);
}
