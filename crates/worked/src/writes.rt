// Writes over rows with some bits set: the chosen polarity, the refusal, the pulses, raw writes.
use crate::table::{Table, headings};
use crate::write_lines::{Left, ecc_line, raw_line};

// A value, the row that it is written over, and what must be left.
type EccWrite = (u16, u32, Left);

// Every bit set beforehand is in the plain row.
const PLAIN: [EccWrite; 8] = [
    (0x0000, 0x000000, Left(0, 0x000000, 0)),
    (0x0001, 0x000000, Left(0, 0x230001, 4)),
    (0x0001, 0x230001, Left(0, 0x230001, 0)),
    (0xffff, 0x000000, Left(0, 0x1effff, 20)),
    (0xffff, 0x100001, Left(0, 0x1effff, 18)),
    (0x5053, 0x005053, Left(0, 0x225053, 2)),
    (0xbeef, 0x000001, Left(0, 0x0ebeef, 15)),
    (0xbeef, 0x0ebeef, Left(0, 0x0ebeef, 0)),
];

// Some bit set beforehand is not in the plain row, and every one is in the inverted row.
const INVERTED: [EccWrite; 9] = [
    (0x0000, 0x000001, Left(0, 0xffffff, 23)),
    (0x0000, 0x800000, Left(0, 0xffffff, 23)),
    (0x0000, 0xfffffe, Left(0, 0xffffff, 1)),
    (0x0000, 0xffffff, Left(0, 0xffffff, 0)),
    (0x0001, 0xc00000, Left(0, 0xdcfffe, 18)),
    (0xffff, 0x200000, Left(0, 0xe10000, 3)),
    (0x5053, 0x00000c, Left(0, 0xddafac, 14)),
    (0xbeef, 0x400000, Left(0, 0xf14110, 7)),
    (0xbeef, 0xf14110, Left(0, 0xf14110, 0)),
];

// Neither row has every bit set beforehand: 9, the old row, and no pulse.
const NEITHER: [EccWrite; 8] = [
    (0x0001, 0xffffff, Left(9, 0xffffff, 0)),
    (0x0001, 0x630001, Left(9, 0x630001, 0)),
    (0xffff, 0xffffff, Left(9, 0xffffff, 0)),
    (0xffff, 0x200001, Left(9, 0x200001, 0)),
    (0xbeef, 0x000011, Left(9, 0x000011, 0)),
    (0xbeef, 0x225053, Left(9, 0x225053, 0)),
    (0xbeef, 0xddafac, Left(9, 0xddafac, 0)),
    (0x5053, 0x0ebeef, Left(9, 0x0ebeef, 0)),
];

// Raw bits, the row that they are written over, and what must be left.
const RAW: [(u32, u32, Left); 8] = [
    (0xf00000, 0x000002, Left(0, 0xf00002, 4)),
    (0x000000, 0x123456, Left(0, 0x123456, 0)),
    (0xffffff, 0x000000, Left(0, 0xffffff, 24)),
    (0xffffff, 0xffffff, Left(0, 0xffffff, 0)),
    (0x00ff00, 0x0ff000, Left(0, 0x0fff00, 4)),
    (0x000001, 0x000001, Left(0, 0x000001, 0)),
    (0x808080, 0x010101, Left(0, 0x818181, 3)),
    (0xa5a5a5, 0x5a5a5a, Left(0, 0xffffff, 12)),
];

fn ecc_lines(table: &mut Table, fits: &str, writes: &[EccWrite]) {
    for &(value, old, must) in writes {
        ecc_line(table, fits, value, old, must);
    }
}

pub fn run(table: &mut Table) {
    headings(
        table,
        "Writes over rows with some bits set",
        "fits      what                        must be                     is",
    );
    ecc_lines(table, "plain", &PLAIN);
    ecc_lines(table, "inverted", &INVERTED);
    ecc_lines(table, "neither", &NEITHER);
    for (value, old, must) in RAW {
        raw_line(table, "any", value, old, must);
    }
}
