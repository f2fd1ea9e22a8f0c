// Jobs that are done, malformed, out of order and refused by an entry (document 01, "Jobs").
// A refused job leaves each row as it was.
use crate::job_lines::{Board, Told, job_line, ready};
use crate::table::{Table, headings};
use job::jobs::run_job;

// A name, the bytes of a job, and what must be answered.
pub type Case = (&'static str, &'static [u8], Told);

const CASES: [Case; 23] = [
    // Jobs that are done.
    (
        "document 01's whole file",
        b"\x4f\x54\x4a\x01\x00\x01\x00\xc0\x00\x00\x01\x00\x00",
        Told(0, 1, 4),
    ),
    ("no entry", b"\x4f\x54\x4a\x01\x00\x00\x00", Told(0, 0, 0)),
    (
        "a raw entry over two bits",
        b"\x4f\x54\x4a\x01\x00\x01\x00\xc1\x00\x01\x01\x00\xff",
        Told(0, 1, 8),
    ),
    (
        "an entry that stands already",
        b"\x4f\x54\x4a\x01\x00\x01\x00\xc1\x00\x01\x03\x00\x00",
        Told(0, 1, 0),
    ),
    // Malformed by their heads, or by their lengths.
    ("no byte", b"", Told(10, 0, 0)),
    ("six bytes", b"\x4f\x54\x4a\x01\x00\x00", Told(10, 0, 0)),
    (
        "a wrong mark",
        b"\x4f\x54\x4b\x01\x00\x00\x00",
        Told(10, 0, 0),
    ),
    ("version 3", b"\x4f\x54\x4a\x03\x00\x00\x00", Told(10, 0, 0)),
    (
        "version, high byte first",
        b"\x4f\x54\x4a\x00\x01\x00\x00",
        Told(10, 0, 0),
    ),
    (
        "a count of 513",
        b"\x4f\x54\x4a\x01\x00\x01\x02",
        Told(10, 0, 0),
    ),
    (
        "a byte too few",
        b"\x4f\x54\x4a\x01\x00\x01\x00\xc0\x00\x00\x01\x00",
        Told(10, 0, 0),
    ),
    (
        "a byte too many",
        b"\x4f\x54\x4a\x01\x00\x01\x00\xc0\x00\x00\x01\x00\x00\x00",
        Told(10, 0, 0),
    ),
    // Malformed by an entry.
    (
        "a kind of 2",
        b"\x4f\x54\x4a\x01\x00\x01\x00\xc0\x00\x02\x01\x00\x00",
        Told(10, 0, 0),
    ),
    (
        "an ECC value of 65,536",
        b"\x4f\x54\x4a\x01\x00\x01\x00\xc0\x00\x00\x00\x00\x01",
        Told(10, 0, 0),
    ),
    (
        "out of order, then a bad kind",
        b"\x4f\x54\x4a\x01\x00\x02\x00\x40\x0f\x00\x01\x00\x00\xc0\x00\x02\x01\x00\x00",
        Told(10, 0, 0),
    ),
    // Out of order.
    (
        "row 0xf40",
        b"\x4f\x54\x4a\x01\x00\x01\x00\x40\x0f\x00\x01\x00\x00",
        Told(11, 0, 0),
    ),
    (
        "row 0xffff",
        b"\x4f\x54\x4a\x01\x00\x01\x00\xff\xff\x00\x01\x00\x00",
        Told(11, 0, 0),
    ),
    (
        "a row twice",
        b"\x4f\x54\x4a\x01\x00\x02\x00\xc0\x00\x00\x01\x00\x00\xc0\x00\x00\x01\x00\x00",
        Told(11, 0, 0),
    ),
    (
        "a row below the one before",
        b"\x4f\x54\x4a\x01\x00\x02\x00\xc3\x00\x00\x01\x00\x00\xc0\x00\x00\x01\x00\x00",
        Told(11, 0, 0),
    ),
    // Refused by an entry.
    (
        "second entry not permitted",
        b"\x4f\x54\x4a\x01\x00\x02\x00\xc0\x00\x00\x01\x00\x00\x40\x01\x00\x01\x00\x00",
        Told(7, 1, 0),
    ),
    (
        "second entry's row too large",
        b"\x4f\x54\x4a\x01\x00\x02\x00\xc0\x00\x00\x01\x00\x00\xc2\x00\x01\x01\x00\x00",
        Told(3, 1, 0),
    ),
    (
        "second entry fits neither",
        b"\x4f\x54\x4a\x01\x00\x02\x00\xc0\x00\x00\x01\x00\x00\xc1\x00\x00\x01\x00\x00",
        Told(9, 1, 0),
    ),
    (
        "9 first, 7 after it",
        b"\x4f\x54\x4a\x01\x00\x02\x00\xc1\x00\x00\x01\x00\x00\x40\x01\x00\x01\x00\x00",
        Told(9, 0, 0),
    ),
];

// Page 5 is read only to Secure, and row 0x0c1 has two bits that no polarity of 1 holds.
fn board() -> Board {
    let mut rows = [0u32; 4096];
    rows[0xf8b] = 0x010101;
    rows[0x0c1] = 0x000003;
    rows
}

// A job run on that board, whose row 0x0c2 is too large once the board is reset.
pub fn case(table: &mut Table, name: &str, bytes: &[u8], must: Told) {
    let mut rows = board();
    let state = ready(&rows);
    rows[0x0c2] = 0x1000000;
    let first = rows;
    let outcome = run_job(&mut rows, state, bytes);
    let answer = outcome.answer;
    let kept = answer.number == 0 || rows == first;
    job_line(table, name, answer, must, kept);
}

pub fn cases(table: &mut Table, cases: &[Case]) {
    for &(name, bytes, must) in cases {
        case(table, name, bytes, must);
    }
}

pub fn run(table: &mut Table) {
    headings(
        table,
        "Jobs: number, place and pulses; a refused one leaves each row as it was",
        "job                           must be                          is",
    );
    cases(table, &CASES);
}
