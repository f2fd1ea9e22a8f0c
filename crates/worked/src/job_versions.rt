// Version 2 jobs (request 2026-09): where their rows may stand, and two that lock up after themselves, cut after each pulse, then a
// reset and the full job.
use crate::job_cases::{Case, case, cases};
use crate::job_cuts::{reset_and_rehearse, reset_and_run};
use crate::job_lines::{Told, answer_line};
use crate::table::{Table, headings};
use screen::say;

// One entry: a name, the row, its kind, and what must be answered.
const BORDERS: [(&str, u16, u8, Told); 7] = [
    ("0xf3f ECC", 0xf3f, 0, Told(0, 1, 6)),
    ("0xf40 raw", 0xf40, 1, Told(11, 0, 0)),
    ("0xf7f raw", 0xf7f, 1, Told(11, 0, 0)),
    ("0xf80 raw", 0xf80, 1, Told(0, 1, 2)),
    ("0xf80 ECC", 0xf80, 0, Told(11, 0, 0)),
    ("0xfff raw", 0xfff, 1, Told(0, 1, 2)),
    ("0x1000 raw", 0x1000, 1, Told(11, 0, 0)),
];

// Two entries, and a lock row in a version 1 job. Page 5 is read only to Secure, and so its own lock word is too.
const ORDERS: [Case; 4] = [
    (
        "a data row after a lock row",
        b"\x4f\x54\x4a\x02\x00\x02\x00\x87\x0f\x01\x01\x01\x01\xc0\x00\x00\x01\x00\x00",
        Told(11, 0, 0),
    ),
    (
        "a lock row twice",
        b"\x4f\x54\x4a\x02\x00\x02\x00\x87\x0f\x01\x01\x01\x01\x87\x0f\x01\x01\x01\x01",
        Told(11, 0, 0),
    ),
    (
        "a lock row not permitted",
        b"\x4f\x54\x4a\x02\x00\x02\x00\xc0\x00\x00\x01\x00\x00\x8a\x0f\x01\x01\x01\x01",
        Told(7, 1, 0),
    ),
    (
        "version 1 with a lock row",
        b"\x4f\x54\x4a\x01\x00\x01\x00\x87\x0f\x01\x01\x01\x01",
        Told(11, 0, 0),
    ),
];

// One entry of version 2, of value 0x0101, whose plain row 0x2e0101 has six bits.
fn single(row: u16, kind: u8) -> [u8; 13] {
    let [low, high] = row.to_le_bytes();
    [0x4f, 0x54, 0x4a, 2, 0, 1, 0, low, high, kind, 1, 1, 0]
}

// The job of row 0x0c0, ECC, 1, which takes 4 pulses, and of page 3's high lock row with a byte in three copies, which takes 3.
fn locking(byte: u8) -> [u8; 19] {
    [
        0x4f, 0x54, 0x4a, 2, 0, 2, 0, 0xc0, 0, 0, 1, 0, 0, 0x87, 0x0f, 1, byte, byte, byte,
    ]
}

// One cut, a reset and the full job: done, it leaves the uncut rows; refused, those of the cut. After the first lock pulse, which is the
// fifth, the data row is finished.
fn rerun(table: &mut Table, limit: u32, job: &[u8], must: Told) {
    let mut whole = [0u32; 4096];
    reset_and_run(&mut whole, job);
    let mut rows = [0u32; 4096];
    reset_and_rehearse(&mut rows, job, limit);
    let cut = rows;
    let answer = reset_and_run(&mut rows, job);
    let left = if answer.number == 0 { whole } else { cut };
    let finished = limit < 5 || cut[0x0c0] == 0x230001;
    say!(table.rt; "limit {limit:2}, then the full job   ");
    answer_line(table, answer, must, rows == left && finished);
}

// What the full job must answer after a cut, where it is refused from some pulse on.
fn must_be(limit: u32, refused: u32) -> Told {
    if refused <= limit {
        return Told(7, 0, 0);
    }
    Told(0, 2, 7_u32.saturating_sub(limit))
}

// The job that locks by a byte, cut after each of its pulses.
fn cut_lines(table: &mut Table, title: &str, byte: u8, refused: u32) {
    headings(
        table,
        title,
        "job                           must be                          is",
    );
    let job = locking(byte);
    for limit in 0..8 {
        rerun(table, limit, &job, must_be(limit, refused));
    }
}

pub fn run(table: &mut Table) {
    headings(
        table,
        "Version 2 jobs: where rows may stand; a refused one leaves each row as it was",
        "job                           must be                          is",
    );
    for (name, row, kind, must) in BORDERS {
        case(table, name, &single(row, kind), must);
    }
    cases(table, &ORDERS);
    // A lock for Non-secure alone refuses Secure nothing: after any cut the job completes.
    cut_lines(
        table,
        "Row 0x0c0 and a Non-secure lock of page 3, cut by a limit, then a reset and the full job",
        4,
        8,
    );
    // A lock for Secure is latched once two of its three copies stand, which they do after six pulses. It guards its own lock word, and the
    // page of the data row.
    cut_lines(
        table,
        "Row 0x0c0 and a Secure lock of page 3, cut by a limit, then a reset and the full job",
        1,
        6,
    );
}
