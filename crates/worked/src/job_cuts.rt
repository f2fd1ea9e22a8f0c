// A job cut after each of its pulses, then a reset and the full job (document 01, "Jobs"): the rows of the uncut run, and pulses
// that add up. And the longest job.
use crate::job_lines::{Board, Told, answer_line, job_line, ready};
use crate::table::{Table, headings};
use answer::answers::Answer;
use job::jobs::{rehearse, run_job};
use screen::say;

// Five ECC entries from row 0x0c0: 0x5053, 0x004c, 1, 320 and 240.
const CARD: [u8; 37] = [
    0x4f, 0x54, 0x4a, 1, 0, 5, 0, 0xc0, 0, 0, 0x53, 0x50, 0, 0xc1, 0, 0, 0x4c, 0, 0, 0xc2, 0, 0, 1,
    0, 0, 0xc3, 0, 0, 0x40, 1, 0, 0xc4, 0, 0, 0xf0, 0, 0,
];

// The pulses after which the first entry stands, the second, and so on.
const STANDS: [u32; 5] = [8, 14, 18, 22, 28];

// How many entries stand after so many pulses.
fn standing(pulses: u32) -> u32 {
    STANDS.iter().filter(|stands| **stands <= pulses).count() as u32
}

// The full job after a reset.
pub fn reset_and_run(rows: &mut Board, job: &[u8]) -> Answer {
    let state = ready(rows);
    run_job(rows, state, job).answer
}

// A job cut by a limit after a reset.
pub fn reset_and_rehearse(rows: &mut Board, job: &[u8], limit: u32) -> Answer {
    let state = ready(rows);
    rehearse(rows, state, job, limit).answer
}

// One cut: what the rehearsal must answer, and whether the full job after a reset leaves the uncut rows for the other pulses.
fn cut_line(table: &mut Table, limit: u32) {
    let mut whole = [0u32; 4096];
    reset_and_run(&mut whole, &CARD);
    let mut rows = [0u32; 4096];
    let answer = reset_and_rehearse(&mut rows, &CARD, limit);
    let rest = reset_and_run(&mut rows, &CARD);
    let adds = rest.number == 0
        && rest.place == 5
        && answer.pulses.checked_add(rest.pulses) == Some(28);
    say!(table.rt; "limit {limit:2}, then {:2} more        ", rest.pulses);
    let must = Told(0, standing(limit), limit);
    answer_line(table, answer, must, adds && rows == whole);
}

// Document 01's two lines: the job of one entry makes 4 pulses; with limit 2 it leaves 0x010001 at place 0, and after a reset the
// full job makes 2 more and leaves 0x230001.
fn one_entry(table: &mut Table) {
    let job = b"\x4f\x54\x4a\x01\x00\x01\x00\xc0\x00\x00\x01\x00\x00";
    let mut rows = [0u32; 4096];
    let first = reset_and_rehearse(&mut rows, job, 2);
    let half = rows[0x0c0] == 0x010001;
    job_line(table, "limit 2 leaves 0x010001", first, Told(0, 0, 2), half);
    let second = reset_and_run(&mut rows, job);
    let whole = rows[0x0c0] == 0x230001;
    job_line(table, "2 more leave 0x230001", second, Told(0, 1, 2), whole);
}

// 512 ECC entries, every seventh row, the i-th value 129 times i.
fn long_job() -> [u8; 3079] {
    let mut job = [0u8; 3079];
    job[..7].copy_from_slice(b"\x4f\x54\x4a\x01\x00\x00\x02");
    for i in 0..512 {
        let [low_row, high_row] = ((7 * i) as u16).to_le_bytes();
        let [low, high] = ((129 * i % 65536) as u16).to_le_bytes();
        let at = 7 + 6 * i;
        job[at..at + 6].copy_from_slice(&[low_row, high_row, 0, low, high, 0]);
    }
    job
}

fn longest(table: &mut Table) {
    let job = long_job();
    let mut rows = [0u32; 4096];
    let answer = reset_and_run(&mut rows, &job);
    job_line(table, "512 entries", answer, Told(0, 512, 5454), true);
    let second = reset_and_run(&mut rows, &job);
    job_line(table, "512 entries, again", second, Told(0, 512, 0), true);
}

pub fn run(table: &mut Table) {
    headings(
        table,
        "Jobs cut by a limit, then a reset and the full job; and the longest job, run twice",
        "job                           must be                          is",
    );
    one_entry(table);
    for limit in 0..29 {
        cut_line(table, limit);
    }
    longest(table);
}
