// The tallies that a job and a rehearsal leave, on the pages that the job names and on others (request 2026-07).
use crate::job_lines::ready;
use crate::table::{Table, headings};
use chip::state::Tallies;
use job::jobs::rehearse;
use screen::say;
use std::fmt;

// Raw entries: row 0x0c0 gets 3 bits and row 0x0ff 4, both on page 3, row 0x100 one bit, on page 4, and row 0x240 eight, on page 9.
const JOB: [u8; 31] = [
    0x4f, 0x54, 0x4a, 1, 0, 4, 0, 0xc0, 0, 1, 0x07, 0, 0, 0xff, 0, 1, 0x0f, 0, 0, 0x00, 1, 1, 0x01,
    0, 0, 0x40, 2, 1, 0xff, 0, 0,
];

// The tallies of pages 3, 4 and 9, which the job names, and of page 10, which it does not.
type Four = [u16; 4];

// A limit, the four tallies before the job, and what they must be after it.
const CUTS: [(u32, Four, Four); 15] = [
    // After each entry, and within one.
    (0, [0, 0, 0, 0], [0, 0, 0, 0]),
    (1, [0, 0, 0, 0], [1, 0, 0, 0]),
    (3, [0, 0, 0, 0], [3, 0, 0, 0]),
    (5, [0, 0, 0, 0], [5, 0, 0, 0]),
    (7, [0, 0, 0, 0], [7, 0, 0, 0]),
    (8, [0, 0, 0, 0], [7, 1, 0, 0]),
    (12, [0, 0, 0, 0], [7, 1, 4, 0]),
    (16, [0, 0, 0, 0], [7, 1, 8, 0]),
    (17, [0, 0, 0, 0], [7, 1, 8, 0]),
    // A page that is named comes down to 1,536, whether or not the limit gets so far and whether or not a bit is new there.
    (0, [1535, 1537, 65535, 65535], [1535, 1536, 1536, 65535]),
    (1, [1535, 1537, 65535, 65535], [1536, 1536, 1536, 65535]),
    (7, [1535, 1536, 1537, 1537], [1536, 1536, 1536, 1537]),
    (12000, [1529, 1535, 1528, 1537], [1536, 1536, 1536, 1537]),
    (12000, [1528, 1534, 1527, 1536], [1535, 1535, 1535, 1536]),
    (12000, [65535, 65535, 65535, 0], [1536, 1536, 1536, 0]),
];

// The tallies with these four, and 9 on each other page.
fn with(four: Four) -> Tallies {
    let mut tallies = [9u16; 64];
    [tallies[3], tallies[4], tallies[9], tallies[10]] = four;
    tallies
}

// The four of the tallies.
#[derive(Clone, Copy)]
struct Columns(Tallies);

impl fmt::Display for Columns {
    fn fmt<W: fmt::Write>(&self, f: &mut fmt::Formatter<W>) -> fmt::Result {
        let tallies = self.0;
        write!(
            f,
            "  {:6}{:6}{:6}{:6}",
            tallies[3], tallies[4], tallies[9], tallies[10]
        )
    }
}

// A rehearsal of blank rows: the limit, the tallies before it, what they must be after it, and what they are.
fn cut_line(table: &mut Table, limit: u32, before: Tallies, must: Tallies) {
    let mut rows = [0u32; 4096];
    let mut state = ready(&rows);
    state.tallies = before;
    let after = rehearse(&mut rows, state, &JOB, limit).state;
    let are = after.tallies;
    say!(table.rt;
        "{limit:5}{}{}{}   ",
        Columns(before),
        Columns(must),
        Columns(are)
    );
    table.verdict(are == must);
}

pub fn run(table: &mut Table) {
    headings(
        table,
        "Tallies of pages 3, 4, 9 and 10 over a job of 16 pulses on pages 3, 4 and 9, cut by a limit",
        "limit  before                    must be                   are",
    );
    for (limit, before, must) in CUTS {
        cut_line(table, limit, with(before), with(must));
    }
}
