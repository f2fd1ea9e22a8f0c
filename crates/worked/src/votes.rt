// Votes over gathered rows (document 01, "Votes"): two of three, three of eight, and how many of
// the eight rows are counted.
use crate::table::{Table, headings};
use screen::say;
use screen::shown::Bits;
use vote::voting::{Gathered, threshold, vote};

const FULL: u32 = 0xffffff;

const LAST_THREE: Gathered = [0, 0, 0, 0, 0, FULL, FULL, FULL];

const ALL: Gathered = [FULL; 8];

// What is special, the rows, how many of them count, how many must have a bit, and what must be voted.
type Vote = (&'static str, Gathered, u32, u32, u32);

const OF_THREE: [Vote; 6] = [
    (
        "2 of 3: two rows full, met exactly",
        [FULL, 0, FULL, 0, 0, 0, 0, 0],
        3,
        2,
        FULL,
    ),
    (
        "2 of 3: one row full, missed by one",
        [0, FULL, 0, 0, 0, 0, 0, 0],
        3,
        2,
        0,
    ),
    (
        "2 of 3: all three alike",
        [0xabcdef, 0xabcdef, 0xabcdef, 0, 0, 0, 0, 0],
        3,
        2,
        0xabcdef,
    ),
    (
        "2 of 3: one row the opposite of two",
        [0x123456, 0xedcba9, 0x123456, 0, 0, 0, 0, 0],
        3,
        2,
        0x123456,
    ),
    (
        "2 of 3: each bit judged by itself",
        [0x0f0ff1, 0xf00ff2, 0xff0004, 0, 0, 0, 0, 0],
        3,
        2,
        0xff0ff0,
    ),
    (
        "2 of 3: full rows past the third not counted",
        [1, 2, 4, FULL, FULL, FULL, FULL, FULL],
        3,
        2,
        0,
    ),
];

const OF_EIGHT: [Vote; 4] = [
    (
        "3 of 8: three rows full, met exactly",
        [FULL, 0, 0, FULL, 0, 0, 0, FULL],
        8,
        3,
        FULL,
    ),
    (
        "3 of 8: two rows full, missed by one",
        [FULL, 0, 0, FULL, 0, 0, 0, 0],
        8,
        3,
        0,
    ),
    ("3 of 8: all eight alike", [0x5aa5c3; 8], 8, 3, 0x5aa5c3),
    (
        "3 of 8: each bit judged by itself",
        [
            0x76a604, 0x00082f, 0x15d18c, 0x029050, 0x158043, 0x13a094, 0xa13d30, 0x079402,
        ],
        8,
        3,
        0x17b416,
    ),
];

const OF_OTHER_COUNTS: [Vote; 8] = [
    ("count 8: the last three rows full", LAST_THREE, 8, 3, FULL),
    (
        "count 7: the last of those not counted",
        LAST_THREE,
        7,
        3,
        0,
    ),
    ("count 9 counts as 8", LAST_THREE, 9, 3, FULL),
    (
        "count 4294967295 counts as 8",
        LAST_THREE,
        4294967295,
        3,
        FULL,
    ),
    ("count 2, threshold 3: all rows full", ALL, 2, 3, 0),
    ("count 2, threshold 2: all rows full", ALL, 2, 2, FULL),
    ("count 0, threshold 3: all rows full", ALL, 0, 3, 0),
    ("count 0, threshold 2: all rows full", ALL, 0, 2, 0),
];

const THRESHOLDS: [(&str, u32, u32); 2] = [
    ("threshold of 3 rows", 3, 2),
    ("threshold of 8 rows", 8, 3),
];

fn vote_lines(table: &mut Table, votes: &[Vote]) {
    for &(what, rows, count, least, must) in votes {
        let is = vote(rows, count, least);
        say!(table.rt; "{what:<50}{}  {}   ", Bits(must), Bits(is));
        table.verdict(is == must);
    }
}

pub fn run(table: &mut Table) {
    headings(
        table,
        "Votes",
        "what                                              must be   is",
    );
    for (what, count, must) in THRESHOLDS {
        let is = threshold(count);
        say!(table.rt; "{what:<50}{must}         {is}          ");
        table.verdict(is == must);
    }
    vote_lines(table, &OF_THREE);
    vote_lines(table, &OF_EIGHT);
    vote_lines(table, &OF_OTHER_COUNTS);
}
