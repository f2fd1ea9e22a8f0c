// Who may read and write a row, by every level that decides it: key level, Secure, Non-secure and bootloader (document 01, "Permission";
// request 2026-05).
use crate::every_lock::NAMES;
use crate::states;
use access::reads::{read_ecc, read_raw};
use access::votes::read_vote;
use burn::writes::{write_ecc, write_raw};
use chip::state::State;
use screen::table::Table;
use screen::{say, say_line};
use std::fmt;

const PAGE: u32 = 3;

const ROW: u32 = 0x0c0;

// What a caller may do at a key level: a group for each Secure level, in it three places for each Non-secure level, one for
// each bootloader level.
#[derive(Clone, Copy)]
struct Line([u8; 30]);

impl fmt::Display for Line {
    fn fmt<W: fmt::Write>(&self, f: &mut fmt::Formatter<W>) -> fmt::Result {
        for letter in self.0 {
            f.write_char(char::from(letter))?;
        }
        Ok(())
    }
}

// What must be: w reads and writes, r reads, - neither. Three lines for each caller, Secure, Non-secure and bootloader: key levels 0, 1
// and 2.
const MUST: [[Line; 3]; 3] = [
    [
        Line(*b"wwwwwwwww rrrrrrrrr --------- "),
        Line(*b"rrrrrrrrr rrrrrrrrr --------- "),
        Line(*b"--------- --------- --------- "),
    ],
    [
        Line(*b"wwwrrr--- rrrrrr--- rrrrrr--- "),
        Line(*b"rrrrrr--- rrrrrr--- rrrrrr--- "),
        Line(*b"--------- --------- --------- "),
    ],
    [
        Line(*b"wr-wr-wr- rr-rr-rr- --------- "),
        Line(*b"rr-rr-rr- rr-rr-rr- --------- "),
        Line(*b"--------- --------- --------- "),
    ],
];

// A state with these levels at the page. An index that never matches makes the key level the no-key state plus 1.
fn with_levels(key: u32, levels: [u32; 3]) -> State {
    let state = states::with_levels(State::zeros(), PAGE, levels);
    if key == 0 {
        return state;
    }
    states::with_indexes(state, PAGE, 7, 0, key - 1)
}

// The number of every read, or none where they differ: none of these calls is malformed.
fn read_number(rows: &[u32], state: State, caller: u32) -> Option<u32> {
    let raw = read_raw(rows, state, caller, ROW).number;
    let ecc = read_ecc(rows, state, caller, ROW).number;
    let vote = read_vote(rows, state, caller, ROW, 8).number;
    (raw == ecc && raw == vote).then_some(raw)
}

// The number of both writes, or none where they differ.
fn write_number(rows: &mut [u32], state: State, caller: u32) -> Option<u32> {
    let raw = write_raw(rows, state, caller, ROW, 0).answer.number;
    let ecc = write_ecc(rows, state, caller, ROW, 0).answer.number;
    (raw == ecc).then_some(raw)
}

// What a caller may do, on blank rows: no call changes one.
fn letter(state: State, caller: u32) -> u8 {
    let mut rows = [0u32; 4096];
    let read = read_number(&rows, state, caller);
    let write = write_number(&mut rows, state, caller);
    match (read, write) {
        (Some(0), Some(0)) => b'w',
        (Some(0), Some(7)) => b'r',
        (Some(7), Some(7)) => b'-',
        _ => b'?',
    }
}

fn tried(table: &mut Table, name: &str, caller: u32, key: u32, must: Line) {
    let mut is = [b' '; 30];
    let mut right = 0;
    for levels in 0u32..27 {
        let state = with_levels(key, [levels / 9, levels / 3 % 3, levels % 3]);
        let at = (levels / 9 * 10 + levels % 9) as usize;
        is[at] = letter(state, caller);
        right += u32::from(is[at] == must.0[at]);
    }
    say!(table.rt; "{name:<12}{key}    {must}  {}", Line(is));
    table.verdict_of_many(right, 27);
}

pub fn all(table: &mut Table) {
    say_line!(table.rt;
        "\nWho may read and write, by every level: w reads and writes, r reads, - neither
A group for each Secure level, in it Non-secure levels by bootloader levels
caller      key  must be                         is"
    );
    for (caller, (name, lines)) in (0..).zip(NAMES.iter().zip(MUST)) {
        for (key, must) in (0..).zip(lines) {
            tried(table, name, caller, key, must);
        }
    }
}
