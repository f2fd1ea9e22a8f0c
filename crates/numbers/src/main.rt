// Drives each of the nine calls through every number that it can give, against document 01, and by each caller, domain and level.
// The cases, each with what must be, are the program's input: the file stdin beside src. After a
// write all rows and the whole state are compared, and after a call on the state all of it.
#![tactic(auto)]

mod board;
mod calls;
mod columns;
mod every_level;
mod every_lock;
mod names;
mod outcomes;
mod preparing;
mod said;
mod scene;
mod states;
mod tallies;

use board::Board;
use io::read_full;
use screen::table::Table;
use screen::{say, say_line};

// The number of the file descriptor that a program reads from.
const STANDARD_INPUT: i32 = 0;

// Room for the input, which has fewer bytes.
const ROOM: usize = 131072;

const LEGEND: &str = "The numbers of the nine calls against document 01

An answer is its number, its value, its condition and its pulses. The condition is clean, or the
repaired bit, or worn where bits 23 and 22 disagree, with the repaired bit; ~ marks an inverted row.
S is the caller Secure (0), N is Non-secure (1), B is the bootloader (2). What must be left of rows
and state:
  kept     every row and the whole state as they were
  burnt    the row as the write must leave it, its new bits in the tally of its page, every other row
           and the rest of the state as they were
  latched  the state that reset must make of the rows
  raised   the state with that one level
  entered  the state with that key entered
  -        nothing to leave: a read or a show
";

// What is compared: the scenes of the input, and then what no input names.
fn compared(rt: &HostRuntime, input: &[u8]) {
    let mut board = Board::blank(Table::new(rt));
    board.play(input);
    if input.len() == ROOM {
        say_line!(rt; "the input may be longer than what was read");
    }
    every_lock::all(&mut board.table);
    every_level::all(&mut board.table);
    board.table.last_line();
}

fn main(rt: HostRuntime) {
    say!(&rt; "{LEGEND}");
    let mut input = [0u8; ROOM];
    // With std's read the buffer would be filled by a loop of our own, which is no plainer.
    let count = read_full(STANDARD_INPUT, &mut input);
    compared(&rt, &input[..count]);
}
