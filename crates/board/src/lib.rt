// The board on the table: an image that a command has loaded, reset and given a key, the rows of it that the words name, and what a reset
// latches of a lock row.
#![tactic(auto)]

pub mod begin;
pub mod lock_rows;
pub mod range;
pub mod reset_refusals;
