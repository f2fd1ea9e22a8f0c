// What the programs share: how rows and bits are shown, how a table counts what it compares, what a program says.
#![tactic(auto)]

pub mod saying;
pub mod shown;
pub mod table;
pub mod tally;
