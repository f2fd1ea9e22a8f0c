// The verbs that look at files row by row or entry by entry, and change nothing.
#![tactic(auto)]

pub mod code;
pub mod compare;
mod differences;
pub mod dump;
mod dump_lines;
pub mod list;
pub mod wear;
mod wear_lines;
