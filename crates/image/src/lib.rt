// An image of a chip as a file has it.
#![tactic(auto)]

pub mod rows;
