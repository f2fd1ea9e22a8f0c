// The verb that repairs rows of a board, and says of each what was found.
#![tactic(auto)]

mod against;
mod finds;
mod list_errors;
mod lists;
pub mod mend;
mod pass;
mod show;
