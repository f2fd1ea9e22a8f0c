// The verbs that tell of a row or a page who may use it, and change nothing.
#![tactic(auto)]

mod one_read;
mod page_line;
pub mod pages;
pub mod read;
