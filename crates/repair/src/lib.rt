// The repair pass: what is found of listed rows, and the lost 1 of each that can be mended burnt again (request 2026-11).
#![tactic(auto)]

pub mod finding;
pub mod list;
pub mod pass;
mod permits;
