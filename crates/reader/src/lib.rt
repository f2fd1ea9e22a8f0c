// The reader of a job's bytes, for the crew's printout: what stands at a place, and a reader that keeps the lent bytes and its place
// (request 2026-04).
#![tactic(auto)]

pub mod handing;
pub mod numbers;
pub mod readers;
