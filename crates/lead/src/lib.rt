// Jobs that come in chunks over the serial lead (request 2026-01): what has come, the early word of each chunk, and the end.
#![tactic(auto)]

pub mod early;
pub mod ending;
pub mod notes;
pub mod so_far;
pub mod taking;
