// The words of the crew's screens: answers, conditions, names, owners, levels, bars.
#![tactic(auto)]

pub mod burnt;
pub mod callers;
pub mod condition;
pub mod counts;
pub mod ecc;
pub mod job_refusals;
pub mod levels;
pub mod owner;
pub mod refusals;
pub mod rights;
pub mod row_names;
