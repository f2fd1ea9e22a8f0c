// The form of a job: its bytes as entries, what is wrong with them, and entries as bytes (document 01, "Jobs").
#![tactic(auto)]

pub mod entries;
pub mod faults;
pub mod writing;
