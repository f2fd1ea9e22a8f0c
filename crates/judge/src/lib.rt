// Judging a job whole, before its first pulse (document 01, "Jobs").
#![tactic(auto)]

pub mod verdicts;
