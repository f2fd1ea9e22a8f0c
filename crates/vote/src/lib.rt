// Votes over several rows (document 01, "Votes").
#![tactic(auto)]

pub mod voting;
