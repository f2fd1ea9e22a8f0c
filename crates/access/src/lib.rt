// The calls on one row or a vote group: read raw, read ECC, read a vote, write raw, write ECC (document 01).
#![tactic(auto)]

pub mod judging;
pub mod reads;
pub mod votes;
