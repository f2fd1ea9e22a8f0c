// The chip: its pages, the callers, the lent rows, the latched state, keys, permission and tallies (document 01, "Locks", "Keys", "Permission").
#![tactic(auto)]

pub mod callers;
pub mod pages;
pub mod slices;
pub mod state;
pub mod tallies;
