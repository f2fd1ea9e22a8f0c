// The calls on the state alone: advance a lock, show a lock, enter a key (document 01, "Locks" and "Keys"). None of them takes a row.
#![tactic(auto)]

pub mod calls;
