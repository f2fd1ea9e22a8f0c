// One row of 24 bits (document 01, "A row with ECC" and "Jobs"): its code, both polarities, what a write leaves, also cut short.
// The definitions that the contracts cite stand in specs/, in document 01's words and order.
#![tactic(auto)]

pub mod coding;
pub mod upward;
pub mod writing;
