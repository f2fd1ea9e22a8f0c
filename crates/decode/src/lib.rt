// Reading a row with ECC (document 01, "A row with ECC"): polarity taken off, repair, and what is said of the row.
#![tactic(auto)]

pub mod reading;
