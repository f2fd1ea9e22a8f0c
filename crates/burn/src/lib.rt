// What a call that burns leaves, and the two writes (document 01, "The numbers we answer with" and "A row with ECC").
#![tactic(auto)]

pub mod burning;
pub mod writes;
