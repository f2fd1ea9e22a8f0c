// What every call answers (document 01, "The numbers we answer with"): the answer, the refusals by name, and the numbers of its condition and polarity. Its
// definitions say besides how a call's number is found.
#![tactic(auto)]

pub mod answers;
pub mod conditions;
pub mod refusals;
