// What a person types, whatever it is for: numbers and keys, and a text as lines and words.
#![tactic(auto)]

pub mod numbers;
pub mod words;
