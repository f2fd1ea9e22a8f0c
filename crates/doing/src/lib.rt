// The verbs that do: what they burn, they burn into a copy, and what they write is a new file.
#![tactic(auto)]

pub mod rehearse;
mod text_errors;
pub mod write;
