// What a job was answered and what it did, on the screen: the same for every verb that runs one.
#![tactic(auto)]

mod against;
pub mod answered;
mod changes;
mod locks;
