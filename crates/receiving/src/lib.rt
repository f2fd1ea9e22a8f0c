// The verb that takes a job as its bytes come: what is wrong with it is said at once, and nothing is burnt before its end.
#![tactic(auto)]

mod early;
pub mod receive;
