// Jobs: running and rehearsing them (document 01, "Jobs").
#![tactic(auto)]

pub mod burning;
pub mod jobs;
