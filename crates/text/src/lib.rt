// The text of jobs: what a line says, and the job that a whole text gives; and the text of a list of rows.
#![tactic(auto)]

pub mod entries;
pub mod jobs;
pub mod lists;
pub mod reading;
mod room;
pub mod versions;
