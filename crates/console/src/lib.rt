// The console of the crew's command: its words, the files that they name, and how a command ends.
#![tactic(auto)]

pub mod ended;
pub mod file_errors;
pub mod files;
mod names;
pub mod options;
pub mod saving;
mod shown;
pub mod takes;
pub mod text_errors;
pub mod usage;
pub mod word;
