// The verb that makes a job of two images, and says what stands in the way where there is none.
#![tactic(auto)]

mod against;
mod found;
pub mod make;
