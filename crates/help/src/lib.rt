// The page that `otp help` shows. It has long lines and nothing to decide, so it is proved beside the crates that decide.
#![tactic(auto)]

pub mod page;
