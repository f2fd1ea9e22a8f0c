// Reset: what is latched of the rows (document 01, "Locks" and "Keys").
#![tactic(auto)]

pub mod locks;
pub mod resetting;
