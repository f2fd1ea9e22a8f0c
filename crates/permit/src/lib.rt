// Who may read and write a row: the keys and the key level, and permission (document 01, "Keys" and "Permission").
#![tactic(auto)]

pub mod keys;
pub mod permission;
