// The face for C, as Rattle code has it: every call of document 01, with what C takes of its answer. otp_c makes libotp.a of it, which
// include/otp.h declares.
#![tactic(auto)]

pub mod calls;
pub mod flat;
