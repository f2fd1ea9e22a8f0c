// The splash card, a second library above the first (request 2026-12): what the card's rows say, read as Non-secure, and the job that burns a
// card. include/splash.h declares its two calls for C; splash_c makes libsplash.a of them.
#![tactic(auto)]

pub mod calls;
pub mod cards;
pub mod flat;
pub mod reading;
pub mod writing;
