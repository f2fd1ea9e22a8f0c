// The promises of the splash card (request 2026-12), as theorems over the definitions of the crates below. There is no code here.
#![tactic(auto)]
