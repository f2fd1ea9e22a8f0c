// No code: what is promised of a repair pass, as theorems over the definitions (request 2026-11).
#![tactic(auto)]
