// The promises of what burns: cut power, jobs, pulses and tallies, as statements and theorems like those of `laws`. There is no code here.
#![tactic(auto)]
