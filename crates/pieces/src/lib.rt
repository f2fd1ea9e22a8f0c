// The promises of jobs that come in pieces, as statements and theorems like those of `laws`. There is no code here.
#![tactic(auto)]
