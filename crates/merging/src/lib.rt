// The promises of lock settings that are merged, as statements and theorems like those of `laws`. There is no code here.
#![tactic(auto)]
