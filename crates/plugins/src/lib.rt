// The promises of what a Non-secure plug-in can learn, as statements and theorems like those of `laws`. There is no code here.
#![tactic(auto)]
