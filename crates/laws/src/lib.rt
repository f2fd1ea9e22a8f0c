// The promises of every call and of a row, as statements over the definitions of the crates below. There is no code here: specs/ holds the
// statements, which read without their proofs, and proofs/ a theorem for each, under the statement's name in small letters.
#![tactic(auto)]
