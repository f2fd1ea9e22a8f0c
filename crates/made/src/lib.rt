// No code: what is promised of a job that is made of two images, and of the reader of jobs, as theorems over the definitions (request 2026-04).
#![tactic(auto)]
