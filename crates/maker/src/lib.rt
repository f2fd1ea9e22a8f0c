// The maker of jobs: from a present and a wanted image of a chip, the job that burns the one into the other (request 2026-04).
#![tactic(auto)]

pub mod comparing;
pub mod making;
