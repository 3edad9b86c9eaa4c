// Evidence sections (EVR0) with the marks of their proofs.
#![tactic(auto)]

mod marks;
pub mod section;
