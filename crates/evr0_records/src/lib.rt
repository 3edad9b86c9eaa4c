// The records of an evidence section: propositions, proofs, witnesses and parents, and the checks of each.
#![tactic(auto)]

pub mod parent;
pub mod proof;
pub mod proposition;
pub mod sized;
pub mod witness;
