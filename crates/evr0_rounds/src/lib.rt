// Evidence sections (EVR0) with the depths of their proofs by rounds.
#![tactic(auto)]

mod kin;
mod mark;
pub mod section;
