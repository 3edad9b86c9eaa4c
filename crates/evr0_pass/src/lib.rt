// The last pass over the tables of a payload.
#![tactic(auto)]

pub mod pass;
