// Two evidence sections held against each other.
#![tactic(auto)]

pub mod compare;
mod tables;
