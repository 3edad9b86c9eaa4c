// Sections written as their columns.
#![tactic(auto)]

pub mod write;
