// Columns taken back.
#![tactic(auto)]

pub mod take;
