// The four tables of a payload.
#![tactic(auto)]

pub mod lent;
pub mod part;
pub mod payload;
mod rows;
mod tables;
