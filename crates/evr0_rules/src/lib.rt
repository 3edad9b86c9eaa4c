// The proof rules of a section: the four, or those of a table that comes as bytes.
#![tactic(auto)]

mod four;
mod grow;
pub mod load;
pub mod placed;
pub mod rule;
pub mod settle;
mod tree;
