// The words of a register of locks, which the caller keeps.
#![tactic(auto)]

pub mod place;
pub mod source;
pub mod words;
