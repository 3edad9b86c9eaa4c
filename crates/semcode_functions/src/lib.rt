// All functions of a file: each head, each block at its turn, and a function by number.
#![tactic(auto)]

pub mod functions;
pub mod head;
pub mod number;
