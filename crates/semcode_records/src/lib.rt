// One debug symbol, one path and one component of a function's block.
#![tactic(auto)]

pub mod component;
pub mod path;
pub mod symbol;
