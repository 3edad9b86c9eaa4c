// The string, DBG0, OWN0 and SIG0 tables of a function's block.
#![tactic(auto)]

pub mod decode;
pub mod signature;
pub mod string;
pub mod table;
