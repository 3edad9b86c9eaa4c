// Fields, texts and fixed byte strings of the binary formats, and refusals.
#![tactic(auto)]

pub mod field;
pub mod part;
pub mod refusal;
pub mod tag;
pub mod text;
