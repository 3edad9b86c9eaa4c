// What the records of an evidence section share: numbers, texts, reserved bytes, digests, and what the schema decides.
#![tactic(auto)]

pub mod number;
pub mod place;
pub mod schema;
pub mod span;
