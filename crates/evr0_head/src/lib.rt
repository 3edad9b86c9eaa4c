// The head of an evidence section's payload and the checks after its counts.
#![tactic(auto)]

pub mod counts;
pub mod head;
