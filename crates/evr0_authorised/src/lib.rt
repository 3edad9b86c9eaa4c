// Whether a proposition of an evidence section is authorised.
#![tactic(auto)]

pub mod authorised;
