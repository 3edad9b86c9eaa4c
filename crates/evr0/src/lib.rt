// Evidence sections (EVR0).
#![tactic(auto)]

pub mod frame;
pub mod section;
