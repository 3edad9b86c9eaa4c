// What is asked of a ruling: its way down.
#![tactic(auto)]

pub mod down;
mod held;
