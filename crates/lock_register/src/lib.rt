// A register of locks: what is held, releases, and whether a lock stands against one that is asked for.
#![tactic(auto)]

pub mod meet;
pub mod read;
pub mod release;
