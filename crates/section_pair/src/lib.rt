// Two evidence sections that were decoded: the list of their propositions.
#![tactic(auto)]

mod key;
mod list;
pub mod pair;
mod side;
pub mod totals;
mod verdict;
