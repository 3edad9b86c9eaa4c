// The columns of a section whose tables were read, written into an output.
#![tactic(auto)]

mod head;
mod path;
mod records;
pub mod section;
mod table;
