// Records of an evidence section by number. Each is read off a section that is decoded anew first.
#![tactic(auto)]

pub mod ask;
pub mod cell;
pub mod entry;
pub mod find;
pub mod numbered;
pub mod table;
