// Of every proposition of an evidence section, whether it is authorised.
#![tactic(auto)]

pub mod table;
