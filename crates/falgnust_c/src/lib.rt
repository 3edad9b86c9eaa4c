// The C functions of the library, under their names.
#![tactic(auto)]

pub mod authorised;
pub mod authorised_all;
pub mod block;
pub mod by_rounds;
pub mod columns;
pub mod compare;
pub mod field;
pub mod function;
pub mod functions;
pub mod number;
pub mod parent;
pub mod proof;
pub mod proposition;
pub mod record;
pub mod register;
pub mod rules;
pub mod scan;
pub mod section;
pub mod tag;
pub mod text;
pub mod way_down;
pub mod witness;
pub mod words;
