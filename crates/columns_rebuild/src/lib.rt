// The section of a column file: each table by its columns first, then row by row, one value from each column's cursor.
#![tactic(auto)]

mod first;
mod head;
mod row;
pub mod section;
mod table;
