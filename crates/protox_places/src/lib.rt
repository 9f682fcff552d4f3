//! Lines and columns of a source, and the search for locations by path or by line and column.
#![tactic(auto)]

mod at;
pub mod faults;
pub mod find;
pub mod lines;
