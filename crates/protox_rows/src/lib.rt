//! What all rules of the grammar are read with: rows, names, numbers, strings, and notes of faults.
#![tactic(auto)]

pub mod checks;
pub mod class;
pub mod expected;
pub mod leaf;
pub mod names;
pub mod refused;
pub mod rows;
pub mod strings;
