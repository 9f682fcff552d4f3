//! Finds the faults of a syntax tree that the grammar allows.
#![tactic(auto)]

pub mod checks;
mod enums;
mod fields;
mod found;
mod integers;
mod messages;
mod numbers;
mod options;
mod scope;
mod values;
