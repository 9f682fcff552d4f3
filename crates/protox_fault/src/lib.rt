//! The faults of a source: what is wrong and where, and what is said about it.
#![tactic(auto)]

pub mod error;
mod fault_notes;
pub mod laws;
