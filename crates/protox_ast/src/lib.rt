//! The syntax tree of a source.
#![tactic(auto)]

pub mod ast;
mod held;
pub mod laws;
