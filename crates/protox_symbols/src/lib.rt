//! A table of what is declared: its full names, and where each stands.
#![tactic(auto)]

mod declares;
mod files;
mod parts;
pub mod paths;
mod scopes;
mod symbols;
mod thing;

pub use crate::symbols::Symbols;
pub use crate::thing::Thing;
