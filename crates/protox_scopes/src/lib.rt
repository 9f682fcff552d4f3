//! Protobuf's scoping rule: what a name stands for where something uses it.
#![tactic(auto)]

mod kind;
pub mod laws;
mod search;
mod step;
mod table;
mod tree;
mod tree_search;

pub use crate::kind::{Kind, Wanted};
pub use crate::search::resolve;
pub use crate::step::Step;
pub use crate::table::Table;
pub use crate::tree::ScopeTree;
pub use crate::tree_search::resolve_in;
