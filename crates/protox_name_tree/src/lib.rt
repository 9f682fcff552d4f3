//! Full names in a tree, part by part.
#![tactic(auto)]

mod dotted;
mod mixed;
mod nodes;
mod scopes;
mod slots;
mod sought;
mod texts;
mod tree;
mod word;

pub use crate::tree::NameTree;
pub use crate::word::Word;
