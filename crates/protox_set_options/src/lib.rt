//! What the options of linked files set, for a whole set of them.
#![tactic(auto)]

mod set;

pub use crate::set::interpret_set;
