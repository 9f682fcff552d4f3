//! Paths of field numbers, and whether one was set before.
//!
//! A statement of an option sets the field that it names. `option (a).b.c = 1` sets the path of the
//! numbers of a, b and c. A field must not be set again, nor may the whole of a message in which a
//! field was set: then a path that was set before begins with the one that is to be set.
//!
//! `SetPaths` holds whole paths. In a `SetTree` paths share their beginnings.
#![tactic(auto)]

mod set_paths;
mod tree;

pub use crate::set_paths::SetPaths;
pub use crate::tree::SetTree;
