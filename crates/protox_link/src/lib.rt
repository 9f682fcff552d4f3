//! Linked files: sets of files in which each name is a full name.
#![tactic(auto)]

mod checking;
mod circle;
mod file;
mod files;
mod known;
pub mod laws;
mod linking;
mod packages;
mod prepare;
mod resolver;
mod set;

pub use crate::checking::check;
pub use crate::linking::link;
pub use crate::resolver::{FileNames, Resolver};
pub use crate::set::LinkedSet;
