//! A file with its names resolved: each is a dot and the full name of what it stands for.
#![tactic(auto)]

mod field;
mod file;
mod lists;
mod message;
mod names;
mod service;
mod target;

pub use crate::file::link_file;
pub use crate::names::Names;
pub use crate::target::Target;
