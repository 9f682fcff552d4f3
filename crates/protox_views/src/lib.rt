//! What a file sees of the declarations of a set of files.
#![tactic(auto)]

mod names;
mod packages;
mod resolve;
mod scopes;
mod view;

pub use crate::packages::{PackageFiles, SeenPackages};
pub use crate::view::View;
