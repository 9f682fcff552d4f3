//! What a file uses of its imports, and whether it sets options.
#![tactic(auto)]

mod first;
mod names;
mod options;
mod search;
mod searcher;
mod unused;

pub use crate::options::has_options;
pub use crate::unused::Usage;
