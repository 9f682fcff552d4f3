//! From a syntax tree to a descriptor with the place of each part in the source.
#![tactic(auto)]

pub mod draft;
pub mod generate;
pub mod repeats;
mod short_source;
