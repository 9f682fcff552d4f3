//! What is wrong with a set of files, in protoc's words.
#![tactic(auto)]

mod alike;
mod clash;
mod defined;
mod error;
mod errors;
mod extended;
mod imports;
mod lists;
mod names;
mod place;
mod reserved;
mod search;
mod used;

pub use crate::error::LinkError;
pub use crate::errors::errors_of;
