//! The defaults of floats, in the texts that protoc gives them.
//!
//! In a file as `parse` answers it, the default of a float is the text of the source: `1.0`, `1e3`.
//! protoc writes the number anew: `1`, `1000`. A reader takes both for the same number.
#![tactic(auto)]

mod fields;
mod file;
mod message;
mod texts;

pub use crate::file::print_defaults;
