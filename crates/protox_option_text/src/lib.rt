//! What is wrong with a statement of an option, in protoc's words.
#![tactic(auto)]

mod names;
mod text;

pub use crate::text::statement_text;
