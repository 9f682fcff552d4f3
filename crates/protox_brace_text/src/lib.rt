//! What is wrong with a text in braces, in protoc's words.
#![tactic(auto)]

mod names;
mod pieces;
mod steps;
mod text;
mod values;

pub use crate::text::brace_text;
