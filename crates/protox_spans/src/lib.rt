//! Spans of numbers: which spans of a list are the first ones that others meet.
#![tactic(auto)]

mod block;
pub mod laws;
mod levels;
mod search;
mod set;
mod span;

pub use crate::search::first_met;
pub use crate::set::SpanSet;
pub use crate::span::Span;
