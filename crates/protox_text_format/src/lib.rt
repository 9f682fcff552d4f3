//! The text format of Protocol Buffers, as it stands in the braces of an option: its tokens, and
//! the fields, values, lists and messages that they spell.
#![tactic(auto)]

mod cutting;
mod fault;
mod item;
mod marks;
mod names;
mod reading;
mod scalars;

pub use cutting::pieces;
pub use fault::{PieceFailure, TextFailure, TextFault, TextFaultKind};
pub use item::{Item, Piece};
pub use reading::{LEVELS, read};
