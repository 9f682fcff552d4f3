//! The bytes of a message, of which it is told step by step what it holds.
#![tactic(auto)]

mod entry;
mod field;
mod message;

pub use entry::Entry;
pub use field::{Field, in_order};
pub use message::message_bytes;
