//! Descriptors as bytes, in the wire format of Protocol Buffers.
#![tactic(auto)]

pub mod backward;
mod fault;
mod file;
mod floats;
pub mod laws;
mod locations;
mod messages;
mod options;
mod pooled;
pub mod wire;

pub use fault::EncodeError;
pub use file::{encode, encode_entry, encode_over, encode_pooled, encode_pooled_entry, encode_set};
