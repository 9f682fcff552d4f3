//! Descriptors in the text format of Protocol Buffers.
#![tactic(auto)]

pub mod descriptors;
mod each;
mod enums;
mod fields;
pub mod lines;
mod messages;
mod options;
mod services;
mod source_info;
mod values;
