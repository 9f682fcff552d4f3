//! The messages of descriptor.proto as a parser fills them in, the texts and lists in them, the
//! field numbers of the messages, and the rules for names.
#![tactic(auto)]

pub mod case;
pub mod descriptor;
pub mod laws;
pub mod literal;
pub mod printed;
pub mod tag;
pub mod uninterpreted;
pub mod values;
