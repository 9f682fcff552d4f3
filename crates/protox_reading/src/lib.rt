//! What a reader finds in the bytes of options. It has no code but laws.
#![tactic(auto)]

pub mod laws;
