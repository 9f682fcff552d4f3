//! Names of a message's fields, or of an enum's values, that are the same where languages spell them
//! in their own way. In proto3 they are faults.
//!
//! Parts are named by their index: the field or value at this place, from 0. The time grows with
//! n log n for names of n bytes in all, whatever they are.
#![tactic(auto)]

mod fields;
mod keys;
mod prints;
mod same;
mod values;

pub use crate::fields::fields_alike;
pub use crate::values::values_alike;
