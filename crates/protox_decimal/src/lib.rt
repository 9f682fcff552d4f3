//! The texts of floats as protobuf's C++ prints them, for one as the defaults of fields. There are
//! two numbers of digits, and the smaller one is taken where a reader finds the same float again.
#![tactic(auto)]

mod big;
mod digits;
mod general;
mod layout;
mod scale;
mod size;
mod text;

pub use crate::text::{double_text, float_text};
