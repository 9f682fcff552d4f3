//! Which numbers and ranges of a message or an enum clash, as protobuf's rules say.
//!
//! Parts are named by their index: the field, value or range at this place, from 0. The time grows
//! with n log² n for n parts, whatever they are.
#![tactic(auto)]

mod clash;
mod enums;
mod message;
mod part;
mod span;

pub use crate::clash::{Clash, with_earlier};
pub use crate::enums::{begins_with_zero, overlapping_enum_ranges, values_in_reserved_ranges};
pub use crate::message::{
    extension_ranges_in_reserved, fields_in_extension_ranges, fields_in_reserved_ranges,
    overlapping_extension_ranges, overlapping_reserved_ranges, reused_numbers,
};
pub use crate::part::{
    is_backward_enum_range, is_empty_extension_range, is_empty_reserved_range,
    is_for_implementation,
};
pub use crate::span::{of_extension_range, single};
