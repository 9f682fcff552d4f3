//! The bytes of what statements of options set, in the wire format of Protocol Buffers.
#![tactic(auto)]

mod setting;
mod step;

pub use crate::setting::{prepend_setting, prepend_within};
pub use crate::step::Step;
