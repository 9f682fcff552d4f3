//! What the statement of an option sets: each part of its name leads to a field, from the message of
//! options on, and its value is one of the type of the last field.
#![tactic(auto)]

mod enums;
mod fault;
mod fields;
mod messages;
mod names;
mod setting;
mod text;

pub use crate::enums::{enum_numbered, values_named};
pub use crate::fault::{NameFailure, NameFault, NameFaultKind, SettingFailure, SettingFault};
pub use crate::fields::{field_numbered, is_of, is_repeated, message_of_type};
pub use crate::messages::message_numbered;
pub use crate::names::fields_of;
pub use crate::setting::{Said, field_said, type_numbered};
pub use crate::text::{NameFaultText, NotInBracesText};
