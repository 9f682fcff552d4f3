//! Reads declarations: options with their values and lists; ranges, enums and services; and what
//! recurses, fields, groups, oneofs, extends and messages, up to a limit of levels.
#![tactic(auto)]

mod around;
mod begins;
pub mod bodies;
pub mod enums;
mod fields;
pub mod options;
mod parts;
pub mod ranges;
pub mod services;
mod values;
