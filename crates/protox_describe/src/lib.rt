//! The descriptor of a syntax tree, without locations.
#![tactic(auto)]

mod enums;
mod fields;
pub mod file;
mod head;
mod items;
mod messages;
mod options;
mod ranges;
mod services;
mod values;
