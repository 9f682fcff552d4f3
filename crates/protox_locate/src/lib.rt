//! The location in the source of each part of a file.
#![tactic(auto)]

mod context;
mod declarations;
mod defaults;
mod enums;
mod fields;
pub mod file;
mod imports;
mod items;
mod lists;
mod location_list;
mod messages;
mod options;
mod ranges;
mod services;
