//! What the options of linked files set, or what is wrong with them, as bytes that a program in any
//! language can read.
//!
//! A record is that of `protox_link_records`. Its kind is told by a number of its own.
#![tactic(auto)]

mod checks;
mod files;
pub mod kinds;
mod record;
mod teller;
mod text;

pub use crate::checks::check_records;
pub use crate::files::{ReadOptions, read_options};
