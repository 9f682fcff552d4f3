//! From the names and sources of files to the bytes of a linked set of them, in which options are
//! read.
#![tactic(auto)]

mod linking;
mod spelling;

pub use crate::linking::link_with_options;
pub use protox_link_bytes::{LinkBytesFailure, SourceFile};
