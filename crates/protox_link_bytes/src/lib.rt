//! From the names and sources of files to the bytes of a linked set of them.
#![tactic(auto)]

mod failure;
mod linking;
mod parsing;
mod spelling;

pub use crate::failure::{LinkBytesFailure, LinkSourcesFailure};
pub use crate::linking::{link_sources, link_to_bytes};
pub use protox_link_records::SourceFile;
