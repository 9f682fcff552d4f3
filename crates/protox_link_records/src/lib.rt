//! What is wrong with the files of a list, as bytes that a program in any language can read.
//!
//! A record is that of `protox_records`, with the number of its file in front. Faults of syntax and
//! errors of linking have the same form.
#![tactic(auto)]

pub mod kinds;
pub mod laws;
mod lines;
mod parts;
mod places;
mod record;
mod records;
mod search;
mod source;
mod syntax;
mod told;

pub use crate::lines::{SourceLines, lines_of};
pub use crate::places::{Place, no_place};
pub use crate::record::push_record;
pub use crate::records::link_records;
pub use crate::search::place_in;
pub use crate::source::SourceFile;
pub use crate::syntax::push_syntax_records;
