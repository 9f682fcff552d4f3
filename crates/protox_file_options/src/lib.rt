//! All options messages of a file.
//!
//! In a file as `parse` answers it an options message holds statements: names and values that
//! nobody has looked at. `interpret_file` reads those of a linked file. It gives the bytes of each
//! options message, by its path, and says where the locations of the statements go.
#![tactic(auto)]

mod answer;
mod file;
mod interpreter;
pub mod laws;
mod moves;
mod places;
mod walking;

pub use crate::answer::{InterpretedFile, OptionsFault, PlaceFault};
pub use crate::file::interpret_file;
pub use crate::walking::{TakePlaces, walk_places};
