//! What is wrong with the names of a set of files, in the order of their parts.
#![tactic(auto)]

mod bare;
mod defaults;
mod each;
mod empty;
mod extended;
mod extensions;
mod file;
mod file_view;
mod imports;
mod itself;
mod name;
mod numbers;
mod package;
mod parts;
mod proto3;
mod ranges;
mod reserved;
mod uses;

pub use crate::extended::check_extensions;
pub use crate::extensions::{Extension, extensions_of};
pub use crate::file::{check_file, check_names};
pub use crate::ranges::Ranges;
