//! Which file of a list imports which, the order in which imports come first, and what a file sees.
//!
//! A file is named by its number: its index in the list.
#![tactic(auto)]

mod imports;
pub mod laws;
mod names;
mod passes;
mod row;
mod rows;
mod seen;
mod sorted;
mod walk;

pub use imports::Imports;
pub use passes::Passes;
pub use row::FileImports;
pub use seen::sees;
pub use sorted::{Order, in_order};
