//! Marks for numbers.
//!
//! `Marks` has a bit for each number below a count. `FewMarks` holds no more than the words in which
//! some bit is set, for marks of which there are many sets with few numbers each.
#![tactic(auto)]

mod few;
mod marks;

pub use crate::few::FewMarks;
pub use crate::marks::Marks;
