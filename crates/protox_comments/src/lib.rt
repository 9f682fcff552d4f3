//! Comments: their places, and the declarations to which they belong.
#![tactic(auto)]

pub mod comments;
pub mod remarks;
pub mod sides;
