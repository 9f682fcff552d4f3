//! How text from a source is shown on a line of a terminal. A terminal doesn't act on anything in
//! it, and nothing in it is invisible.
#![tactic(auto)]

pub mod line;
pub mod shown;
