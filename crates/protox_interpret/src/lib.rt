//! What the statements of an options message set, in bytes.
//!
//! In a file as `parse` answers it an options message holds statements: names and values that
//! nobody has looked at. In linked files each name leads to a field, and each value is one of the
//! field's type. `interpret` reads them so, and gives the bytes of the options message.
#![tactic(auto)]

mod braces;
mod fault;
mod fields;
mod inside;
mod options;
mod setting;
mod site;
mod statement;
mod work;

pub use crate::fault::{InterpretFailure, StatementFault, StatementFaultKind};
pub use crate::options::interpret;
pub use crate::site::{Interpreted, SetPath, Site};
