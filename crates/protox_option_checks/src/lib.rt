//! What is wrong with linked files once their options are read: what standard options ask of what
//! has them, as protoc checks it.
#![tactic(auto)]

mod adding;
mod checker;
mod enums;
mod fault;
mod fields;
mod files;
mod imports;
mod maps;
mod marks;
mod messages;
mod names;
mod site;
mod statements;
mod text;
mod types;

pub use crate::fault::{CheckFault, CheckFaultKind};
pub use crate::files::check_options;
pub use crate::text::check_text;
