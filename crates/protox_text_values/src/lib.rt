//! What a value in text format says, by the type of the field that has it: the value of the field,
//! as it lies on the wire, or why the value is none of the type.
#![tactic(auto)]

mod enums;
mod fault;
mod floats;
mod numbers;
mod scalars;
mod statements;
mod truths;

pub use enums::enum_in_text;
pub use fault::{TextEnumFault, TextValueFailure};
pub use scalars::scalar_in_text;
