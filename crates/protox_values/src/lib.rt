//! What the statement of an option says, by the type of the option's field: the value of the field,
//! as it lies on the wire, or why the statement's value is none of the type. The words of a fault
//! are protoc's.
#![tactic(auto)]

mod enums;
mod fault;
mod integers;
mod laws;
mod numbers;
mod setting;
mod statement;
mod text;
mod types;

pub use crate::enums::enum_value;
pub use crate::fault::{EnumFault, ValueFailure, ValueFault};
pub use crate::laws::{enums_read_back, scalars_read_back};
pub use crate::setting::SettingValue;
pub use crate::statement::scalar_value;
pub use crate::text::{EnumFaultText, FaultText};
pub use crate::types::{Held, ScalarType};
