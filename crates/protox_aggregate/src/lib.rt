//! Messages in text format, read by the types of their fields: what they say, as steps through the
//! fields that are set.
#![tactic(auto)]

mod anys;
mod complete;
mod fault;
mod fields;
mod level;
mod names;
mod reader;
mod reading;
mod unsaid;
mod values;

pub use fault::{AggregateFailure, AggregateFault, AggregateFaultKind};
pub use fields::{is_group, wire_number};
pub use reading::entries_of;
