//! Why a message in text format says nothing.

use protox_text_values::TextEnumFault;
use protox_values::{ScalarType, ValueFault};

/// What is wrong with a step through a message.
#[derive(Clone, Copy, PartialEq, Debug)]
pub enum AggregateFaultKind {
    /// The message with this number has no field of this name.
    NoField(usize),
    /// The name in brackets is that of no extension of the message with this number.
    NoExtension(usize),
    /// The name in brackets has a slash, which only a message `Any` takes.
    NoType,
    /// No colon stands before a value that is no message.
    NoColon,
    /// The field is not repeated, and a list of values stands there.
    NotRepeated,
    /// The type of the field is a message, and another value stands there.
    NotMessage,
    /// The type of the field is no message, and a message stands there.
    NotScalar,
    /// The field has this scalar type, and the value is none of it.
    WrongValue(ScalarType, ValueFault),
    /// The type of the field is an enum, and the value is none of it.
    WrongEnum(TextEnumFault),
    /// The field with this number isn't repeated, and has a value already.
    Again(usize),
    /// The field with the first number is of a oneof of which the one with the second has a value
    /// already.
    Along(usize, usize),
    /// The whole message ends, and the field with this number has no value, which that message
    /// needs, or one in it.
    Missing(usize),
    /// The field has no type. In linked files each field has one.
    Untyped,
    /// The step stands where no message can have it.
    Misplaced,
    /// The name in brackets has no slash, and stands in a message `Any`.
    NoSlash,
    /// The name in brackets, in a message `Any`, is that of no message that the file sees, or its
    /// domain is another one than protobuf's.
    UnknownType,
    /// The message `Any` has the name of a type or a value already.
    AnyAgain,
    /// The value of an `Any` ends, and a field has no value, which that needs, or a message in it.
    /// The type of the value has this number.
    MissingInAny(usize),
}

/// What is wrong with a message, and at which of the steps through it.
#[derive(Clone, Copy, PartialEq, Debug)]
pub struct AggregateFault {
    /// The index of the step, from 0. At the end of the whole message it is their number.
    pub step: usize,
    /// What is wrong with it.
    pub kind: AggregateFaultKind,
}

/// Why there is no answer about a message.
#[derive(Clone, Copy, PartialEq, Debug)]
pub enum AggregateFailure {
    /// The message says nothing.
    Fault(AggregateFault),
    /// Memory ran out.
    OutOfMemory,
}
