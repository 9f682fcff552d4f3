//! Why a value in text format is none of a type.

use protox_values::ValueFault;

/// Why there is no answer about a value in text format.
#[derive(Clone, Copy, PartialEq, Debug)]
pub enum TextValueFailure {
    /// The value is none of the type.
    Fault(ValueFault),
    /// Memory ran out.
    OutOfMemory,
}

/// Why a value in text format is none of an enum.
#[derive(Clone, Copy, PartialEq, Debug)]
pub enum TextEnumFault {
    /// The value is neither a word nor an integer.
    NotValue,
    /// An integer is beyond the limits of 32 bits.
    OutOfRange,
    /// The enum has no value of this name, or of this number.
    NoSuchValue,
}
