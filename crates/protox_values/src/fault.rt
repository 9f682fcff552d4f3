//! Why a statement's value is none of a type.

ghost use Rattle.protox_values.specs.declared.fault.ValueFailure.TheVariants.{OutOfMemory};
ghost use Rattle.std.specs.Prelude.{◌≡◌};

use std::alloc::AllocError;

/// Why a statement's value is none of a scalar type. `FaultText` shows protoc's words.
#[derive(Clone, Copy, PartialEq, Debug)]
pub enum ValueFault {
    /// An integer is beyond the limits of the type.
    OutOfRange,
    /// The type holds integers, and the value is none.
    NotInteger,
    /// The type holds integers without a sign, and the value is none.
    NotNonNegative,
    /// The type holds floats, and the value is no number.
    NotNumber,
    /// The type holds truth values, and the value is no identifier.
    NotIdentifier,
    /// The type holds truth values, and the identifier is neither `true` nor `false`.
    NotTruth,
    /// The type holds texts or bytes, and the value is no string.
    NotString,
}

/// Why a statement's value is none of an enum. `EnumFaultText` shows protoc's words.
#[derive(Clone, Copy, PartialEq, Debug)]
pub enum EnumFault {
    /// The value is no identifier.
    NotIdentifier,
    /// The enum has no value of this name.
    NoSuchValue,
}

/// Why there is no answer about a statement.
#[derive(Clone, Copy, PartialEq, Debug)]
pub enum ValueFailure {
    /// The statement's value is none of the type.
    Fault(ValueFault),
    /// Memory ran out.
    OutOfMemory,
}

impl From<AllocError> for ValueFailure {
    ghost from_gives = { λ _ e. e ≡ OutOfMemory };

    fn from(_e: AllocError) -> ValueFailure {
        ValueFailure::OutOfMemory
    }
}
