//! Why a statement of an option sets nothing.

ghost use Rattle.protox_settings.specs.declared.fault.NameFailure.TheVariants.{OutOfMemory};
ghost use Rattle.std.specs.Prelude.{◌≡◌};

use protox_values::{EnumFault, ScalarType, ValueFault};
use std::alloc::AllocError;

/// Why the name of an option leads to no field.
#[derive(Clone, Copy, PartialEq, Debug)]
pub enum NameFaultKind {
    /// The name has no part.
    NoName,
    /// The name begins with `uninterpreted_option`, which isn't set by statements.
    Reserved,
    /// The part stands for no field, or for none that the file sees.
    Unknown,
    /// The part stands for a field of another message than the one with this number.
    OfOtherMessage(usize),
    /// Further parts follow, and the type of the part's field is no message.
    NotAMessage,
    /// Further parts follow, and the part's field is repeated.
    Repeated,
}

/// What is wrong with the name of an option, and at which of its parts.
#[derive(Clone, Copy, PartialEq, Debug)]
pub struct NameFault {
    /// The index of the part, from 0.
    pub part: usize,
    /// What is wrong with it.
    pub kind: NameFaultKind,
}

/// Why there is no answer about a name.
#[derive(Clone, Copy, PartialEq, Debug)]
pub enum NameFailure {
    /// The name leads to no field.
    Fault(NameFault),
    /// Memory ran out.
    OutOfMemory,
}

impl From<AllocError> for NameFailure {
    ghost from_gives = { λ _ e. e ≡ OutOfMemory };

    fn from(_e: AllocError) -> NameFailure {
        NameFailure::OutOfMemory
    }
}

/// What is wrong with the value of a statement.
#[derive(Clone, Copy, PartialEq, Debug)]
pub enum SettingFault {
    /// The option's field has this scalar type, and the value is none of it.
    WrongValue(ScalarType, ValueFault),
    /// The type of the option's field is an enum, and the value is none of it.
    WrongEnum(EnumFault),
    /// The type of the option's field is a message, and the value is no text in braces.
    NotInBraces,
    /// The option's field has no type. In linked files each field has one.
    Untyped,
}

/// Why there is no answer about the value of a statement.
#[derive(Clone, Copy, PartialEq, Debug)]
pub enum SettingFailure {
    /// The value is wrong.
    Fault(SettingFault),
    /// Memory ran out.
    OutOfMemory,
}
