//! The texts of faults, in protoc's words.

ghost use Rattle.std.specs.Prelude.{◌≡◌};
ghost use Rattle.protox_values.specs.Texts.{lack, told_name};

use crate::fault::{EnumFault, ValueFault};
use crate::types::{Held, ScalarType};
use std::fmt;

// What is wrong, as the text of a fault begins.
fn lack(fault: ValueFault) -> &'static str
    ensures { result.now ≡ lack fault }
{
    match fault {
        ValueFault::OutOfRange => "out of range",
        ValueFault::NotInteger => "must be integer",
        ValueFault::NotNonNegative => "must be non-negative integer",
        ValueFault::NotNumber => "must be number",
        ValueFault::NotIdentifier => "must be identifier",
        ValueFault::NotTruth => "must be \"true\" or \"false\"",
        ValueFault::NotString => "must be quoted string",
    }
}

// Which of the option's names the text of a fault has. protoc tells the short one of a number that
// is too great for 32 bits without a sign.
fn told_name<'a>(fault: ValueFault, of: Held, full_name: &'a str, name: &'a str) -> &'a str
    ensures { result.now ≡ told_name fault of full_name.now name.now }
{
    match fault {
        ValueFault::OutOfRange => match of {
            Held::Uint32 => name,
            _ => full_name,
        },
        _ => full_name,
    }
}

/// A fault of a statement that sets an option of a scalar type. Display writes protoc's text.
#[derive(Clone, Copy)]
pub struct FaultText<'a> {
    /// The fault.
    pub fault: ValueFault,
    /// The type of the option's field.
    pub scalar: ScalarType,
    /// The full name of the option's field, with no dot in front.
    pub full_name: &'a str,
    /// The name of the option's field: the last part of the full name.
    pub name: &'a str,
}

impl fmt::Display for FaultText<'_> {
    ghost use Rattle.std.specs.Prelude.{Some};
    ghost use Rattle.protox_values.specs.Texts.{fault_text};

    ghost output = { λ text. Some (fault_text text.fault text.scalar text.full_name.now text.name.now) };

    fn fmt<W: fmt::Write>(&self, f: &mut fmt::Formatter<W>) -> fmt::Result {
        let held = self.scalar.held();
        let name = told_name(self.fault, held, self.full_name, self.name);
        let lacking = lack(self.fault);
        let word = held.word();
        write!(f, "Value {lacking} for {word} option \"{name}\".")
    }
}

/// A fault of a statement that sets an option whose type is an enum. Display writes protoc's text.
#[derive(Clone, Copy)]
pub struct EnumFaultText<'a> {
    /// The fault.
    pub fault: EnumFault,
    /// The full name of the enum, with no dot in front.
    pub of: &'a str,
    /// The name that the statement gives for a value.
    pub value: &'a str,
    /// The full name of the option's field, with no dot in front.
    pub full_name: &'a str,
}

impl fmt::Display for EnumFaultText<'_> {
    ghost use Rattle.std.specs.Prelude.{Some};
    ghost use Rattle.protox_values.specs.Texts.{enum_fault_text};

    ghost output = { λ text. Some (enum_fault_text text.fault text.of.now text.value.now text.full_name.now) };

    fn fmt<W: fmt::Write>(&self, f: &mut fmt::Formatter<W>) -> fmt::Result {
        let EnumFaultText {
            of,
            value,
            full_name,
            ..
        } = *self;
        match self.fault {
            EnumFault::NotIdentifier => {
                write!(
                    f,
                    "Value must be identifier for enum-valued option \"{full_name}\"."
                )
            }
            EnumFault::NoSuchValue => write!(
                f,
                "Enum type \"{of}\" has no value named \"{value}\" for option \"{full_name}\"."
            ),
        }
    }
}
