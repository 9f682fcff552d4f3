//! The texts of faults, in protoc's words.

ghost use Rattle.std.specs.Prelude.{◌≡◌};

use crate::fault::NameFaultKind;
use protox_descriptor::descriptor::uninterpreted_option::NamePart;
use protox_descriptor::printed::WrittenName;
use std::fmt;

/// What is wrong with the name of an option. Display writes protoc's text. (Where the first part of
/// a name in parentheses is found in a scope, and the others aren't in it, protoc tells that scope.)
#[derive(Clone, Copy)]
pub struct NameFaultText<'a> {
    /// What is wrong.
    pub kind: NameFaultKind,
    /// The parts of the name up to the one that is wrong.
    pub name: &'a [NamePart],
    /// The own name of the message that this part is looked for in.
    pub message: &'a str,
}

impl fmt::Display for NameFaultText<'_> {
    ghost use Rattle.std.specs.Prelude.{Some};
    ghost use Rattle.protox_settings.specs.Texts.{name_fault_text};

    ghost output = { λ text. Some (name_fault_text text.kind text.name.now text.message.now) };

    fn fmt<W: fmt::Write>(&self, f: &mut fmt::Formatter<W>) -> fmt::Result {
        let name = WrittenName(self.name);
        let message = self.message;
        match self.kind {
            NameFaultKind::NoName => f.write_str("Option must have a name."),
            NameFaultKind::Reserved => {
                f.write_str("Option must not use reserved name \"uninterpreted_option\".")
            }
            NameFaultKind::Unknown => write!(
                f,
                "Option \"{name}\" unknown. Ensure that your proto definition file imports the proto which defines the option."
            ),
            NameFaultKind::OfOtherMessage(_) => write!(
                f,
                "Option field \"{name}\" is not a field or extension of message \"{message}\"."
            ),
            NameFaultKind::NotAMessage => {
                write!(f, "Option \"{name}\" is an atomic type, not a message.")
            }
            NameFaultKind::Repeated => write!(
                f,
                "Option field \"{name}\" is a repeated message. Repeated message options must be initialized using an aggregate value."
            ),
        }
    }
}

/// What is wrong with a value that isn't in braces, where the type of the option's field is a
/// message. Display writes protoc's text.
#[derive(Clone, Copy)]
pub struct NotInBracesText<'a> {
    /// The full name of the option's field, with no dot in front.
    pub full_name: &'a str,
    /// The name of the option's field: the last part of the full name.
    pub name: &'a str,
}

impl fmt::Display for NotInBracesText<'_> {
    ghost use Rattle.std.specs.Prelude.{Some};
    ghost use Rattle.protox_settings.specs.Texts.{not_in_braces_text};

    ghost output = { λ text. Some (not_in_braces_text text.full_name.now text.name.now) };

    fn fmt<W: fmt::Write>(&self, f: &mut fmt::Formatter<W>) -> fmt::Result {
        let NotInBracesText { full_name, name } = *self;
        write!(
            f,
            "Option \"{full_name}\" is a message. To set the entire message, use syntax like \"{name} = {{ <proto text format> }}\". To set fields within it, use syntax like \"{name}.foo = value\"."
        )
    }
}
