//! The text of what is wrong.

ghost use Rattle.std.specs.Prelude.{◌≡◌, IfOk, string_bytes};
ghost use Rattle.protox_option_text.specs.Texts as words;

use crate::names::{full_name, last_field, other_message, text_of, without_dot};
use protox_descriptor::descriptor::{FieldDescriptorProto, UninterpretedOption};
use protox_interpret::{Site, StatementFaultKind};
use protox_settings::{NameFault, NameFaultText, NotInBracesText, SettingFault, field_numbered};
use protox_values::{EnumFaultText, FaultText};
use std::alloc::{AllocError, Global};

// What is wrong with a name.
fn name_text(
    alloc: Global,
    here: Site<'_>,
    statement: &UninterpretedOption,
    fault: NameFault,
) -> Result<String, AllocError>
    ensures { IfOk result (λ text. string_bytes text ≡ words.name_text here.entry statement.now fault) }
{
    let parts = statement.name.as_slice();
    let text = NameFaultText {
        kind: fault.kind,
        name: &parts[..parts.len().min(fault.part.saturating_add(1))],
        message: other_message(here, fault.kind),
    };
    format!(in alloc; "{text}")
}

// What is wrong with the value that a statement gives a field with this full name.
fn value_text(
    alloc: Global,
    statement: &UninterpretedOption,
    field: &FieldDescriptorProto,
    full_name: &str,
    fault: SettingFault,
) -> Result<String, AllocError>
    ensures { IfOk result (λ text. string_bytes text
        ≡ words.value_text statement.now field.now full_name.now fault) }
{
    let name = text_of(field.name.as_ref());
    match fault {
        SettingFault::WrongValue(scalar, fault) => {
            let text = FaultText {
                fault,
                scalar,
                full_name,
                name,
            };
            format!(in alloc; "{text}")
        }
        SettingFault::WrongEnum(fault) => {
            let text = EnumFaultText {
                fault,
                of: without_dot(text_of(field.type_name.as_ref())),
                value: text_of(statement.identifier_value.as_ref()),
                full_name,
            };
            format!(in alloc; "{text}")
        }
        SettingFault::NotInBraces => {
            let text = NotInBracesText { full_name, name };
            format!(in alloc; "{text}")
        }
        SettingFault::Untyped => format!(in alloc; "Option \"{full_name}\" has no type."),
    }
}

// What is wrong with a text in braces, or with another value, of a field.
fn field_text(
    alloc: Global,
    here: Site<'_>,
    statement: &UninterpretedOption,
    number: usize,
    field: &FieldDescriptorProto,
    kind: &StatementFaultKind,
) -> Result<String, AllocError>
    ensures { IfOk result (λ text. string_bytes text
        ≡ words.field_text here.entry statement.now number field.now kind.now) }
{
    if let StatementFaultKind::Value(fault) = kind {
        let full_name = full_name(alloc, here, number)?;
        return value_text(alloc, statement, field, full_name.as_str(), *fault);
    }
    let name = text_of(field.name.as_ref());
    format!(in alloc; "Error while parsing option value for \"{name}\"")
}

// What is wrong with what a statement gives a field, if its name leads to one.
fn given_text(
    alloc: Global,
    here: Site<'_>,
    statement: &UninterpretedOption,
    last: Option<usize>,
    kind: &StatementFaultKind,
) -> Result<String, AllocError>
    ensures { IfOk result (λ text. string_bytes text
        ≡ words.given_text here.entry statement.now last kind.now) }
{
    let Some(number) = last else {
        return Ok(String::new(alloc));
    };
    match field_numbered(here.view.symbols, here.files, number) {
        Some(field) => field_text(alloc, here, statement, number, field, kind),
        None => Ok(String::new(alloc)),
    }
}

/// The text of what is wrong with a statement, as protoc has it. Of a text in braces it doesn't tell
/// what is wrong there.
///
/// # Errors
/// `AllocError` where memory runs out.
pub fn statement_text(
    alloc: Global,
    here: Site<'_>,
    statement: &UninterpretedOption,
    kind: &StatementFaultKind,
) -> Result<String, AllocError>
    ensures { IfOk result (λ text. string_bytes text
        ≡ words.statement_text here.entry statement.now kind.now) }
{
    match kind {
        StatementFaultKind::Name(fault) => name_text(alloc, here, statement, *fault),
        StatementFaultKind::AlreadySet => {
            let name = statement.written_name();
            format!(in alloc; "Option \"{name}\" was already set.")
        }
        _ => {
            let last = last_field(alloc, here, statement)?;
            given_text(alloc, here, statement, last, kind)
        }
    }
}
