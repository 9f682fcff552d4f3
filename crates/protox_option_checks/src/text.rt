//! What is wrong, in protoc's words.

ghost use Rattle.std.specs.Prelude.{◌≡◌, IfOk, string_bytes};
ghost use Rattle.protox_name_tree.specs.Tree.{name_at};
ghost use Rattle.protox_option_checks.specs.Texts as words;

use crate::names::text_of;
use crate::{CheckFault, CheckFaultKind};
use protox_descriptor::descriptor::FileDescriptorProto;
use protox_descriptor::values::Text;
use protox_symbols::Symbols;
use std::alloc::{AllocError, Global};

// The full name with a number.
fn full_name(alloc: Global, symbols: &Symbols, number: usize) -> Result<Text, AllocError>
    ensures { IfOk result (λ made. made ≡ name_at symbols.now.names number) }
{
    let dotted = symbols.dotted(alloc, number)?;
    match dotted.as_str().strip_prefix('.') {
        Some(name) => Text::copy(alloc, name),
        None => Text::copy(alloc, ""),
    }
}

// The full name with a number; the empty text where there is no number.
fn name_of(alloc: Global, symbols: &Symbols, number: Option<usize>) -> Result<Text, AllocError>
    ensures { IfOk result (λ made. made ≡ words.name_of symbols.now number) }
{
    match number {
        Some(number) => full_name(alloc, symbols, number),
        None => Text::copy(alloc, ""),
    }
}

// The name of the file with a number.
fn file_name(files: &[FileDescriptorProto], number: usize) -> &str
    ensures { result.now ≡ words.file_name files.now number }
{
    match files.get(number) {
        Some(file) => text_of(file.name.as_ref()),
        None => "",
    }
}

// The text of what is always told in the same words.
fn fixed_text(kind: CheckFaultKind) -> &'static str
    ensures { result.now ≡ words.fixed_text kind }
{
    match kind {
        CheckFaultKind::Lazy => "[lazy = true] can only be specified for submessage fields.",
        CheckFaultKind::Packed => {
            "[packed = true] can only be specified for repeated primitive fields."
        }
        CheckFaultKind::MessageSetField => "MessageSets cannot have fields, only extensions.",
        CheckFaultKind::MessageSetExtension => {
            "Extensions of MessageSets must be optional messages."
        }
        CheckFaultKind::LiteExtension => {
            "Extensions to non-lite types can only be declared in non-lite files.  Note that you cannot extend a non-lite type to contain a lite type, but the reverse is allowed."
        }
        CheckFaultKind::MapValueEnum => "Enum value in map must define 0 as the first value.",
        CheckFaultKind::JsType => {
            "jstype is only allowed on int64, uint64, sint64, fixed64 or sfixed64 fields."
        }
        CheckFaultKind::ExtensionJsonName => {
            "option json_name is not allowed on extension fields."
        }
        CheckFaultKind::MessageSetInProto3 => "MessageSet is not supported in proto3.",
        CheckFaultKind::LiteService => {
            "Files with optimize_for = LITE_RUNTIME cannot define services unless you set both options cc_generic_services and java_generic_services to false."
        }
        CheckFaultKind::ClosedEnum { .. }
        | CheckFaultKind::SharedNumber { .. }
        | CheckFaultKind::LiteImport(_) => "",
    }
}

// The text of a field of a message whose type is an enum that isn't of proto3.
fn closed_enum_words(alloc: Global, of: &str, message: &str) -> Result<String, AllocError>
    ensures { IfOk result (λ text. string_bytes text ≡ words.closed_enum_words of.now message.now) }
{
    format!(in alloc;
        "Enum type \"{of}\" is not a proto3 enum, but is used in \"{message}\" which is a proto3 message type."
    )
}

// The text of such a field, where the enum and the message have these numbers.
fn closed_enum_text(
    alloc: Global,
    symbols: &Symbols,
    number: usize,
    message: Option<usize>,
) -> Result<String, AllocError>
    ensures { IfOk result (λ text. string_bytes text
        ≡ words.closed_enum_text symbols.now number message) }
{
    let of = full_name(alloc, symbols, number)?;
    let message = name_of(alloc, symbols, message)?;
    closed_enum_words(alloc, of.as_str(), message.as_str())
}

// The text of a value that has the number of another one.
fn shared_number_words(alloc: Global, value: &str, earlier: &str) -> Result<String, AllocError>
    ensures { IfOk result (λ text. string_bytes text
        ≡ words.shared_number_words value.now earlier.now) }
{
    format!(in alloc;
        "\"{value}\" uses the same enum value as \"{earlier}\". If this is intended, set 'option allow_alias = true;' to the enum definition."
    )
}

// The text of two values with one number, where the table has them by these numbers.
fn shared_number_text(
    alloc: Global,
    symbols: &Symbols,
    value: Option<usize>,
    earlier: Option<usize>,
) -> Result<String, AllocError>
    ensures { IfOk result (λ text. string_bytes text
        ≡ words.shared_number_text symbols.now value earlier) }
{
    let value = name_of(alloc, symbols, value)?;
    let earlier = name_of(alloc, symbols, earlier)?;
    shared_number_words(alloc, value.as_str(), earlier.as_str())
}

/// What is wrong, in protoc's words: a text of one line. `symbols` is the table of the files, and
/// the fault is one of `check_options`.
///
/// # Errors
/// `AllocError` where memory runs out.
///
/// ```
/// println!(rt; "{}", check_text(alloc, symbols, files, fault)?.as_str())?;
/// ```
pub fn check_text(
    alloc: Global,
    symbols: &Symbols,
    files: &[FileDescriptorProto],
    fault: &CheckFault,
) -> Result<String, AllocError>
    ensures { IfOk result (λ text. string_bytes text
        ≡ words.check_text symbols.now files.now fault.now.kind) }
{
    match fault.kind {
        CheckFaultKind::ClosedEnum { number, message } => {
            closed_enum_text(alloc, symbols, number, message)
        }
        CheckFaultKind::SharedNumber { value, earlier } => {
            shared_number_text(alloc, symbols, value, earlier)
        }
        CheckFaultKind::LiteImport(file) => {
            let name = file_name(files, file);
            format!(in alloc;
                "Files that do not use optimize_for = LITE_RUNTIME cannot import files which do use this option.  This file is not lite, but it imports \"{name}\" which is."
            )
        }
        kind => String::from_str(alloc, fixed_text(kind)),
    }
}
