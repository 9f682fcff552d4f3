//! The text of what is wrong with a text in braces.

ghost use Rattle.std.specs.Prelude.{◌≡◌, ℕ, List, IfOk, encode_utf8, map, option_map, string_bytes};
ghost use Rattle.std.specs.Option.{option_copied};
ghost use Rattle.protox_brace_text.specs.Steps as steps;
ghost use Rattle.protox_brace_text.specs.Texts as words;
ghost use Rattle.protox_interpret.specs.Braces.{IsCut};
ghost use Rattle.protox_text_format.specs.Spelling.{seen};

use crate::names::{field_name, full_name, in_brackets, oneof_name, written_name};
use crate::pieces::{all_printed, found_at};
use crate::steps::{before, item_at, last_name, next_pieces, own_pieces};
use crate::values::{enum_text, expected, value_text};
use protox_aggregate::{AggregateFault, AggregateFaultKind};
use protox_interpret::{Site, StatementFaultKind};
use protox_text_format::{
    Item, Piece, PieceFailure, TextFailure, TextFault, TextFaultKind, pieces, read,
};
use std::alloc::{AllocError, Global};

// What is told where a mark was wanted.
fn found_text(alloc: Global, wanted: &str, found: &str) -> Result<String, AllocError>
    ensures { IfOk result (λ text. string_bytes text ≡ words.found_text wanted.now found.now) }
{
    format!(in alloc; "Expected \"{wanted}\", found \"{found}\".")
}

fn is_not_text(alloc: Global, field: &str, what: &str, found: &str) -> Result<String, AllocError>
    ensures { IfOk result (λ text. string_bytes text ≡ words.is_not_text field.now what.now found.now) }
{
    format!(in alloc; "Field \"{field}\" is {what}, found \"{found}\".")
}

fn no_field(alloc: Global, message: &str, name: &str) -> Result<String, AllocError>
    ensures { IfOk result (λ text. string_bytes text ≡ words.no_field message.now name.now) }
{
    format!(in alloc; "Message type \"{message}\" has no field named \"{name}\".")
}

fn no_field_text(
    alloc: Global,
    here: Site<'_>,
    message: usize,
    step: &[Piece<'_>],
) -> Result<String, AllocError>
    ensures { IfOk result (λ text. string_bytes text
        ≡ words.no_field (words.full_name here.entry message) (steps.all_printed step.now)) }
{
    let message = full_name(alloc, here, message)?;
    let name = all_printed(alloc, step)?;
    no_field(alloc, message.as_str(), name.as_str())
}

fn no_extension(alloc: Global, message: &str, name: &str) -> Result<String, AllocError>
    ensures { IfOk result (λ text. string_bytes text ≡ words.no_extension message.now name.now) }
{
    format!(in alloc;
        "Extension \"{name}\" is not defined or is not an extension of \"{message}\"."
    )
}

fn no_extension_text(
    alloc: Global,
    here: Site<'_>,
    message: usize,
    step: &[Piece<'_>],
) -> Result<String, AllocError>
    ensures { IfOk result (λ text. string_bytes text ≡ words.no_extension
        (words.full_name here.entry message) (steps.all_printed (words.in_brackets step.now))) }
{
    let message = full_name(alloc, here, message)?;
    let name = all_printed(alloc, in_brackets(step))?;
    no_extension(alloc, message.as_str(), name.as_str())
}

fn again(alloc: Global, name: &str) -> Result<String, AllocError>
    ensures { IfOk result (λ text. string_bytes text ≡ words.again_text name.now) }
{
    format!(in alloc; "Non-repeated field \"{name}\" is specified multiple times.")
}

fn again_text(alloc: Global, step: &[Piece<'_>]) -> Result<String, AllocError>
    ensures { IfOk result (λ text. string_bytes text
        ≡ words.again_text (words.written_name step.now)) }
{
    let name = written_name(alloc, step)?;
    again(alloc, name.as_str())
}

fn along(alloc: Global, name: &str, other: &str, oneof: &str) -> Result<String, AllocError>
    ensures { IfOk result (λ text. string_bytes text ≡ words.along name.now other.now oneof.now) }
{
    format!(in alloc;
        "Field \"{name}\" is specified along with field \"{other}\", another member of oneof \"{oneof}\"."
    )
}

fn along_text(
    alloc: Global,
    here: Site<'_>,
    step: &[Piece<'_>],
    number: usize,
    other: usize,
) -> Result<String, AllocError>
    ensures { IfOk result (λ text. string_bytes text
        ≡ words.along_text here.entry (words.written_name step.now) number other) }
{
    let name = written_name(alloc, step)?;
    let oneof = oneof_name(alloc, here, number)?;
    along(alloc, name.as_str(), field_name(here, other), oneof)
}

fn unknown_type(alloc: Global, place: &str) -> Result<String, AllocError>
    ensures { IfOk result (λ text. string_bytes text ≡ words.unknown_type place.now) }
{
    format!(in alloc; "Could not find type \"{place}\" stored in google.protobuf.Any.")
}

fn unknown_type_text(alloc: Global, step: &[Piece<'_>]) -> Result<String, AllocError>
    ensures { IfOk result (λ text. string_bytes text
        ≡ words.unknown_type (steps.all_printed (words.in_brackets step.now))) }
{
    let place = all_printed(alloc, in_brackets(step))?;
    unknown_type(alloc, place.as_str())
}

fn missing_in_any(alloc: Global, message: &str) -> Result<String, AllocError>
    ensures { IfOk result (λ text. string_bytes text ≡ words.missing_in_any message.now) }
{
    format!(in alloc;
        "Value of type \"{message}\" stored in google.protobuf.Any has missing required fields"
    )
}

fn missing_in_any_text(alloc: Global, here: Site<'_>, message: usize) -> Result<String, AllocError>
    ensures { IfOk result (λ text. string_bytes text
        ≡ words.missing_in_any (words.full_name here.entry message)) }
{
    let message = full_name(alloc, here, message)?;
    missing_in_any(alloc, message.as_str())
}

// What is told of a step: its pieces, what is found where it begins, and the name of the field before
// it.
fn step_text(
    alloc: Global,
    here: Site<'_>,
    kind: AggregateFaultKind,
    step: &[Piece<'_>],
    found: &str,
    field: &str,
) -> Result<String, AllocError>
    ensures { IfOk result (λ text. string_bytes text
        ≡ words.step_text here.entry kind step.now found.now field.now) }
{
    match kind {
        AggregateFaultKind::NoField(message) => no_field_text(alloc, here, message, step),
        AggregateFaultKind::NoExtension(message) => no_extension_text(alloc, here, message, step),
        AggregateFaultKind::NoType => found_text(alloc, "]", "/"),
        AggregateFaultKind::NoColon => found_text(alloc, ":", found),
        AggregateFaultKind::NotRepeated => is_not_text(alloc, field, "not repeated", found),
        AggregateFaultKind::NotMessage => found_text(alloc, "{", found),
        AggregateFaultKind::NotScalar => is_not_text(alloc, field, "no message", found),
        AggregateFaultKind::WrongValue(scalar, fault) => {
            value_text(alloc, scalar.held(), fault, field, step)
        }
        AggregateFaultKind::WrongEnum(fault) => enum_text(alloc, fault, field, step),
        AggregateFaultKind::Again(_) => again_text(alloc, step),
        AggregateFaultKind::Along(number, other) => along_text(alloc, here, step, number, other),
        AggregateFaultKind::Missing(number) => {
            let name = field_name(here, number);
            format!(in alloc; "Message missing required fields: {name}")
        }
        AggregateFaultKind::Untyped => format!(in alloc; "Field \"{field}\" has no type."),
        AggregateFaultKind::Misplaced => format!(in alloc; "Unexpected \"{found}\"."),
        AggregateFaultKind::NoSlash => found_text(alloc, "/", "]"),
        AggregateFaultKind::UnknownType => unknown_type_text(alloc, step),
        AggregateFaultKind::AnyAgain => {
            String::from_str(alloc, "Non-repeated Any specified multiple times.")
        }
        AggregateFaultKind::MissingInAny(message) => missing_in_any_text(alloc, here, message),
    }
}

// What is wrong with a step, if there is one.
fn item_text(
    alloc: Global,
    here: Site<'_>,
    kind: AggregateFaultKind,
    item: Option<&Item<'_, '_>>,
    found: &str,
    field: &str,
) -> Result<String, AllocError>
    ensures { IfOk result (λ text. string_bytes text ≡ words.step_text here.entry kind
        (steps.own_pieces (option_map seen (option_copied item.entry))) found.now field.now) }
{
    match item {
        Some(item) => step_text(alloc, here, kind, own_pieces(*item), found, field),
        None => step_text(alloc, here, kind, &[], found, field),
    }
}

// What is wrong with the message that pieces spell by these steps.
fn fault_text(
    alloc: Global,
    here: Site<'_>,
    pieces: &[Piece<'_>],
    items: &[Item<'_, '_>],
    fault: AggregateFault,
) -> Result<String, AllocError>
    ensures { IfOk result (λ text. string_bytes text
        ≡ words.fault_text here.entry pieces.now (map seen items.now) fault) }
{
    let front = before(items, fault.step);
    let found = found_at(alloc, next_pieces(pieces, front), 0)?;
    let field = last_name(alloc, front)?;
    let item = item_at(items, fault.step);
    item_text(
        alloc,
        here,
        fault.kind,
        item,
        found.as_str(),
        field.as_str(),
    )
}

// The mark as a text.
fn mark_text(alloc: Global, mark: u8) -> Result<String, AllocError>
    ensures { IfOk result (λ text. string_bytes text ≡ encode_utf8 mark) }
{
    let mark = char::from(mark);
    format!(in alloc; "{mark}")
}

fn no_mark_text(alloc: Global, mark: u8, found: &str) -> Result<String, AllocError>
    ensures { IfOk result (λ text. string_bytes text
        ≡ words.found_text (encode_utf8 mark) found.now) }
{
    let mark = mark_text(alloc, mark)?;
    found_text(alloc, mark.as_str(), found)
}

// What is wrong with pieces that spell no message, where this is found.
fn form_text(alloc: Global, kind: TextFaultKind, found: &str) -> Result<String, AllocError>
    ensures { IfOk result (λ text. string_bytes text ≡ words.form_text kind found.now) }
{
    match kind {
        TextFaultKind::NoWord => expected(alloc, "identifier", found),
        TextFaultKind::NoMark(mark) => no_mark_text(alloc, mark, found),
        TextFaultKind::NoValue => expected(alloc, "a value", found),
        TextFaultKind::TooDeep => {
            String::from_str(alloc, "Messages stand in one another more than 100 deep.")
        }
    }
}

fn form_fault_text(
    alloc: Global,
    pieces: &[Piece<'_>],
    fault: TextFault,
) -> Result<String, AllocError>
    ensures { IfOk result (λ text. string_bytes text
        ≡ words.form_text fault.kind (steps.found_at pieces.now fault.piece)) }
{
    let found = found_at(alloc, pieces, fault.piece)?;
    form_text(alloc, fault.kind, found.as_str())
}

// What is wrong with pieces.
fn pieces_text(
    alloc: Global,
    here: Site<'_>,
    found: &[Piece<'_>],
    kind: &StatementFaultKind,
) -> Result<String, AllocError>
    ensures { (text : List ℕ) → IsCut text found.now → IfOk result (λ told.
        words.IsTold here.entry text kind.now (string_bytes told)) }
{
    match read(alloc, found) {
        Ok(items) => match kind {
            StatementFaultKind::Aggregate(fault) => {
                fault_text(alloc, here, found, items.as_slice(), *fault)
            }
            _ => Ok(String::new(alloc)),
        },
        Err(TextFailure::Fault(fault)) => form_fault_text(alloc, found, fault),
        Err(TextFailure::OutOfMemory) => Err(AllocError),
    }
}

/// What is wrong with the text in braces of a statement, as protoc tells it. `here` is where the
/// statement stands, `text` what is in the braces, and `kind` the fault that `interpret` found there.
///
/// Where the text has something that is no token, or its tokens spell no message, the fault isn't
/// looked at. Of a fault that isn't one of a message the answer is the empty text.
///
/// # Errors
/// `AllocError` where memory runs out.
///
/// ```
/// let text = brace_text(alloc, here, "nope: 1", &fault.kind)?;
/// // Message type "shop.Item" has no field named "nope".
/// ```
pub fn brace_text(
    alloc: Global,
    here: Site<'_>,
    text: &str,
    kind: &StatementFaultKind,
) -> Result<String, AllocError>
    ensures { IfOk result (λ told. words.IsTold here.entry text.now kind.now (string_bytes told)) }
{
    match pieces(alloc, text) {
        Ok(found) => pieces_text(alloc, here, found.as_slice(), kind),
        Err(PieceFailure::Fault(_)) => String::from_str(alloc, "Invalid token."),
        Err(PieceFailure::OutOfMemory) => Err(AllocError),
    }
}
