//! What a value says to a field.

ghost use Rattle.std.specs.Prelude.{◌≡◌, Err, IfErr, IfOk, Ok, if◌then◌else◌};
ghost use Rattle.protox_aggregate.specs.Unsaid.{IfUnsaid};
ghost use Rattle.protox_aggregate.specs.Aggregates as aggregates;
ghost use Rattle.protox_aggregate.specs.Values as words;
ghost use Rattle.protox_text_values.specs.Enums.{enum_says_in_text};
ghost use Rattle.protox_text_values.specs.Scalars.{says_in_text, shapes_of};
ghost use Rattle.protox_values.specs.Types.{scalar_of};
ghost use Rattle.protox_settings.specs.Fields.{values_named as values_of};
ghost use Rattle.protox_settings.specs.Settings.{type_numbered as type_of_number};
ghost use Rattle.std.specs.Option.{option_and_then};

use crate::fault::AggregateFaultKind;
use crate::fields::is_in_proto3;
use crate::level::Named;
use crate::unsaid::Unsaid;
use protox_descriptor::descriptor::field_descriptor_proto::FieldType;
use protox_descriptor::descriptor::{FieldDescriptorProto, FileDescriptorProto};
use protox_settings::{is_repeated, message_of_type, type_numbered, values_named};
use protox_symbols::Symbols;
use protox_text_format::Piece;
use protox_text_values::{TextValueFailure, enum_in_text, scalar_in_text};
use protox_values::{ScalarType, SettingValue};
use std::alloc::Global;

fn scalar_said(
    alloc: Global,
    pieces: &[Piece<'_>],
    scalar: ScalarType,
) -> Result<SettingValue, Unsaid>
    ensures said { IfOk result (λ value. words.scalar_said scalar
        (says_in_text scalar (shapes_of pieces.now)) ≡ Ok value) }
    ensures fault { IfErr result (λ unsaid. IfUnsaid unsaid (λ kind. words.scalar_said scalar
        (says_in_text scalar (shapes_of pieces.now)) ≡ Err kind)) }
{
    match scalar_in_text(alloc, pieces, scalar) {
        Ok(value) => Ok(value),
        Err(TextValueFailure::Fault(wrong)) => {
            Err(Unsaid::Fault(AggregateFaultKind::WrongValue(scalar, wrong)))
        }
        Err(TextValueFailure::OutOfMemory) => Err(Unsaid::OutOfMemory),
    }
}

fn enum_said(
    symbols: &Symbols,
    files: &[FileDescriptorProto],
    field: &FieldDescriptorProto,
    is_open: bool,
    pieces: &[Piece<'_>],
) -> Result<SettingValue, AggregateFaultKind>
    ensures { result ≡ words.enum_said (enum_says_in_text is_open
        (values_of files.now symbols.now field.now.type_name) (shapes_of pieces.now)) }
{
    let values = values_named(symbols, files, field.type_name.as_ref());
    match enum_in_text(pieces, values, is_open) {
        Ok(value) => Ok(value),
        Err(wrong) => Err(AggregateFaultKind::WrongEnum(wrong)),
    }
}

fn compound_said(
    symbols: &Symbols,
    files: &[FileDescriptorProto],
    field: &FieldDescriptorProto,
    field_type: FieldType,
    is_open: bool,
    pieces: &[Piece<'_>],
) -> Result<SettingValue, AggregateFaultKind>
    ensures { result ≡ words.compound_said files.now symbols.now field.now is_open
        (shapes_of pieces.now) field_type }
{
    match field_type {
        FieldType::Enum => enum_said(symbols, files, field, is_open, pieces),
        _ => Err(AggregateFaultKind::NotMessage),
    }
}

fn settled(said: Result<SettingValue, AggregateFaultKind>) -> Result<SettingValue, Unsaid>
    ensures said { IfOk result (λ value. said ≡ Ok value) }
    ensures fault { IfErr result (λ unsaid. IfUnsaid unsaid (λ kind. said ≡ Err kind)) }
{
    match said {
        Ok(value) => Ok(value),
        Err(kind) => Err(Unsaid::Fault(kind)),
    }
}

fn said_by(
    alloc: Global,
    symbols: &Symbols,
    files: &[FileDescriptorProto],
    field: &FieldDescriptorProto,
    field_type: FieldType,
    is_open: bool,
    pieces: &[Piece<'_>],
) -> Result<SettingValue, Unsaid>
    ensures said { IfOk result (λ value. words.said_by files.now symbols.now field.now is_open
        (shapes_of pieces.now) field_type (scalar_of field_type) ≡ Ok value) }
    ensures fault { IfErr result (λ unsaid. IfUnsaid unsaid (λ kind. words.said_by files.now
        symbols.now field.now is_open (shapes_of pieces.now) field_type (scalar_of field_type)
        ≡ Err kind)) }
{
    match ScalarType::from_type(field_type) {
        Some(scalar) => scalar_said(alloc, pieces, scalar),
        None => settled(compound_said(symbols, files, field, field_type, is_open, pieces)),
    }
}

fn type_of(field: &FieldDescriptorProto) -> Option<FieldType>
    ensures { result ≡ option_and_then type_of_number field.now.field_type }
{
    match field.field_type {
        Some(number) => type_numbered(number),
        None => None,
    }
}

// What a value that is no message says to a field, on the wire. An open enum takes numbers that no
// value has.
fn value_said(
    alloc: Global,
    symbols: &Symbols,
    files: &[FileDescriptorProto],
    field: &FieldDescriptorProto,
    is_open: bool,
    pieces: &[Piece<'_>],
) -> Result<SettingValue, Unsaid>
    ensures said { IfOk result (λ value. words.value_said files.now symbols.now field.now is_open
        (shapes_of pieces.now) ≡ Ok value) }
    ensures fault { IfErr result (λ unsaid. IfUnsaid unsaid (λ kind. words.value_said files.now
        symbols.now field.now is_open (shapes_of pieces.now) ≡ Err kind)) }
{
    match type_of(field) {
        Some(field_type) => { said_by(alloc, symbols, files, field, field_type, is_open, pieces) }
        None => Err(Unsaid::Fault(AggregateFaultKind::Untyped)),
    }
}

/// What a value says that is no message. The enums of a message of proto3 are open.
pub(crate) fn value_of(
    alloc: Global,
    symbols: &Symbols,
    files: &[FileDescriptorProto],
    message: usize,
    pieces: &[Piece<'_>],
    named: Named,
    field: &FieldDescriptorProto,
) -> Result<SettingValue, Unsaid>
    ensures said { IfOk result (λ value. aggregates.value_of files.now symbols.now message
        pieces.now named field.now ≡ Ok value) }
    ensures fault { IfErr result (λ unsaid. IfUnsaid unsaid (λ kind. aggregates.value_of files.now
        symbols.now message pieces.now named field.now ≡ Err kind)) }
{
    if named.typed.is_some() || message_of_type(symbols, field).is_some() {
        return Err(Unsaid::Fault(AggregateFaultKind::NotMessage));
    }
    if !named.colon {
        return Err(Unsaid::Fault(AggregateFaultKind::NoColon));
    }
    let is_open = is_in_proto3(symbols, files, message);
    value_said(alloc, symbols, files, field, is_open, pieces)
}

/// What is wrong with a list of values of a field, if anything.
pub(crate) fn wrong_with_list(
    symbols: &Symbols,
    named: Named,
    field: &FieldDescriptorProto,
) -> Option<AggregateFaultKind>
    ensures { result ≡ aggregates.wrong_with_list symbols.now named field.now }
{
    if named.typed.is_some() {
        return Some(AggregateFaultKind::NotMessage);
    }
    if message_of_type(symbols, field).is_none() && !named.colon {
        return Some(AggregateFaultKind::NoColon);
    }
    if is_repeated(field) {
        None
    } else {
        Some(AggregateFaultKind::NotRepeated)
    }
}

/// What is wrong with a message as the value of a field whose type is none.
pub(crate) fn no_message(named: Named) -> AggregateFaultKind
    ensures { result ≡ (if named.colon then AggregateFaultKind.NotScalar
        else AggregateFaultKind.NoColon) }
{
    if named.colon {
        AggregateFaultKind::NotScalar
    } else {
        AggregateFaultKind::NoColon
    }
}
