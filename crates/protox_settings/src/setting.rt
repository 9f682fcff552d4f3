//! What the statement of an option says to the field that it sets.

ghost use Rattle.std.specs.Prelude.{◌≡◌, ℕ, Err, IfErr, IfOk, Ok, is_some};
ghost use Rattle.protox_settings.specs.Failure.{IfSettingFault};
ghost use Rattle.protox_settings.specs.Settings as words;
ghost use Rattle.protox_values.specs.Values.{says};
ghost use Rattle.protox_values.specs.Enums.{enum_says};
ghost use Rattle.protox_values.specs.Types.{scalar_of};

use crate::enums::values_named;
use crate::fault::{SettingFailure, SettingFault};
use crate::fields::message_of_type;
use protox_descriptor::descriptor::field_descriptor_proto::FieldType;
use protox_descriptor::descriptor::{
    EnumValueDescriptorProto, FieldDescriptorProto, FileDescriptorProto, UninterpretedOption,
};
use protox_symbols::Symbols;
use protox_values::{ScalarType, SettingValue, ValueFailure, enum_value, scalar_value};
use std::alloc::Global;

/// What a statement says to the field that it sets.
#[derive(PartialEq, Debug, Drop)]
pub enum Said {
    /// This value, as it lies on the wire.
    Value(SettingValue),
    /// The message that the text in braces stands for. Its type has this number.
    Aggregate(usize),
}

/// The type of fields with a number.
pub fn type_numbered(number: i32) -> Option<FieldType>
    ensures { result ≡ words.type_numbered number }
{
    FieldType::from_number(number)
}

// What a statement says to a field of a scalar type.
fn scalar_said(
    alloc: Global,
    statement: &UninterpretedOption,
    scalar: ScalarType,
) -> Result<Said, SettingFailure>
    ensures said { IfOk result (λ said. words.scalar_said scalar (says scalar statement.now)
        ≡ Ok said) }
    ensures fault { IfErr result (λ failure. IfSettingFault failure (λ fault.
        words.scalar_said scalar (says scalar statement.now) ≡ Err fault)) }
{
    match scalar_value(alloc, statement, scalar) {
        Ok(value) => Ok(Said::Value(value)),
        Err(ValueFailure::Fault(wrong)) => {
            Err(SettingFailure::Fault(SettingFault::WrongValue(scalar, wrong)))
        }
        Err(ValueFailure::OutOfMemory) => Err(SettingFailure::OutOfMemory),
    }
}

// What it says to a field of an enum with these values.
fn enum_said(
    statement: &UninterpretedOption,
    values: &[EnumValueDescriptorProto],
) -> Result<Said, SettingFault>
    ensures { result ≡ words.enum_said (enum_says values.now statement.now.identifier_value) }
{
    match enum_value(statement, values) {
        Ok(value) => Ok(Said::Value(value)),
        Err(wrong) => Err(SettingFault::WrongEnum(wrong)),
    }
}

// What it says to a field whose type is a message.
fn message_said(in_braces: bool, message: Option<usize>) -> Result<Said, SettingFault>
    ensures { result ≡ words.message_said in_braces message }
{
    match message {
        None => Err(SettingFault::Untyped),
        Some(message) if in_braces => Ok(Said::Aggregate(message)),
        Some(_) => Err(SettingFault::NotInBraces),
    }
}

// What it says to a field whose type is no scalar one.
fn compound_said(
    symbols: &Symbols,
    files: &[FileDescriptorProto],
    field: &FieldDescriptorProto,
    statement: &UninterpretedOption,
    field_type: FieldType,
) -> Result<Said, SettingFault>
    ensures { result ≡ words.compound_said files.now symbols.now field.now statement.now
        field_type }
{
    let in_braces = statement.aggregate_value.is_some();
    match field_type {
        FieldType::Enum => {
            enum_said(
                statement,
                values_named(symbols, files, field.type_name.as_ref()),
            )
        }
        FieldType::Message => message_said(in_braces, message_of_type(symbols, field)),
        FieldType::Group => message_said(in_braces, message_of_type(symbols, field)),
        _ => Err(SettingFault::Untyped),
    }
}

fn settled(answer: Result<Said, SettingFault>) -> Result<Said, SettingFailure>
    ensures said { IfOk result (λ said. answer ≡ Ok said) }
    ensures fault { IfErr result (λ failure. IfSettingFault failure (λ fault.
        answer ≡ Err fault)) }
{
    match answer {
        Ok(said) => Ok(said),
        Err(fault) => Err(SettingFailure::Fault(fault)),
    }
}

// What it says to a field of a type.
fn said_by(
    alloc: Global,
    symbols: &Symbols,
    files: &[FileDescriptorProto],
    field: &FieldDescriptorProto,
    statement: &UninterpretedOption,
    field_type: FieldType,
) -> Result<Said, SettingFailure>
    ensures said { IfOk result (λ said. words.said_by files.now symbols.now field.now statement.now
        field_type (scalar_of field_type) ≡ Ok said) }
    ensures fault { IfErr result (λ failure. IfSettingFault failure (λ fault.
        words.said_by files.now symbols.now field.now statement.now
        field_type (scalar_of field_type) ≡ Err fault)) }
{
    match ScalarType::from_type(field_type) {
        Some(scalar) => scalar_said(alloc, statement, scalar),
        None => settled(compound_said(symbols, files, field, statement, field_type)),
    }
}

/// What a statement says to a field of linked files: a value, or a text in braces that stands for a
/// message. Whoever reads the value by the field's type finds what the statement says.
///
/// # Errors
/// `Fault` if the statement's value is none of the field's type. `OutOfMemory` where memory runs
/// out.
pub fn field_said(
    alloc: Global,
    symbols: &Symbols,
    files: &[FileDescriptorProto],
    field: &FieldDescriptorProto,
    statement: &UninterpretedOption,
) -> Result<Said, SettingFailure>
    ensures said { IfOk result (λ said. words.field_said files.now symbols.now field.now
        statement.now ≡ Ok said) }
    ensures fault { IfErr result (λ failure. IfSettingFault failure (λ fault.
        words.field_said files.now symbols.now field.now statement.now ≡ Err fault)) }
{
    let Some(number) = field.field_type else {
        return Err(SettingFailure::Fault(SettingFault::Untyped));
    };
    match type_numbered(number) {
        Some(field_type) => said_by(alloc, symbols, files, field, statement, field_type),
        None => Err(SettingFailure::Fault(SettingFault::Untyped)),
    }
}
