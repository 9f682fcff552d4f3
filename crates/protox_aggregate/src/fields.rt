//! What is told of fields.

ghost use Rattle.std.specs.Prelude.{◌≡◌, is_some};
ghost use Rattle.std.specs.Option.{option_and_then};
ghost use Rattle.protox_aggregate.specs.Fields as words;

use protox_descriptor::descriptor::field_descriptor_proto::FieldType;
use protox_descriptor::descriptor::uninterpreted_option::NamePart;
use protox_descriptor::descriptor::{
    FieldDescriptorProto, FileDescriptorProto, UninterpretedOption,
};
use protox_settings::is_repeated;
use protox_symbols::Symbols;
use protox_values::SettingValue;

pub(crate) fn has_extendee(field: &FieldDescriptorProto) -> bool
    ensures { result ≡ is_some field.now.extendee }
{
    field.extendee().is_some()
}

pub(crate) fn has_type(field: &FieldDescriptorProto, field_type: FieldType) -> bool
    ensures { result ≡ words.has_type field_type field.now }
{
    match field.field_type {
        Some(number) => number == field_type as i32,
        None => false,
    }
}

/// Whether the field is a group.
pub fn is_group(field: &FieldDescriptorProto) -> bool
    ensures { result ≡ words.is_group field.now }
{
    has_type(field, FieldType::Group)
}

/// The number of a field, as it stands in front of its values.
pub fn wire_number(field: &FieldDescriptorProto) -> u32
    ensures { result ≡ words.wire_number field.now }
{
    field.number.unwrap_or(0).cast_unsigned()
}

fn is_proto3(file: &FileDescriptorProto) -> bool
    ensures { result ≡ words.is_proto3 file.now }
{
    match &file.syntax {
        Some(syntax) => syntax.as_str() == "proto3",
        None => false,
    }
}

// Whether what has a number in the table is declared in a file of proto3.
pub(crate) fn is_in_proto3(symbols: &Symbols, files: &[FileDescriptorProto], number: usize) -> bool
    ensures { result ≡ words.is_in_proto3 files.now symbols.now number }
{
    let Some(thing) = symbols.thing(number) else {
        return false;
    };
    match files.get(thing.file) {
        Some(file) => is_proto3(file),
        None => false,
    }
}

// Whether values of the type can be packed: they are numbers or truth values.
fn can_pack(field: &FieldDescriptorProto) -> bool
    ensures { result ≡ words.can_pack field.now }
{
    field.field_type.is_some()
        && !has_type(field, FieldType::String)
        && !has_type(field, FieldType::Bytes)
        && !has_type(field, FieldType::Message)
        && !has_type(field, FieldType::Group)
}

fn is_packed_name(name: &[NamePart]) -> bool
    ensures { result ≡ words.is_packed_name name.now }
{
    match name {
        [part] => !part.is_extension && part.name_part.as_str() == "packed",
        _ => false,
    }
}

// What a statement says of the option `packed`, if it sets that.
fn packed_by(statement: &UninterpretedOption) -> Option<bool>
    ensures { result ≡ words.packed_by statement.now }
{
    if !is_packed_name(statement.name.as_slice()) {
        return None;
    }
    match &statement.identifier_value {
        Some(word) => Some(word.as_str() == "true"),
        None => None,
    }
}

// What the first statement says that sets it.
fn packed_among(statements: &[UninterpretedOption]) -> Option<bool>
    ensures { result ≡ words.packed_among statements.now }
{
    for statement in statements {
        if let Some(packed) = packed_by(statement) {
            return Some(packed);
        }
    }
    None
}

fn packed_option(field: &FieldDescriptorProto) -> Option<bool>
    ensures { result ≡ option_and_then (λ options. words.packed_among options.uninterpreted_option)
        field.now.options }
{
    match field.options() {
        Some(options) => packed_among(options.uninterpreted_option.as_slice()),
        None => None,
    }
}

// Whether the values of a field stand behind one header. In proto3 they do if no statement says no.
pub(crate) fn is_packed(field: &FieldDescriptorProto, in_proto3: bool) -> bool
    ensures { result ≡ words.is_packed in_proto3 field.now }
{
    is_repeated(field) && can_pack(field) && packed_option(field).unwrap_or(in_proto3)
}

// Whether the field isn't set by 0, `false` or an empty text: in proto3 it is so, but where the field
// is optional, repeated, an extension, or one of a oneof.
pub(crate) fn is_implicit(field: &FieldDescriptorProto, in_proto3: bool) -> bool
    ensures { result ≡ words.is_implicit in_proto3 field.now }
{
    in_proto3 && !is_repeated(field) && field.oneof_index().is_none() && !has_extendee(field)
}

pub(crate) fn is_zero(value: &SettingValue) -> bool
    ensures { result ≡ words.is_zero value.now }
{
    match value {
        SettingValue::Varint(n) => *n == 0,
        SettingValue::Four(n) => *n == 0,
        SettingValue::Eight(n) => *n == 0,
        SettingValue::Bytes(bytes) => bytes.is_empty(),
    }
}
