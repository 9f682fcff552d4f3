//! Messages that end.

ghost use Rattle.std.specs.Prelude.{◌≡◌, ◌++◌, ◌||◌, OnOk};
ghost use Rattle.protox_aggregate.specs.Complete as words;
ghost use Rattle.protox_aggregate.specs.Fields.{has_type as has_type_of};
ghost use Rattle.protox_aggregate.specs.Levels.{has_told};
ghost use Rattle.protox_descriptor.specs.declared.descriptor.field_descriptor_proto.FieldType.TheVariants as type;
ghost use Rattle.std.specs.Option.{option_copied};
ghost use Rattle.protox_settings.specs.Fields.{message_numbered as message_of_number};
ghost use Rattle.protox_walk.specs.Declarations.{text_of};

use crate::fields::{has_type, wire_number};
use crate::level::{Level, Told};
use protox_descriptor::descriptor::field_descriptor_proto::{FieldType, Label};
use protox_descriptor::descriptor::{DescriptorProto, FieldDescriptorProto, FileDescriptorProto};
use protox_descriptor::values::{Items, Text};
use protox_message_bytes::Entry;
use protox_settings::message_numbered;
use protox_symbols::Symbols;
use protox_values::SettingValue;
use std::alloc::{AllocError, Global};

fn is_required(field: &FieldDescriptorProto) -> bool
    ensures { result ≡ words.is_required field.now }
{
    match field.label {
        Some(label) => label == Label::Required as i32,
        None => false,
    }
}

fn is_eight(field: &FieldDescriptorProto) -> bool
    ensures { result ≡ (has_type_of type.Double field.now || (has_type_of type.Fixed64 field.now
        || has_type_of type.Sfixed64 field.now)) }
{
    has_type(field, FieldType::Double)
        || has_type(field, FieldType::Fixed64)
        || has_type(field, FieldType::Sfixed64)
}

fn is_four(field: &FieldDescriptorProto) -> bool
    ensures { result ≡ (has_type_of type.Float field.now || (has_type_of type.Fixed32 field.now
        || has_type_of type.Sfixed32 field.now)) }
{
    has_type(field, FieldType::Float)
        || has_type(field, FieldType::Fixed32)
        || has_type(field, FieldType::Sfixed32)
}

// 0 or an empty text, by the type of a field.
fn zero_of(alloc: Global, field: &FieldDescriptorProto) -> SettingValue
    ensures { result ≡ words.zero_of field.now }
{
    if is_eight(field) {
        return SettingValue::Eight(0);
    }
    if is_four(field) {
        return SettingValue::Four(0);
    }
    if has_type(field, FieldType::String) || has_type(field, FieldType::Bytes) {
        return SettingValue::Bytes(Items::new(alloc));
    }
    SettingValue::Varint(0)
}

// Says the value of a field that isn't told: 0, an empty text or an empty message.
fn say_zero(
    alloc: Global,
    field: &FieldDescriptorProto,
    entries: &mut Vec<Entry>,
) -> Result<(), AllocError>
    ensures { OnOk result (entries.new.items ≡ entries.old.items ++ words.zero_entries field.now) }
{
    if has_type(field, FieldType::Message) {
        entries.push(Entry::Open(wire_number(field), false))?;
        entries.push(Entry::Close)?;
        return Ok(());
    }
    entries.push(Entry::Value(wire_number(field), false, zero_of(alloc, field)))?;
    Ok(())
}

/// Whether a field has a value.
pub(crate) fn is_told(told: &[Told], number: usize) -> bool
    ensures { result ≡ has_told told.now number }
{
    told.iter().any(|told| told.number == number)
}

/// The text, or an empty one.
pub(crate) fn text_of(name: Option<&Text>) -> &str
    ensures { result.now ≡ text_of (option_copied name.entry) }
{
    match name {
        Some(name) => name.as_str(),
        None => "",
    }
}

// The number of a field of a message, if it has no value.
fn untold(
    symbols: &Symbols,
    message: usize,
    told: &[Told],
    field: &FieldDescriptorProto,
) -> Option<usize>
    ensures { result ≡ words.untold symbols.now message told.now field.now }
{
    let number = symbols.find(Some(message), text_of(field.name.as_ref()))?;
    if is_told(told, number) {
        None
    } else {
        Some(number)
    }
}

fn missing_field(
    symbols: &Symbols,
    message: usize,
    told: &[Told],
    field: &FieldDescriptorProto,
) -> Option<usize>
    ensures { result ≡ words.missing_field symbols.now message told.now field.now }
{
    if is_required(field) {
        untold(symbols, message, told, field)
    } else {
        None
    }
}

// The first field that is required and has no value.
fn missing(
    symbols: &Symbols,
    message: usize,
    told: &[Told],
    fields: &[FieldDescriptorProto],
) -> Option<usize>
    ensures { result ≡ words.missing symbols.now message told.now fields.now }
{
    for field in fields {
        if let Some(number) = missing_field(symbols, message, told, field) {
            return Some(number);
        }
    }
    None
}

// Says what fields have that have no value.
fn say_zeros(
    alloc: Global,
    symbols: &Symbols,
    level: &Level,
    fields: &[FieldDescriptorProto],
    entries: &mut Vec<Entry>,
) -> Result<(), AllocError>
    ensures { OnOk result (entries.new.items ≡ entries.old.items
        ++ words.zeros symbols.now level.now.message level.now.told fields.now) }
{
    for field in fields {
        if untold(symbols, level.message, &level.told, field).is_some() {
            say_zero(alloc, field, entries)?;
        }
    }
    Ok(())
}

// Whether a message is the entry of a map.
fn is_map_entry(message: &DescriptorProto) -> bool
    ensures { result ≡ words.is_map_entry message.now }
{
    match &message.options {
        Some(options) => match options.map_entry {
            Some(is_entry) => is_entry,
            None => false,
        },
        None => false,
    }
}

// Says what is said besides where a message ends.
fn end(
    alloc: Global,
    symbols: &Symbols,
    level: &Level,
    message: &DescriptorProto,
    entries: &mut Vec<Entry>,
) -> Result<(), AllocError>
    ensures { OnOk result (entries.new.items ≡ entries.old.items
        ++ words.ends_with symbols.now level.now message.now) }
{
    if is_map_entry(message) {
        say_zeros(alloc, symbols, level, message.field.as_slice(), entries)
    } else {
        Ok(())
    }
}

/// Says what is said besides where a message ends.
pub(crate) fn say_at_end(
    alloc: Global,
    symbols: &Symbols,
    files: &[FileDescriptorProto],
    level: &Level,
    entries: &mut Vec<Entry>,
) -> Result<(), AllocError>
    ensures { OnOk result (entries.new.items ≡ entries.old.items
        ++ words.said_at_end files.now symbols.now level.now) }
{
    match message_numbered(symbols, files, level.message) {
        Some(message) => end(alloc, symbols, level, message, entries),
        None => Ok(()),
    }
}

fn missing_of(symbols: &Symbols, files: &[FileDescriptorProto], level: &Level) -> Option<usize>
    ensures { result ≡ words.missing_of symbols.now level.now
        (message_of_number files.now symbols.now level.now.message) }
{
    let message = message_numbered(symbols, files, level.message)?;
    missing(
        symbols,
        level.message,
        &level.told,
        message.field.as_slice(),
    )
}

/// Which field has no value, where a message ends: one that a message in it needs, or that it needs
/// itself.
pub(crate) fn missing_at_end(
    symbols: &Symbols,
    files: &[FileDescriptorProto],
    level: &Level,
) -> Option<usize>
    ensures { result ≡ words.missing_at_end files.now symbols.now level.now }
{
    match level.missing {
        Some(number) => Some(number),
        None => missing_of(symbols, files, level),
    }
}
