//! What is wrong with the values of a map.

ghost use Rattle.std.specs.Prelude.{◌≡◌};
ghost use Rattle.std.specs.Option.{option_and_then, option_copied};
ghost use Rattle.protox_option_checks.specs.Maps as words;
ghost use Rattle.protox_settings.specs.Fields.{enum_numbered, message_numbered, named};

use crate::names::found;
use crate::site::Site;
use crate::types::{has_label, has_type};
use protox_descriptor::descriptor::field_descriptor_proto::{FieldType, Label};
use protox_descriptor::descriptor::{DescriptorProto, EnumDescriptorProto, FieldDescriptorProto};
use protox_numbers::begins_with_zero;
use protox_settings::{enum_numbered, message_numbered};

fn is_map_entry(message: &DescriptorProto) -> bool
    ensures { result ≡ words.is_map_entry message.now }
{
    match &message.options {
        Some(options) => options.map_entry.unwrap_or(false),
        None => false,
    }
}

// Whether a field may be that of a map, by its label and its type.
fn may_be_map(field: &FieldDescriptorProto) -> bool
    ensures { result ≡ words.may_be_map field.now }
{
    if !(has_label(Label::Repeated, field) && has_type(FieldType::Message, field)) {
        return false;
    }
    match &field.type_name {
        Some(name) => name.as_str().as_bytes().ends_with(b"Entry"),
        None => false,
    }
}

impl Site<'_> {
    // The enum that is the type of a field.
    fn enum_of(&self, field: &FieldDescriptorProto) -> Option<&EnumDescriptorProto>
        ensures { option_copied result
            ≡ option_and_then (enum_numbered self.now.files.now self.now.symbols.now)
            (option_and_then (named self.now.symbols.now) field.now.type_name) }
    {
        let number = found(self.symbols, field.type_name.as_ref())?;
        enum_numbered(self.symbols, self.files, number)
    }

    // The message that is the type of a field.
    fn type_of(&self, field: &FieldDescriptorProto) -> Option<&DescriptorProto>
        ensures { option_copied result
            ≡ option_and_then (message_numbered self.now.files.now self.now.symbols.now)
            (option_and_then (named self.now.symbols.now) field.now.type_name) }
    {
        let number = found(self.symbols, field.type_name.as_ref())?;
        message_numbered(self.symbols, self.files, number)
    }

    // Whether the type of a field is an enum that doesn't begin with 0.
    fn has_late_enum(&self, field: &FieldDescriptorProto) -> bool
        ensures { result ≡ words.has_late_enum self.now.files.now self.now.symbols.now field.now }
    {
        if !has_type(FieldType::Enum, field) {
            return false;
        }
        match self.enum_of(field) {
            Some(of) => !begins_with_zero(of),
            None => false,
        }
    }

    // Whether a message is the entry of a map whose values are of such an enum.
    fn is_late_entry(&self, message: &DescriptorProto) -> bool
        ensures { result ≡ words.is_late_entry self.now.files.now self.now.symbols.now message.now }
    {
        if !is_map_entry(message) {
            return false;
        }
        match message.field.get(1) {
            Some(value) => self.has_late_enum(value),
            None => false,
        }
    }

    /// Whether a field is that of such a map.
    pub(crate) fn has_late_values(&self, field: &FieldDescriptorProto) -> bool
        ensures { result ≡ words.has_late_values self.now.files.now self.now.symbols.now field.now }
    {
        if !may_be_map(field) {
            return false;
        }
        match self.type_of(field) {
            Some(message) => self.is_late_entry(message),
            None => false,
        }
    }
}
