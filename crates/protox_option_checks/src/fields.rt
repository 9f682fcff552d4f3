//! What is wrong with a field or an extension.

ghost use Rattle.std.specs.Prelude.{◌≡◌, ◌++◌, IfOk, OnOk};
ghost use Rattle.std.specs.Option.{option_copied};
ghost use Rattle.protox_option_checks.specs.Faults.{fault_at, fault_if};
ghost use Rattle.protox_option_checks.specs.Fields as words;

use crate::adding::{add, add_if};
use crate::names::{found, message_of, text_of};
use crate::site::Site;
use crate::statements::{is_true, says};
use crate::types::{has_label, has_type};
use crate::{CheckFault, CheckFaultKind};
use protox_descriptor::descriptor::field_descriptor_proto::{FieldType, Label};
use protox_descriptor::descriptor::{FieldDescriptorProto, UninterpretedOption};
use protox_descriptor::tag::field::{EXTENDEE, JSON_NAME, TYPE, TYPE_NAME};
use protox_descriptor::uninterpreted::HasUninterpreted;
use protox_descriptor::values::Text;
use protox_names::cases::json_name;
use protox_symbols::Symbols;
use std::alloc::{AllocError, Global};

fn statements_of_field(field: &FieldDescriptorProto) -> &[UninterpretedOption]
    ensures { result.now ≡ words.statements_of_field field.now }
{
    match field.options() {
        Some(options) => options.uninterpreted(),
        None => &[],
    }
}

// The number of the part where a type with this name stands.
fn name_tag(name: Option<&Text>) -> i32
    ensures { result ≡ words.name_tag (option_copied name.entry) }
{
    match name {
        Some(_) => TYPE_NAME,
        None => TYPE,
    }
}

// The number of the part of a field where its type stands.
fn type_tag(field: &FieldDescriptorProto) -> i32
    ensures { result ≡ words.type_tag field.now }
{
    if has_type(FieldType::Group, field) {
        return TYPE;
    }
    name_tag(field.type_name.as_ref())
}

fn is_wrongly_lazy(field: &FieldDescriptorProto) -> bool
    ensures { result ≡ words.is_wrongly_lazy field.now }
{
    let statements = statements_of_field(field);
    (is_true(statements, "lazy") || is_true(statements, "unverified_lazy"))
        && !has_type(FieldType::Message, field)
}

fn may_be_packed(field: &FieldDescriptorProto) -> bool
    ensures { result ≡ words.may_be_packed field.now }
{
    let is_text = has_type(FieldType::String, field) || has_type(FieldType::Bytes, field);
    let is_message = has_type(FieldType::Message, field) || has_type(FieldType::Group, field);
    has_label(Label::Repeated, field) && !(is_text || is_message)
}

fn is_wrongly_packed(field: &FieldDescriptorProto) -> bool
    ensures { result ≡ words.is_wrongly_packed field.now }
{
    is_true(statements_of_field(field), "packed") && !may_be_packed(field)
}

fn may_have_js_type(field: &FieldDescriptorProto) -> bool
    ensures { result ≡ words.may_have_js_type field.now }
{
    let is_fixed = has_type(FieldType::Fixed64, field) || has_type(FieldType::Sfixed64, field);
    let is_plain = has_type(FieldType::Int64, field) || has_type(FieldType::Uint64, field);
    is_plain || (has_type(FieldType::Sint64, field) || is_fixed)
}

fn has_wrong_js_type(field: &FieldDescriptorProto) -> bool
    ensures { result ≡ words.has_wrong_js_type field.now }
{
    let statements = statements_of_field(field);
    (says(statements, "jstype", "JS_STRING") || says(statements, "jstype", "JS_NUMBER"))
        && !may_have_js_type(field)
}

// Whether a field has a name in JSON that isn't the default one.
fn has_own_json_name(alloc: Global, field: &FieldDescriptorProto) -> Result<bool, AllocError>
    ensures { IfOk result (λ own. own ≡ words.has_own_json_name field.now) }
{
    let Some(name) = field.json_name() else {
        return Ok(false);
    };
    let default = json_name(alloc, text_of(field.name.as_ref()))?;
    let is_default = name.as_str() == default.as_str();
    Ok(!is_default)
}

fn is_wrongly_named(alloc: Global, field: &FieldDescriptorProto) -> Result<bool, AllocError>
    ensures { IfOk result (λ wrong. wrong ≡ words.is_wrongly_named field.now) }
{
    match field.extendee() {
        Some(_) => has_own_json_name(alloc, field),
        None => Ok(false),
    }
}

fn is_optional_message(field: &FieldDescriptorProto) -> bool
    ensures { result ≡ words.is_optional_message field.now }
{
    has_label(Label::Optional, field) && has_type(FieldType::Message, field)
}

// The number of the file of what has a number.
fn file_of(symbols: &Symbols, number: usize) -> Option<usize>
    ensures { result ≡ words.file_of symbols.now number }
{
    let thing = symbols.thing(number)?;
    Some(thing.file)
}

impl Site<'_> {
    // Whether a field extends a message set, and is no optional message.
    fn is_wrong_in_set(&self, field: &FieldDescriptorProto) -> bool
        ensures { result ≡ words.is_wrong_in_set self.now.symbols.now self.now.marks.now field.now }
    {
        if is_optional_message(field) {
            return false;
        }
        match found(self.symbols, field.extendee()) {
            Some(message) => self.marks.is_message_set(message),
            None => false,
        }
    }

    // Whether the file of the message that a field extends isn't lite.
    fn extends_other_than_lite(&self, field: &FieldDescriptorProto) -> bool
        ensures { result ≡ words.extends_other_than_lite self.now.symbols.now self.now.marks.now
            field.now }
    {
        let Some(message) = found(self.symbols, field.extendee()) else {
            return false;
        };
        match file_of(self.symbols, message) {
            Some(file) => !self.marks.is_lite(file),
            None => false,
        }
    }

    // Whether a field of a lite file extends what isn't lite.
    fn is_wrong_in_lite(&self, field: &FieldDescriptorProto) -> bool
        ensures { result ≡ words.is_wrong_in_lite self.now.symbols.now self.now.marks.now
            self.now.number field.now }
    {
        self.marks.is_lite(self.number) && self.extends_other_than_lite(field)
    }

    // Whether the number is that of an enum in a file that isn't of proto3.
    fn is_closed(&self, number: usize) -> bool
        ensures { result ≡ words.is_closed self.now.symbols.now self.now.marks.now number }
    {
        match file_of(self.symbols, number) {
            Some(file) => !self.marks.is_proto3(file),
            None => false,
        }
    }

    // Adds a fault if the type of a field of proto3 is an enum that isn't of proto3.
    fn check_enum(
        &self,
        path: &[i32],
        full_name: &str,
        field: &FieldDescriptorProto,
        faults: &mut Vec<CheckFault>,
    ) -> Result<(), AllocError>
        ensures { OnOk result (faults.new.items ≡ faults.old.items
            ++ words.enum_faults self.now.symbols.now self.now.marks.now self.now.number path.now
            full_name.now field.now) }
    {
        if !(self.marks.is_proto3(self.number) && has_type(FieldType::Enum, field)) {
            return Ok(());
        }
        let Some(number) = found(self.symbols, field.type_name.as_ref()) else {
            return Ok(());
        };
        if !self.is_closed(number) {
            return Ok(());
        }
        let message = message_of(self.symbols, full_name, field);
        let kind = CheckFaultKind::ClosedEnum { number, message };
        add(self.alloc, self.number, path, type_tag(field), kind, faults)
    }

    // Adds a fault at the type of a field, if something is wrong.
    fn add_at_type(
        &self,
        wrong: bool,
        path: &[i32],
        field: &FieldDescriptorProto,
        kind: CheckFaultKind,
        faults: &mut Vec<CheckFault>,
    ) -> Result<(), AllocError>
        ensures { OnOk result (faults.new.items ≡ faults.old.items ++ fault_if wrong
            (fault_at self.now.number path.now (words.type_tag field.now) kind)) }
    {
        let tag = type_tag(field);
        add_if(wrong, self.alloc, self.number, path, tag, kind, faults)
    }

    // Adds a fault at what a field extends, if it extends the wrong thing in a lite file.
    fn add_at_extendee(
        &self,
        wrong: bool,
        path: &[i32],
        faults: &mut Vec<CheckFault>,
    ) -> Result<(), AllocError>
        ensures { OnOk result (faults.new.items ≡ faults.old.items ++ fault_if wrong
            (fault_at self.now.number path.now EXTENDEE CheckFaultKind.LiteExtension)) }
    {
        let kind = CheckFaultKind::LiteExtension;
        add_if(wrong, self.alloc, self.number, path, EXTENDEE, kind, faults)
    }

    // Adds a fault at the name of a field in JSON, if it should have none.
    fn add_at_json_name(
        &self,
        wrong: bool,
        path: &[i32],
        faults: &mut Vec<CheckFault>,
    ) -> Result<(), AllocError>
        ensures { OnOk result (faults.new.items ≡ faults.old.items ++ fault_if wrong
            (fault_at self.now.number path.now JSON_NAME CheckFaultKind.ExtensionJsonName)) }
    {
        let kind = CheckFaultKind::ExtensionJsonName;
        add_if(
            wrong,
            self.alloc,
            self.number,
            path,
            JSON_NAME,
            kind,
            faults,
        )
    }

    /// Adds what is wrong with a field or an extension.
    pub(crate) fn check_field(
        &self,
        path: &[i32],
        full_name: &str,
        field: &FieldDescriptorProto,
        faults: &mut Vec<CheckFault>,
    ) -> Result<(), AllocError>
        ensures { OnOk result (faults.new.items ≡ faults.old.items
            ++ words.field_faults self.now.symbols.now self.now.marks.now self.now.number path.now
            full_name.now self.now.files.now field.now) }
    {
        let lazy = is_wrongly_lazy(field);
        self.add_at_type(lazy, path, field, CheckFaultKind::Lazy, faults)?;
        let packed = is_wrongly_packed(field);
        self.add_at_type(packed, path, field, CheckFaultKind::Packed, faults)?;
        let in_set = self.is_wrong_in_set(field);
        let kind = CheckFaultKind::MessageSetExtension;
        self.add_at_type(in_set, path, field, kind, faults)?;
        let in_lite = self.is_wrong_in_lite(field);
        self.add_at_extendee(in_lite, path, faults)?;
        let late = self.has_late_values(field);
        self.add_at_type(late, path, field, CheckFaultKind::MapValueEnum, faults)?;
        let in_script = has_wrong_js_type(field);
        self.add_at_type(in_script, path, field, CheckFaultKind::JsType, faults)?;
        let named = is_wrongly_named(self.alloc, field)?;
        self.add_at_json_name(named, path, faults)?;
        self.check_enum(path, full_name, field, faults)
    }
}
