//! What one statement sets.

ghost use Rattle.std.specs.Prelude.{◌≡◌, Some, Ok, [], ◌&&◌, not, IfErr, IfOk};
ghost use Rattle.protox_aggregate.specs.Fields.{wire_number as wire};
ghost use Rattle.protox_interpret.specs.Braces.{IsMessage, IsNoMessage};
ghost use Rattle.protox_interpret.specs.Failure.{IfRefusal};
ghost use Rattle.protox_interpret.specs.Sites.{named};
ghost use Rattle.protox_interpret.specs.Statements as words;
ghost use Rattle.protox_interpret.specs.inner.Given.{IsGiven, IsNotGiven, IsNotSet, IsSetBy};
ghost use Rattle.protox_message_bytes.specs.Bytes.{message_bytes as bytes_of};
ghost use Rattle.protox_message_bytes.specs.Parts.{Parts, steps as told};
ghost use Rattle.protox_set_paths.specs.Paths.{is_set};
ghost use Rattle.protox_setting_bytes.specs.Bytes.{around_all, setting_bytes};
ghost use Rattle.protox_settings.specs.Fields.{is_repeated as repeats};
ghost use Rattle.protox_walk.specs.Declarations.{text_of};

use crate::braces::text_said;
use crate::fault::{Refusal, StatementFaultKind};
use crate::fields::{is_standard, numbers_of, steps_of};
use crate::setting::Setting;
use crate::site::Site;
use protox_aggregate::wire_number;
use protox_descriptor::descriptor::{FieldDescriptorProto, UninterpretedOption};
use protox_encode::backward::Backward;
use protox_message_bytes::{Entry, message_bytes};
use protox_set_paths::SetTree;
use protox_setting_bytes::{prepend_setting, prepend_within};
use protox_settings::{
    NameFailure, Said, SettingFailure, SettingFault, field_numbered, field_said, fields_of,
    is_repeated,
};
use protox_values::SettingValue;
use std::alloc::{AllocError, Global};

// What a statement gives the field that it sets: the steps through what stands in braces, and the
// bytes of the value in the fields that its name goes through.
#[derive(Drop)]
pub(crate) struct Given {
    pub(crate) inside: Vec<Entry>,
    pub(crate) bytes: Vec<u8>,
}

// The bytes of a value of a field, in the fields before it.
fn value_bytes(
    alloc: Global,
    here: Site<'_>,
    outer: &[usize],
    field: &FieldDescriptorProto,
    value: &SettingValue,
) -> Result<Vec<u8>, AllocError>
    ensures { IfOk result (λ bytes. bytes.items
        ≡ setting_bytes (words.steps_of here.entry outer.now) (wire field.now) value.now) }
{
    let steps = steps_of(alloc, here, outer)?;
    let mut out = Backward::new(alloc);
    prepend_setting(alloc, &mut out, steps.as_slice(), wire_number(field), value)?;
    Ok(out.into_vec())
}

// The bytes of bytes in these fields.
fn bytes_within(
    alloc: Global,
    here: Site<'_>,
    fields: &[usize],
    inside: &[u8],
) -> Result<Vec<u8>, AllocError>
    ensures { IfOk result (λ bytes. bytes.items
        ≡ around_all (words.steps_of here.entry fields.now) inside.now) }
{
    let steps = steps_of(alloc, here, fields)?;
    let mut out = Backward::new(alloc);
    prepend_within(alloc, &mut out, steps.as_slice(), inside)?;
    Ok(out.into_vec())
}

// The bytes of what stands in braces, in the fields that a name goes through.
fn entries_bytes(
    alloc: Global,
    here: Site<'_>,
    fields: &[usize],
    inside: &[Entry],
) -> Result<Vec<u8>, AllocError>
    ensures { (parts : Parts) → inside.now ≡ told parts → IfOk result (λ bytes. bytes.items
        ≡ around_all (words.steps_of here.entry fields.now) (bytes_of parts)) }
{
    let bytes = message_bytes(alloc, inside)?;
    bytes_within(alloc, here, fields, bytes.as_slice())
}

// The text of a statement in braces.
fn braces_of(statement: &UninterpretedOption) -> &str
    ensures { result.now ≡ text_of statement.now.aggregate_value }
{
    match &statement.aggregate_value {
        Some(text) => text.as_str(),
        None => "",
    }
}

// What a statement gives that has this in braces.
fn with_bytes(
    alloc: Global,
    here: Site<'_>,
    fields: &[usize],
    inside: Vec<Entry>,
) -> Result<Given, AllocError>
    ensures { (parts : Parts) → inside.items ≡ told parts → IfOk result (λ given.
        (given.inside.items ≡ told parts) × (given.bytes.items
        ≡ around_all (words.steps_of here.entry fields.now) (bytes_of parts))) }
{
    match entries_bytes(alloc, here, fields, inside.as_slice()) {
        Ok(bytes) => Ok(Given { inside, bytes }),
        Err(error) => Err(error),
    }
}

// What a statement gives that has a text in braces.
fn message_given(
    alloc: Global,
    here: Site<'_>,
    message: usize,
    fields: &[usize],
    statement: &UninterpretedOption,
) -> Result<Given, Refusal>
    ensures ok { IfOk result (λ given. (parts : Parts) × (given.inside.items ≡ told parts)
        × IsMessage here.entry message (text_of statement.now.aggregate_value) parts
        × (given.bytes.items
        ≡ around_all (words.steps_of here.entry fields.now) (bytes_of parts))) }
    ensures err { IfErr result (λ refusal. IfRefusal refusal
        (IsNoMessage here.entry message (text_of statement.now.aggregate_value))) }
{
    match text_said(alloc, here, message, braces_of(statement)) {
        Ok(inside) => match with_bytes(alloc, here, fields, inside) {
            Ok(given) => Ok(given),
            Err(_) => Err(Refusal::OutOfMemory),
        },
        Err(refusal) => Err(refusal),
    }
}

// What a statement gives that has this value.
fn value_given(
    alloc: Global,
    here: Site<'_>,
    outer: &[usize],
    field: &FieldDescriptorProto,
    value: &SettingValue,
) -> Result<Given, Refusal>
    ensures ok { IfOk result (λ given. (given.inside.items ≡ []) × (given.bytes.items
        ≡ setting_bytes (words.steps_of here.entry outer.now) (wire field.now) value.now)) }
    ensures err { IfErr result (λ refusal. refusal ≡ Refusal.OutOfMemory) }
{
    match value_bytes(alloc, here, outer, field, value) {
        Ok(bytes) => Ok(Given {
            inside: Vec::new(alloc),
            bytes,
        }),
        Err(_) => Err(Refusal::OutOfMemory),
    }
}

// What a statement gives the last of the fields that its name goes through.
fn given_by(
    alloc: Global,
    here: Site<'_>,
    fields: &[usize],
    outer: &[usize],
    field: &FieldDescriptorProto,
    statement: &UninterpretedOption,
) -> Result<Given, Refusal>
    ensures ok { IfOk result (λ given. IsGiven here.entry fields.now outer.now field.now
        statement.now given.inside.items given.bytes.items) }
    ensures err { IfErr result (IsNotGiven here.entry field.now statement.now) }
{
    match field_said(alloc, here.view.symbols, here.files, field, statement) {
        Ok(Said::Value(value)) => value_given(alloc, here, outer, field, &value),
        Ok(Said::Aggregate(message)) => message_given(alloc, here, message, fields, statement),
        Err(SettingFailure::Fault(fault)) => Err(Refusal::Fault(StatementFaultKind::Value(fault))),
        Err(SettingFailure::OutOfMemory) => Err(Refusal::OutOfMemory),
    }
}

// What a statement sets, where the path of its fields is known.
fn set_at(
    alloc: Global,
    here: Site<'_>,
    statement: &UninterpretedOption,
    fields: &[usize],
    outer: &[usize],
    field: &FieldDescriptorProto,
    path: Vec<u32>,
) -> Result<Setting, Refusal>
    ensures ok { IfOk result (λ setting. (setting.path ≡ path.items)
        × (setting.standard ≡ words.is_standard here.entry fields.now)
        × (setting.repeated ≡ repeats field.now)
        × IsGiven here.entry fields.now outer.now field.now statement.now
        setting.inside setting.bytes) }
    ensures err { IfErr result (IsNotGiven here.entry field.now statement.now) }
{
    let standard = is_standard(here, fields);
    let repeated = is_repeated(field);
    match given_by(alloc, here, fields, outer, field, statement) {
        Ok(given) => Ok(Setting {
            path,
            standard,
            repeated,
            inside: given.inside,
            bytes: given.bytes,
        }),
        Err(refusal) => Err(refusal),
    }
}

fn no_field() -> Refusal {
    Refusal::Fault(StatementFaultKind::Value(SettingFault::Untyped))
}

// Whether a field can't be set any more: it isn't repeated, and it is set already, or a field
// inside of it.
fn is_taken(set: &SetTree, field: &FieldDescriptorProto, path: &[u32]) -> bool
    ensures { result ≡ (not (repeats field.now) && is_set set.now path.now) }
{
    !is_repeated(field) && set.has(path)
}

// What a statement sets that goes through these fields, where this is set already.
fn set_by(
    alloc: Global,
    here: Site<'_>,
    set: &SetTree,
    statement: &UninterpretedOption,
    fields: &[usize],
) -> Result<Setting, Refusal>
    ensures ok { named here.entry statement.now.name ≡ Ok fields.now
        → IfOk result (IsSetBy here.entry (is_set set.now) statement.now) }
    ensures err { named here.entry statement.now.name ≡ Ok fields.now
        → IfErr result (IsNotSet here.entry (is_set set.now) statement.now) }
{
    let Some((last, outer)) = fields.split_last() else {
        return Err(no_field());
    };
    let Some(field) = field_numbered(here.view.symbols, here.files, *last) else {
        return Err(no_field());
    };
    let Ok(path) = numbers_of(alloc, here, fields) else {
        return Err(Refusal::OutOfMemory);
    };
    if is_taken(set, field, path.as_slice()) {
        return Err(Refusal::Fault(StatementFaultKind::AlreadySet));
    }
    set_at(alloc, here, statement, fields, outer, field, path)
}

/// What a statement sets, where this is set already.
pub(crate) fn setting_of(
    alloc: Global,
    here: Site<'_>,
    set: &SetTree,
    statement: &UninterpretedOption,
) -> Result<Setting, Refusal>
    ensures ok { IfOk result (IsSetBy here.entry (is_set set.now) statement.now) }
    ensures err { IfErr result (IsNotSet here.entry (is_set set.now) statement.now) }
{
    let name = statement.name.as_slice();
    match fields_of(alloc, here.view, here.files, here.scope, here.message, name) {
        Ok(fields) => set_by(alloc, here, set, statement, fields.as_slice()),
        Err(NameFailure::Fault(fault)) => Err(Refusal::Fault(StatementFaultKind::Name(fault))),
        Err(NameFailure::OutOfMemory) => Err(Refusal::OutOfMemory),
    }
}
