//! Fields, with their names resolved.

ghost use Rattle.std.specs.Prelude.{◌≡◌, IfOk, OnOk, map, option_map};
ghost use Rattle.std.specs.Option.{option_copied};
ghost use Rattle.protox_names.specs.Tree.{name_of_place};
ghost use Rattle.protox_scopes.specs.declared.kind.Wanted.TheVariants.{Anything};
ghost use Rattle.protox_linked.specs.Linked.{linked_field, linked_name, text_of};
ghost use Rattle.protox_linked.specs.Linked.{type_of_kind, with_json_name};
ghost use Rattle.protox_linked.specs.Linked.{with_linked_extendee, with_linked_type};

use crate::{Names, Target};
use protox_descriptor::descriptor::FieldDescriptorProto;
use protox_descriptor::values::{Items, Text};
use protox_names::cases::json_name;
use protox_scopes::{Kind, Wanted};
use std::alloc::{AllocError, Global};

/// The text of a name; the empty one where the name is not set.
pub(crate) fn text_of(name: Option<&Text>) -> &str
    ensures { result.now ≡ text_of (option_copied name.entry) }
{
    match name {
        Some(name) => name.as_str(),
        None => "",
    }
}

/// A name, if it is set, with its meaning in place of it.
pub(crate) fn link_name<N: Names>(
    alloc: Global,
    names: &N,
    wanted: Wanted,
    scope: Option<usize>,
    name: Option<Text>,
) -> Result<Option<Text>, AllocError>
    ensures { IfOk result (λ made. made
        ≡ option_map (linked_name (N.meaning names.now) wanted
        (name_of_place (N.name_of names.now) scope)) name) }
{
    let Some(name) = name else {
        return Ok(None);
    };
    match names.meaning(alloc, wanted, scope, name.as_str())? {
        Some(target) => Ok(Some(target.name)),
        None => Ok(Some(name)),
    }
}

// The number of the type of a field that names a thing of this kind.
fn type_of_kind(kind: Kind) -> Option<i32>
    ensures { result ≡ type_of_kind kind }
{
    match kind {
        Kind::Message => Some(11),
        Kind::Enum => Some(14),
        Kind::Service | Kind::Package | Kind::Member => None,
    }
}

// Resolves the name of a field's type, and sets the type that it tells.
fn link_type<N: Names>(
    alloc: Global,
    names: &N,
    scope: Option<usize>,
    field: &mut FieldDescriptorProto,
) -> Result<(), AllocError>
    ensures { OnOk result (field.new ≡ with_linked_type (N.meaning names.now)
        (name_of_place (N.name_of names.now) scope) field.old) }
{
    let Some(name) = &field.type_name else {
        return Ok(());
    };
    let Some(target) = names.meaning(alloc, Wanted::AType, scope, name.as_str())? else {
        return Ok(());
    };
    if field.field_type.is_none() {
        field.field_type = type_of_kind(target.kind);
    }
    field.type_name = Some(target.name);
    Ok(())
}

// Resolves the name of what an extension extends.
fn link_extendee<N: Names>(
    alloc: Global,
    names: &N,
    scope: Option<usize>,
    field: &mut FieldDescriptorProto,
) -> Result<(), AllocError>
    ensures { OnOk result (field.new ≡ with_linked_extendee (N.meaning names.now)
        (name_of_place (N.name_of names.now) scope) field.old) }
{
    if field.extendee().is_none() {
        return Ok(());
    }
    let extendee = field.take_extendee();
    let extendee = link_name(alloc, names, Wanted::Anything, scope, extendee)?;
    field.set_extendee(alloc, extendee)
}

// Sets the name of a field in JSON, if it has none yet.
fn name_in_json(alloc: Global, field: &mut FieldDescriptorProto) -> Result<(), AllocError>
    ensures { OnOk result (field.new ≡ with_json_name field.old) }
{
    if field.json_name().is_some() {
        return Ok(());
    }
    let name = json_name(alloc, text_of(field.name.as_ref()))?;
    field.set_json_name(alloc, Some(Text::from_string(name)))
}

/// Resolves the names of a field, or of an extension, and sets its type and its JSON name. After an
/// `AllocError` some of it may be done.
pub(crate) fn link_field<N: Names>(
    alloc: Global,
    names: &N,
    scope: Option<usize>,
    field: &mut FieldDescriptorProto,
) -> Result<(), AllocError>
    ensures { OnOk result (field.new ≡ linked_field (N.meaning names.now)
        (name_of_place (N.name_of names.now) scope) field.old) }
{
    link_type(alloc, names, scope, field)?;
    link_extendee(alloc, names, scope, field)?;
    name_in_json(alloc, field)
}
