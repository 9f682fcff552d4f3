//! The extensions of a file.

ghost use Rattle.std.specs.Prelude.{◌≡◌, ◌++◌, ◌∷◌, [], ℕ, List, true, IfNone, IfOk, IfSome, OnOk};
ghost use Rattle.std.specs.List.{flat_map};
ghost use Rattle.protox_link_checks.specs.Extensions.{extension_in, extension_of, extensions_of};
ghost use Rattle.protox_link_checks.specs.Extensions.{message_named};
ghost use Rattle.protox_name_tree.specs.Tree.{name_at};
ghost use Rattle.protox_names.specs.Names as names;
ghost use Rattle.protox_names.specs.Tree.{name_of_place};
ghost use Rattle.protox_symbols.specs.Scopes.{IsFoundScope};
ghost use Rattle.protox_walk.specs.Declarations.{Path, all_in, field_at, full_name, message_at};
ghost use Rattle.protox_walk.specs.Declarations.{nth, siblings_at};

use crate::bare::{may_extend, may_hold_extensions};
use crate::each::path_to;
use crate::name::{inside, text_of};
use protox_descriptor::descriptor::{DescriptorProto, FieldDescriptorProto, FileDescriptorProto};
use protox_descriptor::tag::{file, message};
use protox_descriptor::values::Numbers;
use protox_names::is_identifier;
use protox_scopes::{Kind, Wanted};
use protox_views::View;
use std::alloc::{AllocError, Global};

/// An extension: a field that extends a message. Both have numbers in the table.
#[derive(Drop)]
pub struct Extension {
    /// The number of the message.
    pub message: usize,
    /// That of the extension.
    pub own: usize,
    /// The number that the extension has as a field.
    pub number: Option<i32>,
    /// The path of the extension.
    pub path: Numbers,
}

// The number of the message that a name stands for where something in a scope uses it.
fn message_named(view: &View<'_>, scope: Option<usize>, name: &str) -> Option<usize>
    ensures { (user : List ℕ) → names.is_one_part user ≡ true → result
        ≡ message_named view.now.symbols.now view.now.sees.now view.now.packages
        (names.within (name_of_place (name_at view.now.symbols.now.names) scope) user) name.now }
{
    let number = view.resolve(Wanted::Anything, name, scope)?;
    match view.symbols.kind(number) {
        Kind::Message => Some(number),
        _ => None,
    }
}

// The number of a field in a scope, and that of the message that it extends.
fn numbers_of(
    view: &View<'_>,
    scope: Option<Option<usize>>,
    field: &FieldDescriptorProto,
) -> Option<(usize, usize)>
    ensures none { IfNone result ((full : List ℕ) (path : Path)
        → IsFoundScope view.now.symbols.now full scope
        → extension_in view.now.symbols.now view.now.sees.now view.now.packages path
        (full_name full field.now.name) field.now ≡ []) }
    ensures some { IfSome result (λ numbers. (full : List ℕ) (path : Path)
        → IsFoundScope view.now.symbols.now full scope
        → extension_in view.now.symbols.now view.now.sees.now view.now.packages path
        (full_name full field.now.name) field.now
        ≡ record { message = numbers.1; own = numbers.0; number = field.now.number; path = path } ∷ []) }
{
    let extendee = field.extendee()?;
    let name = text_of(field.name.as_ref());
    if !is_identifier(name) {
        return None;
    }
    let scope = scope?;
    // for the proof: a full name has one number
    let _count = view.symbols.len();
    let own = view.symbols.word(name).find(scope)?;
    let message = message_named(view, scope, extendee.as_str())?;
    Some((own, message))
}

// Adds a field, if it is an extension.
fn add_field(
    alloc: Global,
    view: &View<'_>,
    scope: Option<Option<usize>>,
    path: &[i32],
    tag: i32,
    index: usize,
    field: &FieldDescriptorProto,
    made: &mut Vec<Extension>,
) -> Result<(), AllocError>
    ensures { (full : List ℕ) → IsFoundScope view.now.symbols.now full scope → OnOk result
        (made.new.items ≡ made.old.items ++ extension_in view.now.symbols.now view.now.sees.now
        view.now.packages (nth path.now tag index) (full_name full field.now.name) field.now) }
{
    let Some((own, message)) = numbers_of(view, scope, field) else {
        return Ok(());
    };
    let path = path_to(alloc, path, tag, index)?;
    let number = field.number;
    let extension = Extension {
        message,
        own,
        number,
        path,
    };
    if made.push(extension).is_err() {
        return Err(AllocError);
    }
    Ok(())
}

// Adds the extensions among fields.
fn add_fields(
    alloc: Global,
    view: &View<'_>,
    scope: Option<Option<usize>>,
    path: &[i32],
    tag: i32,
    fields: &[FieldDescriptorProto],
    made: &mut Vec<Extension>,
) -> Result<(), AllocError>
    ensures { (full : List ℕ) → IsFoundScope view.now.symbols.now full scope → OnOk result
        (made.new.items ≡ made.old.items ++ flat_map (extension_of view.now.symbols.now
        view.now.sees.now view.now.packages)
        (siblings_at path.now tag (all_in field_at full fields.now))) }
{
    for (index, field) in fields.iter().enumerate() {
        add_field(alloc, view, scope, path, tag, index, field, made)?;
    }
    Ok(())
}

// Adds the extensions in messages.
#[cycle(nested)]
fn add_messages(
    alloc: Global,
    view: &View<'_>,
    scope: Option<Option<usize>>,
    path: &[i32],
    tag: i32,
    messages: &[DescriptorProto],
    made: &mut Vec<Extension>,
) -> Result<(), AllocError>
    ensures { (full : List ℕ) → IsFoundScope view.now.symbols.now full scope → OnOk result
        (made.new.items ≡ made.old.items ++ flat_map (extension_of view.now.symbols.now
        view.now.sees.now view.now.packages)
        (siblings_at path.now tag (all_in message_at full messages.now))) }
{
    for (index, message) in messages.iter().enumerate() {
        let place = path_to(alloc, path, tag, index)?;
        let path = place.as_slice();
        let inner = inside(view, scope, message.name.as_ref(), 0);
        let (fields, extensions) = (message.field.as_slice(), message.extension.as_slice());
        let nested = message.nested_type.as_slice();
        add_fields(alloc, view, inner, path, message::FIELD, fields, made)?;
        add_messages(alloc, view, inner, path, message::NESTED_TYPE, nested, made)?;
        add_fields(
            alloc,
            view,
            inner,
            path,
            message::EXTENSION,
            extensions,
            made,
        )?;
    }
    Ok(())
}

/// The extensions of a file, in the order of their paths.
///
/// # Errors
/// `AllocError` where memory runs out, or where a list has more than 2,147,483,648 parts: no path
/// can count them.
pub fn extensions_of(
    alloc: Global,
    view: &View<'_>,
    file: &FileDescriptorProto,
) -> Result<Vec<Extension>, AllocError>
    ensures { IfOk result (λ made. made.items ≡ extensions_of view.now.symbols.now
        view.now.sees.now view.now.packages file.now) }
{
    let mut made = Vec::new(alloc);
    let (messages, extensions) = (file.message_type.as_slice(), file.extension.as_slice());
    if !may_extend(extensions) && !may_hold_extensions(messages) {
        return Ok(made);
    }
    let scope = inside(view, Some(None), file.package.as_ref(), 0);
    add_messages(
        alloc,
        view,
        scope,
        &[],
        file::MESSAGE_TYPE,
        messages,
        &mut made,
    )?;
    add_fields(
        alloc,
        view,
        scope,
        &[],
        file::EXTENSION,
        extensions,
        &mut made,
    )?;
    Ok(made)
}
