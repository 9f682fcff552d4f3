//! What is wrong with the names that a part of a file uses.

ghost use Rattle.std.specs.Prelude.{◌≡◌, ◌++◌, ◌∷◌, [], ℕ, Bool, List, true, IfOk, OnOk, option_to_list};
ghost use Rattle.std.specs.Option.{option_copied};
ghost use Rattle.protox_name_tree.specs.Tree.{kind_at};
ghost use Rattle.protox_names.specs.Names as names;
ghost use Rattle.protox_names.specs.Tree.{name_of_place};
ghost use Rattle.protox_name_tree.specs.Tree.{name_at};
ghost use Rattle.protox_link_checks.specs.Uses.{fault_at, faults_at, kind_named};
ghost use Rattle.protox_symbols.specs.Symbols.{Table};
ghost use Rattle.protox_link_checks.specs.Uses.{message_faults, type_faults, wrong_message, wrong_type};

use protox_descriptor::values::{Numbers, Text};
use protox_link_fault::{LinkFault, LinkFaultKind};
use protox_scopes::{Kind, Wanted};
use protox_views::View;
use std::alloc::{AllocError, Global};

/// Adds the fault of a file at a part of what has a path.
pub(crate) fn add_fault(
    alloc: Global,
    file: usize,
    path: &[i32],
    tag: i32,
    kind: LinkFaultKind,
    faults: &mut Vec<LinkFault>,
) -> Result<(), AllocError>
    ensures { OnOk result (faults.new.items
        ≡ faults.old.items ++ fault_at file path.now tag kind ∷ []) }
{
    let path = Numbers::joined(alloc, path, &[tag])?;
    if faults.push(LinkFault { file, path, kind }).is_err() {
        return Err(AllocError);
    }
    Ok(())
}

// The kind of what a name stands for where something in a scope uses it.
fn kind_named(view: &View<'_>, wanted: Wanted, scope: Option<usize>, name: &str) -> Option<Kind>
    ensures { (user : List ℕ) → names.is_one_part user ≡ true → result
        ≡ kind_named view.now.symbols.now view.now.sees.now view.now.packages wanted
        (names.within (name_of_place (name_at view.now.symbols.now.names) scope) user) name.now }
{
    let number = view.resolve(wanted, name, scope)?;
    Some(view.symbols.kind(number))
}

// What is wrong with the name of a type, if it stands for something of this kind.
fn wrong_type(
    alloc: Global,
    name: &str,
    kind: Option<Kind>,
) -> Result<Option<LinkFaultKind>, AllocError>
    ensures { IfOk result (λ wrong. option_to_list wrong ≡ wrong_type name.now kind) }
{
    let Some(kind) = kind else {
        return Ok(Some(LinkFaultKind::NotDefined(Text::copy(alloc, name)?)));
    };
    if kind.is_type() {
        return Ok(None);
    }
    Ok(Some(LinkFaultKind::NotAType(Text::copy(alloc, name)?)))
}

// What is wrong with the name of a message.
fn wrong_message(
    alloc: Global,
    name: &str,
    kind: Option<Kind>,
) -> Result<Option<LinkFaultKind>, AllocError>
    ensures { IfOk result (λ wrong. option_to_list wrong ≡ wrong_message name.now kind) }
{
    match kind {
        Some(Kind::Message) => Ok(None),
        Some(_) => Ok(Some(LinkFaultKind::NotAMessage(Text::copy(alloc, name)?))),
        None => Ok(Some(LinkFaultKind::NotDefined(Text::copy(alloc, name)?))),
    }
}

// Adds a fault, if there is one.
pub(crate) fn add_if_any(
    alloc: Global,
    file: usize,
    path: &[i32],
    tag: i32,
    kind: Option<LinkFaultKind>,
    faults: &mut Vec<LinkFault>,
) -> Result<(), AllocError>
    ensures { OnOk result (faults.new.items
        ≡ faults.old.items ++ faults_at file path.now tag (option_to_list kind)) }
{
    match kind {
        Some(kind) => add_fault(alloc, file, path, tag, kind, faults),
        None => Ok(()),
    }
}

/// Adds what is wrong with the name of a type, if a name is set. It is used in the scope with a
/// number.
pub(crate) fn check_type(
    alloc: Global,
    view: &View<'_>,
    file: usize,
    scope: Option<usize>,
    path: &[i32],
    tag: i32,
    name: Option<&Text>,
    faults: &mut Vec<LinkFault>,
) -> Result<(), AllocError>
    ensures { (user : List ℕ) → names.is_one_part user ≡ true → OnOk result (faults.new.items
        ≡ faults.old.items ++ type_faults view.now.symbols.now view.now.sees.now view.now.packages file path.now tag
        (names.within (name_of_place (name_at view.now.symbols.now.names) scope) user) (option_copied name.entry)) }
{
    let Some(name) = name else {
        return Ok(());
    };
    let kind = kind_named(view, Wanted::AType, scope, name.as_str());
    let wrong = wrong_type(alloc, name.as_str(), kind)?;
    add_if_any(alloc, file, path, tag, wrong, faults)
}

/// Adds what is wrong with the name of a message.
pub(crate) fn check_message(
    alloc: Global,
    view: &View<'_>,
    file: usize,
    scope: Option<usize>,
    path: &[i32],
    tag: i32,
    name: Option<&Text>,
    faults: &mut Vec<LinkFault>,
) -> Result<(), AllocError>
    ensures { (user : List ℕ) → names.is_one_part user ≡ true → OnOk result (faults.new.items
        ≡ faults.old.items ++ message_faults view.now.symbols.now view.now.sees.now view.now.packages file path.now tag
        (names.within (name_of_place (name_at view.now.symbols.now.names) scope) user) (option_copied name.entry)) }
{
    let Some(name) = name else {
        return Ok(());
    };
    let kind = kind_named(view, Wanted::Anything, scope, name.as_str());
    let wrong = wrong_message(alloc, name.as_str(), kind)?;
    add_if_any(alloc, file, path, tag, wrong, faults)
}
