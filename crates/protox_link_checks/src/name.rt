//! What is wrong with the name of a declaration.

ghost use Rattle.std.specs.Prelude.{◌≡◌, ◌++◌, ℕ, Bool, List, Option, Some, true, false};
ghost use Rattle.std.specs.Prelude.{IfNone, IfOk, IfSome, OnOk};
ghost use Rattle.std.specs.Option.{option_copied};
ghost use Rattle.protox_link_checks.specs.Checked.{IsChecked};
ghost use Rattle.protox_link_checks.specs.Faults.{bad_name, clash_faults, is_declared_at};
ghost use Rattle.protox_name_tree.specs.Tree.{name_in, number_of};
ghost use Rattle.protox_names.specs.Names.{is_identifier};
ghost use Rattle.protox_symbols.specs.Scopes.{IsFoundScope};
ghost use Rattle.protox_walk.specs.Declarations.{full_name, text_of};

use crate::file_view::FileView;
use crate::uses::add_fault;
use protox_descriptor::tag::message::NAME;
use protox_descriptor::values::Text;
use protox_link_fault::{LinkFault, LinkFaultKind};
use protox_names::is_identifier;
use protox_symbols::Symbols;
use protox_views::View;
use std::alloc::{AllocError, Global};

/// The text of a name; the empty one where the name is not set.
pub(crate) fn text_of(name: Option<&Text>) -> &str
    ensures { result.now ≡ text_of (option_copied name.entry) }
{
    match name {
        Some(name) => name.as_str(),
        None => "",
    }
}

/// The scope that what has this name in a scope is. None if the table has no such scope. `near` is
/// a guess at its number.
pub(crate) fn inside(
    view: &View<'_>,
    scope: Option<Option<usize>>,
    name: Option<&Text>,
    near: usize,
) -> Option<Option<usize>>
    ensures { (full : List ℕ) → IsFoundScope view.now.symbols.now full scope
        → IsFoundScope view.now.symbols.now (full_name full (option_copied name.entry)) result }
{
    let scope = scope?;
    // for the proof: a full name has one number
    let _count = view.symbols.len();
    let name = text_of(name);
    match view.symbols.find_near(scope, name, near) {
        Some(number) => Some(Some(number)),
        None if scope.is_none() && name.is_empty() => Some(None),
        None => None,
    }
}

fn is_declared_at(symbols: &Symbols, file: usize, path: &[i32], number: usize) -> bool
    ensures { (sees packages : List Bool) → result
        ≡ is_declared_at symbols.now sees packages file path.now number }
{
    match symbols.thing(number) {
        Some(thing) => thing.file == file && thing.path.as_slice() == path,
        None => false,
    }
}

// Adds a fault if an earlier declaration has the number of a full name, or if there is no number.
fn check_clash(
    alloc: Global,
    view: &View<'_>,
    file: usize,
    path: &[i32],
    number: Option<usize>,
    faults: &mut Vec<LinkFault>,
) -> Result<(), AllocError>
    ensures { OnOk result (faults.new.items ≡ faults.old.items
        ++ clash_faults view.now.symbols.now view.now.sees.now view.now.packages file path.now
        number) }
{
    let Some(number) = number else {
        return add_fault(alloc, file, path, NAME, LinkFaultKind::NotInTable, faults);
    };
    if is_declared_at(view.symbols, file, path, number) {
        return Ok(());
    }
    let kind = LinkFaultKind::AlreadyDefined(number);
    add_fault(alloc, file, path, NAME, kind, faults)
}

// What is wrong with a name that is no identifier.
fn bad_name(name: &str) -> LinkFaultKind
    ensures { result ≡ bad_name name.now }
{
    if name.is_empty() {
        LinkFaultKind::MissingName
    } else {
        LinkFaultKind::BadName
    }
}

// The number of what has this name in a scope, if anything has it, and None if the name is no
// identifier. With no scope, nothing has it. `near` is a guess at the number.
fn number_near(
    symbols: &Symbols,
    scope: Option<Option<usize>>,
    name: &str,
    near: usize,
) -> Option<Option<usize>>
    ensures bad { IfNone result (is_identifier name.now ≡ false) }
    ensures good { IfSome result (λ number. is_identifier name.now ≡ true) }
    ensures number { IfSome result (λ number. (place : Option ℕ) → scope ≡ Some place
        → number ≡ number_of symbols.now.names (name_in symbols.now.names place name.now)) }
{
    // for the proof: a full name has one number
    let _count = symbols.len();
    let Some(place) = scope else {
        return if is_identifier(name) {
            Some(None)
        } else {
            None
        };
    };
    // what is in the table has an identifier for its name
    if symbols.is_part(near, place, name) {
        return Some(Some(near));
    }
    if !is_identifier(name) {
        return None;
    }
    Some(symbols.find(place, name))
}

// The next guess: names are checked in the order in which they have numbers.
fn behind(number: Option<usize>, near: usize) -> usize {
    match number {
        Some(number) => number.saturating_add(1),
        None => near,
    }
}

/// Adds what is wrong with the name of a declaration in a scope. If the names that it uses are to be
/// looked at, it returns the number of the scope. `near` is a guess at the number of the name, and
/// then of the next one.
pub(crate) fn check_name(
    alloc: Global,
    of: &FileView<'_>,
    scope: Option<Option<usize>>,
    path: &[i32],
    name: Option<&Text>,
    near: &mut usize,
    faults: &mut Vec<LinkFault>,
) -> Result<Option<Option<usize>>, AllocError>
    ensures { (full : List ℕ) → IsFoundScope of.now.view.now.symbols.now full scope → IfOk result
        (IsChecked of.now.view.now.symbols.now of.now.view.now.sees.now of.now.view.now.packages
        of.now.number path.now full (option_copied name.entry)
        faults.old.items faults.new.items) }
{
    let name = text_of(name);
    let Some(number) = number_near(of.view.symbols, scope, name, *near) else {
        add_fault(alloc, of.number, path, NAME, bad_name(name), faults)?;
        return Ok(None);
    };
    let Some(scope) = scope else {
        return Ok(None);
    };
    // for the proof: a full name has one number
    let _count = of.view.symbols.len();
    *near = behind(number, *near);
    check_clash(alloc, of.view, of.number, path, number, faults)?;
    Ok(Some(scope))
}
