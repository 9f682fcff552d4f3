//! What is wrong with the defaults of fields whose type has a name.

ghost use Rattle.std.specs.Prelude.{◌≡◌, ◌++◌, ℕ, List, true, option_to_list, OnOk};
ghost use Rattle.std.specs.Option.{option_copied};
ghost use Rattle.protox_link_checks.specs.Defaults.{has_value, is_value_path, is_word};
ghost use Rattle.protox_link_checks.specs.Defaults.{wrong_default, wrong_value};
ghost use Rattle.protox_link_checks.specs.Uses.{default_faults};
ghost use Rattle.protox_name_tree.specs.Tree.{kind_at, name_at};
ghost use Rattle.protox_names.specs.Names as names;
ghost use Rattle.protox_names.specs.Tree.{name_of_place};
ghost use Rattle.protox_scopes.specs.Scopes.{resolve};
ghost use Rattle.protox_scopes.specs.declared.kind.Wanted.TheVariants.{AType};
ghost use Rattle.protox_views.specs.Views.{seen};

use crate::uses::add_if_any;
use protox_descriptor::tag::enum_::VALUE;
use protox_descriptor::tag::field::DEFAULT_VALUE;
use protox_descriptor::values::Text;
use protox_link_fault::{LinkFault, LinkFaultKind};
use protox_names::is_identifier;
use protox_scopes::{Kind, Wanted};
use protox_symbols::Symbols;
use protox_views::View;
use std::alloc::{AllocError, Global};

fn is_word(name: &str) -> bool
    ensures { result ≡ is_word name.now }
{
    match name.as_bytes() {
        [] => false,
        [first, ..] => !first.is_ascii_digit() && is_identifier(name),
    }
}

// Whether a path is that of a value of the enum with the path `of`.
fn is_value_path(of: &[i32], path: &[i32]) -> bool
    ensures { result ≡ is_value_path of.now path.now }
{
    let count = of.len();
    if path.len() < 2 || path.len() - 2 != count {
        return false;
    }
    &path[..count] == of && path[count] == VALUE
}

// Whether the enum with this number has a value of this name.
fn has_value(symbols: &Symbols, number: usize, name: &str) -> bool
    ensures { result ≡ has_value symbols.now number name.now }
{
    let Some(of) = symbols.thing(number) else {
        return false;
    };
    let Some(found) = symbols.find(symbols.outer(number), name) else {
        return false;
    };
    match symbols.thing(found) {
        Some(value) => {
            value.file == of.file && is_value_path(of.path.as_slice(), value.path.as_slice())
        }
        None => false,
    }
}

// What is wrong with a default, where the type is the enum with this number.
fn wrong_value(symbols: &Symbols, number: usize, default: &str) -> Option<LinkFaultKind>
    ensures { option_to_list result ≡ wrong_value symbols.now number default.now }
{
    if !is_word(default) {
        return Some(LinkFaultKind::BadDefault);
    }
    if has_value(symbols, number, default) {
        return None;
    }
    Some(LinkFaultKind::NoSuchValue(number))
}

// What is wrong with a default where the type has this number, if there is one.
fn wrong_default(symbols: &Symbols, number: Option<usize>, default: &str) -> Option<LinkFaultKind>
    ensures { option_to_list result ≡ wrong_default symbols.now number default.now }
{
    let number = number?;
    match symbols.kind(number) {
        Kind::Message => Some(LinkFaultKind::MessageDefault),
        Kind::Enum => wrong_value(symbols, number, default),
        _ => None,
    }
}

/// Adds what is wrong with a default, if there is one, of a field whose type has a name, if it has
/// one. The name is used in the scope with a number.
///
/// # Errors
/// `AllocError` where memory runs out.
pub(crate) fn check_default(
    alloc: Global,
    view: &View<'_>,
    file: usize,
    scope: Option<usize>,
    path: &[i32],
    of_type: Option<&Text>,
    default: Option<&Text>,
    faults: &mut Vec<LinkFault>,
) -> Result<(), AllocError>
    ensures { (user : List ℕ) → names.is_one_part user ≡ true → OnOk result (faults.new.items
        ≡ faults.old.items ++ default_faults view.now.symbols.now view.now.sees.now
        view.now.packages file path.now
        (names.within (name_of_place (name_at view.now.symbols.now.names) scope) user)
        (option_copied of_type.entry) (option_copied default.entry)) }
{
    let Some(default) = default else {
        return Ok(());
    };
    let Some(name) = of_type else {
        return Ok(());
    };
    let number = view.resolve(Wanted::AType, name.as_str(), scope);
    let wrong = wrong_default(view.symbols, number, default.as_str());
    add_if_any(alloc, file, path, DEFAULT_VALUE, wrong, faults)
}
