//! Names that faults speak of, and what has them.

ghost use Rattle.std.specs.Prelude.{◌≡◌, slice_get};
ghost use Rattle.std.specs.Option.{option_and_then, option_copied};
ghost use Rattle.protox_option_checks.specs.Names as words;
ghost use Rattle.protox_settings.specs.Fields.{named};
ghost use Rattle.protox_walk.specs.Declarations.{text_of};

use protox_descriptor::descriptor::{EnumValueDescriptorProto, FieldDescriptorProto};
use protox_descriptor::values::Text;
use protox_names::enclosing;
use protox_symbols::Symbols;

/// The text of a name; the empty one where the name is not set.
pub(crate) fn text_of(name: Option<&Text>) -> &str
    ensures { result.now ≡ text_of (option_copied name.entry) }
{
    match name {
        Some(name) => name.as_str(),
        None => "",
    }
}

/// The scope that what has this full name stands in. None if that is the nameless one.
pub(crate) fn outer_scope(full_name: &str) -> Option<&str>
    ensures { option_copied result ≡ words.outer_scope full_name.now }
{
    enclosing(full_name)
}

// The number of what has a full name, behind a dot. None if there is no dot.
fn named(symbols: &Symbols, name: &str) -> Option<usize>
    ensures { result ≡ named symbols.now name.now }
{
    match name.strip_prefix('.') {
        Some(full_name) => symbols.find(None, full_name),
        None => None,
    }
}

/// The number of what has a full name, behind a dot, if there is a name.
pub(crate) fn found(symbols: &Symbols, name: Option<&Text>) -> Option<usize>
    ensures { result ≡ option_and_then (named symbols.now) (option_copied name.entry) }
{
    named(symbols, name?.as_str())
}

fn scope_number(symbols: &Symbols, scope: Option<&str>) -> Option<usize>
    ensures { result ≡ words.scope_number symbols.now (option_copied scope.entry) }
{
    symbols.find(None, scope?)
}

/// The number of the message of a field with this full name: the one that it extends, or the one
/// that it stands in.
pub(crate) fn message_of(
    symbols: &Symbols,
    full_name: &str,
    field: &FieldDescriptorProto,
) -> Option<usize>
    ensures { result ≡ words.message_of symbols.now full_name.now field.now.extendee }
{
    match field.extendee() {
        Some(extendee) => named(symbols, extendee.as_str()),
        None => scope_number(symbols, outer_scope(full_name)),
    }
}

fn value_at(values: &[EnumValueDescriptorProto], index: usize) -> Option<&EnumValueDescriptorProto>
    ensures { option_copied result ≡ slice_get values.now index }
{
    values.get(index)
}

fn value_name(value: Option<&EnumValueDescriptorProto>) -> &str
    ensures { result.now ≡ words.value_name (option_copied value.entry) }
{
    match value {
        Some(value) => text_of(value.name.as_ref()),
        None => "",
    }
}

/// The number of the value with an index, of the values that stand in a scope.
pub(crate) fn value_number(
    symbols: &Symbols,
    scope: &str,
    values: &[EnumValueDescriptorProto],
    index: usize,
) -> Option<usize>
    ensures { result ≡ words.value_number symbols.now scope.now values.now index }
{
    symbols.find_within(scope, value_name(value_at(values, index)))
}
