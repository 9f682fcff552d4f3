//! Tests of the word with which a declaration of a message begins. The classes are written out, so
//! that no list is walked: each field asks.

ghost use Rattle.std.specs.Prelude.{◌≡◌, [], ◌∷◌};
ghost use Rattle.protox_grammar.specs.Class.{among, in_set};
ghost use Rattle.protox_grammar.specs.Reader.{head_in};
ghost use Rattle.protox_grammar.specs.Token as token;

use protox_rows::class::{
    ENUM, EXTEND, EXTENSIONS, GROUP, MAP, MESSAGE, ONEOF, OPTION, OPTIONAL, REPEATED, REQUIRED,
    RESERVED,
};
use protox_rows::rows::Unread;

fn is_keyword(class: u8) -> bool
    ensures { result ≡ among (token.oneof ∷ token.enum ∷ token.message ∷ token.extend ∷ token.option ∷ token.reserved ∷ token.extensions ∷ []) class }
{
    matches!(
        class,
        ONEOF | ENUM | MESSAGE | EXTEND | OPTION | RESERVED | EXTENSIONS
    )
}

/// Whether the next token begins an element that has a word of its own: any but a field or a `;`.
pub(crate) fn sees_keyword(rows: &Unread<'_, '_>) -> bool
    ensures { result ≡ head_in (in_set (among (token.oneof ∷ token.enum ∷ token.message ∷ token.extend ∷ token.option ∷ token.reserved ∷ token.extensions ∷ []))) rows.now }
{
    match rows.first() {
        Some(first) => is_keyword(first.class()),
        None => false,
    }
}

fn is_label(class: u8) -> bool
    ensures { result ≡ among (token.optional ∷ token.required ∷ token.repeated ∷ []) class }
{
    matches!(class, OPTIONAL | REQUIRED | REPEATED)
}

/// Whether the next token is a label.
pub(crate) fn sees_label(rows: &Unread<'_, '_>) -> bool
    ensures { result ≡ head_in (in_set (among (token.optional ∷ token.required ∷ token.repeated ∷ []))) rows.now }
{
    match rows.first() {
        Some(first) => is_label(first.class()),
        None => false,
    }
}

fn is_map_or_group(class: u8) -> bool
    ensures { result ≡ among (token.map ∷ token.group ∷ []) class }
{
    matches!(class, MAP | GROUP)
}

/// Whether the next token begins a field that is no normal one.
pub(crate) fn sees_map_or_group(rows: &Unread<'_, '_>) -> bool
    ensures { result ≡ head_in (in_set (among (token.map ∷ token.group ∷ []))) rows.now }
{
    match rows.first() {
        Some(first) => is_map_or_group(first.class()),
        None => false,
    }
}
