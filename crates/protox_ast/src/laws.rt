//! Laws of equality. Each is a function that only compares two values. Its contract is the law.
ghost use Rattle.std.specs.Prelude.{◌≡◌, ◌↔◌, IsTrue};

use crate::ast::{FieldLabel, File, Float, Ident, ImportKind, Int, String, Syntax};

/// Two syntaxes are equal exactly when they are the same.
pub fn syntaxes_are_equal_by_value(a: &Syntax, b: &Syntax) -> bool
    ensures { IsTrue result ↔ (a.now ≡ b.now) }
{
    a == b
}

/// Two labels are equal exactly when they are the same.
pub fn labels_are_equal_by_value(a: &FieldLabel, b: &FieldLabel) -> bool
    ensures { IsTrue result ↔ (a.now ≡ b.now) }
{
    a == b
}

/// Two kinds of imports are equal exactly when they are the same.
pub fn import_kinds_are_equal_by_value(a: &ImportKind, b: &ImportKind) -> bool
    ensures { IsTrue result ↔ (a.now ≡ b.now) }
{
    a == b
}

/// Two identifiers are equal exactly when their texts and spans are.
pub fn identifiers_are_equal_by_fields(a: &Ident, b: &Ident) -> bool
    ensures { IsTrue result ↔ (a.now ≡ b.now) }
{
    a == b
}

/// Two integers are equal exactly when their signs, values and spans are.
pub fn integers_are_equal_by_fields(a: &Int, b: &Int) -> bool
    ensures { IsTrue result ↔ (a.now ≡ b.now) }
{
    a == b
}

/// Two floats are equal exactly when their texts and spans are.
pub fn floats_are_equal_by_fields(a: &Float, b: &Float) -> bool
    ensures { IsTrue result ↔ (a.now ≡ b.now) }
{
    a == b
}

/// Two strings are equal exactly when their bytes and spans are.
pub fn strings_are_equal_by_fields(a: &String, b: &String) -> bool
    ensures { IsTrue result ↔ (a.now ≡ b.now) }
{
    a == b
}

/// Two files are equal exactly when all their fields are equal, in all parts of them too.
pub fn files_are_equal_by_fields(a: &File, b: &File) -> bool
    ensures { IsTrue result ↔ (a.now ≡ b.now) }
{
    a == b
}
