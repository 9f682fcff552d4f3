//! The rules for names, and the name of a map's entry message.

ghost use Rattle.std.specs.Prelude.{◌≡◌, IfOk};
ghost use Rattle.std.specs.List.{list_all};
ghost use Rattle.std.specs.String.{string_bytes};
ghost use Rattle.protox_descriptor.specs.Case.{is_ident_byte, is_ident, is_group_name, pascal_case};

use std::alloc::{AllocError, Global};

/// Whether `name` is an identifier: an ASCII letter or `_`, then ASCII letters, digits and `_`.
pub fn is_valid_ident(name: &str) -> bool
    ensures { result ≡ is_ident name.now }
{
    match name.as_bytes() {
        [first, rest @ ..] => {
            (first.is_ascii_alphabetic() || *first == b'_') && are_ident_bytes(rest)
        }
        [] => false,
    }
}

/// Whether `name` may name a group: an ASCII capital, then ASCII letters, digits and `_`.
pub fn is_valid_group_name(name: &str) -> bool
    ensures { result ≡ is_group_name name.now }
{
    match name.as_bytes() {
        [first, rest @ ..] => first.is_ascii_uppercase() && are_ident_bytes(rest),
        [] => false,
    }
}

fn are_ident_bytes(bytes: &[u8]) -> bool
    ensures { result ≡ list_all is_ident_byte bytes.now }
{
    bytes
        .iter()
        .all(|byte| byte.is_ascii_alphanumeric() || *byte == b'_')
}

/// `name` without its `_`, or `AllocError`. The first character and each character right after a
/// `_` becomes an ASCII capital: `foo_bar` gives `FooBar`.
pub fn to_pascal_case(alloc: Global, name: &str) -> Result<String, AllocError>
    ensures { IfOk result (λ pascal. string_bytes pascal ≡ pascal_case name.now) }
{
    let mut pascal = String::new(alloc);
    let mut raised = true;
    for letter in name.chars() {
        if letter == '_' {
            raised = true;
        } else if raised {
            pascal.push(letter.to_ascii_uppercase())?;
            raised = false;
        } else {
            pascal.push(letter)?;
        }
    }
    Ok(pascal)
}
