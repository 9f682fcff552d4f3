//! How most languages spell the name of a field, and that of a value of an enum.

ghost use Rattle.std.specs.Prelude.{◌≡◌, [], true, IfOk};
ghost use Rattle.std.specs.List.{list_all};
ghost use Rattle.std.specs.Option.{option_copied, unwrap_or};
ghost use Rattle.protox_alike.specs.Keys as words;
ghost use Rattle.protox_names.specs.Cases.{is_underscore, without_case};

use protox_descriptor::values::Text;
use protox_names::cases::without_case;
use std::alloc::{AllocError, Global};

/// The text of a name; the empty one where the name is not set.
pub(crate) fn text_of(name: Option<&Text>) -> &str
    ensures { result.now ≡ unwrap_or (option_copied name.entry) [] }
{
    match name {
        Some(name) => name.as_str(),
        None => "",
    }
}

// What stands behind a prefix in a name.
fn behind<'a>(prefix: &[u8], name: &'a [u8]) -> Option<&'a [u8]>
    ensures { option_copied result ≡ words.behind prefix.now name.now }
{
    let mut left = prefix;
    let mut rest = name;
    while let [first, more @ ..] = left {
        let [byte, others @ ..] = rest else {
            return None;
        };
        if *byte != b'_' {
            if byte.to_ascii_lowercase() != *first {
                return None;
            }
            left = more;
        }
        rest = others;
    }
    Some(rest)
}

// Whether a name has nothing but `_`.
fn is_blank(name: &[u8]) -> bool
    ensures { result ≡ list_all is_underscore name.now }
{
    let mut rest = name;
    while let [byte, more @ ..] = rest {
        if *byte != b'_' {
            return false;
        }
        rest = more;
    }
    true
}

/// The name without the prefix; the whole name, if nothing but `_` stands behind the prefix. Case and
/// `_` don't count, and the prefix is without them.
pub(crate) fn without_prefix<'a>(prefix: &[u8], name: &'a [u8]) -> &'a [u8]
    ensures { result.now ≡ words.without_prefix prefix.now name.now }
{
    let Some(rest) = behind(prefix, name) else {
        return name;
    };
    if is_blank(rest) {
        return name;
    }
    rest
}

/// The name of a field without case and `_`.
///
/// # Errors
/// `AllocError` where memory runs out.
pub(crate) fn key_of_field(alloc: Global, name: &str) -> Result<Vec<u8>, AllocError>
    ensures { IfOk result (λ key. key.items ≡ without_case name.now) }
{
    let key = without_case(alloc, name)?;
    key.as_bytes().to_vec(alloc)
}

/// A byte of a word, at its start or behind.
pub(crate) fn spelled(starts: bool, byte: u8) -> u8
    ensures { result ≡ words.spelled starts byte }
{
    if starts {
        byte.to_ascii_uppercase()
    } else {
        byte.to_ascii_lowercase()
    }
}

/// The name of a value without the prefix, and with a capital where a word begins.
///
/// # Errors
/// `AllocError` where memory runs out.
pub(crate) fn key_of_value(alloc: Global, prefix: &[u8], name: &str) -> Result<Vec<u8>, AllocError>
    ensures { IfOk result (λ key. key.items
        ≡ words.pascal_from true (words.without_prefix prefix.now name.now)) }
{
    let mut rest = without_prefix(prefix, name.as_bytes());
    let mut key = Vec::new(alloc);
    let mut starts = true;
    while let [byte, more @ ..] = rest {
        if *byte != b'_' {
            key.push(spelled(starts, *byte))?;
        }
        starts = *byte == b'_';
        rest = more;
    }
    Ok(key)
}
