//! Names of protobuf: texts with dots between their parts.
#![tactic(auto)]

ghost use Rattle.std.specs.Prelude.{◌≡◌, ◌↔◌, ◌<◌, ◌∷◌, ◌++◌, [], true, length, map};
ghost use Rattle.std.specs.Prelude.{IfNone, IfOk, IfSome, IsTrue, MatchOption, string_bytes};
ghost use Rattle.std.specs.List.{list_all};
ghost use Rattle.protox_names.specs.inner.Dots.{IsFirstDot};
ghost use Rattle.protox_names.specs.Names as words;

pub mod cases;
pub mod laws;

use std::alloc::{AllocError, Global};

// Each byte of an identifier stands at its own index, and a point at every other index. So one look
// tells whether a byte belongs to an identifier.
static IDENTIFIER_BYTES: [u8; 256] = *b"\
    ................................\
    ................0123456789......\
    .ABCDEFGHIJKLMNOPQRSTUVWXYZ...._\
    .abcdefghijklmnopqrstuvwxyz.....\
    ................................\
    ................................\
    ................................\
    ................................";

#[inline(always)]
fn is_identifier_byte(byte: u8) -> bool
    ensures { result ≡ words.is_identifier_byte byte }
{
    IDENTIFIER_BYTES[byte as usize] != b'.'
}

// Whether each byte belongs to an identifier.
fn is_each_identifier(bytes: &[u8]) -> bool
    ensures { result ≡ list_all words.is_identifier_byte bytes.now }
{
    let mut rest = bytes;
    while let [byte, more @ ..] = rest {
        if !is_identifier_byte(*byte) {
            return false;
        }
        rest = more;
    }
    true
}

// Whether each byte belongs to an identifier, four bytes at a time, as that is faster.
fn is_all_identifier(bytes: &[u8]) -> bool
    ensures { result ≡ list_all words.is_identifier_byte bytes.now }
{
    let mut rest = bytes;
    while let [first, second, third, fourth, more @ ..] = rest {
        let front = is_identifier_byte(*first) && is_identifier_byte(*second);
        let back = is_identifier_byte(*third) && is_identifier_byte(*fourth);
        if !(front && back) {
            return false;
        }
        rest = more;
    }
    is_each_identifier(rest)
}

/// Whether this can be the name of a declaration: at least one character, each of them a letter of
/// ASCII, a digit or `_`. It may begin with a digit, as for protoc.
pub fn is_identifier(name: &str) -> bool
    ensures { result ≡ words.is_identifier name.now }
{
    !name.is_empty() && is_all_identifier(name.as_bytes())
}

// The index of the first dot, or the length of a name that has no dot.
fn first_dot(name: &str) -> usize
    ensures { IsFirstDot name.now result }
{
    let bytes = name.as_bytes();
    let mut index = 0;
    while index < bytes.len() {
        if bytes[index] == b'.' {
            return index;
        }
        index += 1;
    }
    index
}

/// Whether the name has no dot.
pub fn is_one_part(name: &str) -> bool
    ensures { result ≡ words.is_one_part name.now }
{
    first_dot(name) == name.len()
}

/// Whether the name begins with a dot. Then it is a full name, wherever it is used.
pub fn is_absolute(name: &str) -> bool
    ensures { result ≡ words.is_absolute name.now }
{
    name.starts_with('.')
}

/// The first part: what stands before the first dot, or all of a name that has no dot.
pub fn front(name: &str) -> &str
    ensures { result.now ≡ words.front name.now }
{
    &name[..first_dot(name)]
}

/// The name cut at its first dot: the first part, and what stands behind the dot. None if it has no
/// dot.
pub fn split_front(name: &str) -> Option<(&str, &str)>
    ensures none { IfNone result (words.is_one_part name.now ≡ true) }
    ensures front { IfSome result (λ cut. cut.0.now ≡ words.front name.now) }
    ensures one_part { IfSome result (λ cut. words.is_one_part cut.0.now ≡ true) }
    ensures whole { IfSome result (λ cut. name.now ≡ cut.0.now ++ 46 ∷ cut.1.now) }
{
    let index = first_dot(name);
    if index == name.len() {
        return None;
    }
    Some((&name[..index], &name[index + 1..]))
}

/// The scope that what has this full name stands in: all before the last dot. None if it has no
/// dot.
pub fn enclosing(name: &str) -> Option<&str>
    ensures scopes { MatchOption result (words.scopes name.now ≡ [])
        (λ scope. words.scopes name.now ≡ scope.now ∷ words.scopes scope.now) }
    ensures shorter { IfSome result (λ scope. length scope.now < length name.now) }
{
    let (scope, _) = name.rsplit_once('.')?;
    Some(scope)
}

/// The parts: what stands between the dots.
///
/// # Errors
/// `AllocError` where memory runs out.
pub fn parts(alloc: Global, name: &str) -> Result<Vec<&str>, AllocError>
    ensures { IfOk result (λ made. map (λ part. part.now) made.items ≡ words.parts name.now) }
{
    name.split('.').collect(alloc)
}

/// The full name of what has this name in a scope: a dot stands between the two. In the nameless
/// scope, which is the empty text, it is the name alone.
///
/// # Errors
/// `AllocError` where memory runs out.
pub fn within(alloc: Global, scope: &str, name: &str) -> Result<String, AllocError>
    ensures { IfOk result (λ made. string_bytes made ≡ words.within scope.now name.now) }
{
    if scope.is_empty() {
        return String::from_str(alloc, name);
    }
    let mut made = String::from_str(alloc, scope)?;
    made.push_str(".")?;
    made.push_str(name)?;
    Ok(made)
}

/// Whether this is the full name of what has this name in a scope. It takes no memory.
pub fn is_within(full_name: &str, scope: &str, name: &str) -> bool
    ensures { IsTrue result ↔ (full_name.now ≡ words.within scope.now name.now) }
{
    if scope.is_empty() {
        return full_name == name;
    }
    let Some(rest) = full_name.strip_prefix(scope) else {
        return false;
    };
    let Some(last) = rest.strip_prefix('.') else {
        return false;
    };
    last == name
}
