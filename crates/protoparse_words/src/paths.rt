//! What a file is called in the folder that holds it. Paths are texts here: nobody looks where they
//! lead to.

ghost use Rattle.std.specs.Prelude.{◌≡◌, ◌≢◌, ◌++◌, List, ℕ, All, IfOk, IfSome, IfNone, OnOk, codes, if◌then◌else◌, string_bytes};
ghost use Rattle.std.specs.List.{join_with_byte};
ghost use Rattle.protoparse_words.specs.Names as words;
ghost use Rattle.protoparse_words.specs.Names.{IsNameBehind, IsNameIn, IsNameUnder, texts};

use std::alloc::{AllocError, Global};

// Whether what stands between two slashes is a part of the path.
fn is_part(piece: &str) -> bool
    ensures { result ≡ words.is_part piece.now }
{
    !piece.is_empty() && piece != "."
}

// The parts of a path.
fn parts_of(alloc: Global, path: &str) -> Result<Vec<&str>, AllocError>
    ensures { IfOk result (λ parts. texts parts.items ≡ words.parts_of path.now) }
{
    path.split('/')
        .filter(|piece| is_part(piece))
        .collect(alloc)
}

// Whether a path begins at the root.
fn is_absolute(path: &str) -> bool
    ensures { result ≡ words.is_absolute path.now }
{
    path.starts_with('/')
}

// Whether the parts name something in a folder: there are some, and none leads up.
fn is_name(parts: &[&str]) -> bool
    ensures { result ≡ words.is_name (texts parts.now) }
{
    !parts.is_empty() && parts.iter().all(|part| *part != "..")
}

// What stands behind the parts of a folder, if these come first.
fn behind<'a, 'b>(parts: &'a [&'b str], above: &[&str]) -> Option<&'a [&'b str]>
    ensures found { IfSome result (λ rest. texts parts.now ≡ texts above.now ++ texts rest.now) }
    ensures none { IfNone result ((rest : List (List ℕ)) → texts parts.now ≢ texts above.now ++ rest) }
{
    if parts.len() < above.len() {
        return None;
    }
    for (i, part) in above.iter().enumerate() {
        if parts[i] != *part {
            return None;
        }
    }
    Some(&parts[above.len()..])
}

// Adds a part to a name, behind a slash unless it is the first.
fn push_part(name: &mut String, part: &str, is_first: bool) -> Result<(), AllocError>
    ensures { OnOk result (string_bytes name.new ≡ (if is_first then string_bytes name.old else string_bytes name.old ++ codes "/") ++ part.now) }
{
    if is_first {
        return name.push_str(part);
    }
    name.push_str("/")?;
    name.push_str(part)
}

// The parts, with a slash between each two.
fn joined(alloc: Global, parts: &[&str]) -> Result<String, AllocError>
    ensures { IfOk result (λ name. string_bytes name ≡ join_with_byte 47 (texts parts.now)) }
{
    let mut name = String::new(alloc);
    for (i, part) in parts.iter().enumerate() {
        push_part(&mut name, part, i == 0)?;
    }
    Ok(name)
}

// What a path of these parts is called in the folder of those above it.
fn name_behind(alloc: Global, parts: &[&str], above: &[&str]) -> Result<Option<String>, AllocError>
    ensures found { IfOk result (λ answer. IfSome answer (λ name. IsNameBehind (texts parts.now) (texts above.now) (string_bytes name))) }
    ensures none { IfOk result (λ answer. IfNone answer ((name : List ℕ) → IsNameBehind (texts parts.now) (texts above.now) name → ⊥)) }
{
    match behind(parts, above) {
        Some(rest) if is_name(rest) => Ok(Some(joined(alloc, rest)?)),
        _ => Ok(None),
    }
}

/// The path relative to the folder: the parts of the path after those of the folder, with a slash
/// between each two. None if the path is outside: it doesn't begin with all parts of the folder,
/// nothing follows them, a `..` follows them, or one of the two begins with a slash and the other
/// doesn't. Parts are compared by their bytes. `.` and an empty part don't count.
///
/// # Errors
/// `AllocError` where memory runs out.
pub fn relative(alloc: Global, path: &str, folder: &str) -> Result<Option<String>, AllocError>
    ensures found { IfOk result (λ answer. IfSome answer (λ name. IsNameUnder path.now folder.now (string_bytes name))) }
    ensures none { IfOk result (λ answer. IfNone answer (words.IsOutside path.now folder.now)) }
{
    if is_absolute(path) != is_absolute(folder) {
        return Ok(None);
    }
    let parts = parts_of(alloc, path)?;
    let above = parts_of(alloc, folder)?;
    name_behind(alloc, parts.as_slice(), above.as_slice())
}

/// What the path is called in the first of the folders that holds it, if one does.
///
/// # Errors
/// `AllocError` where memory runs out.
pub fn name_in(alloc: Global, path: &str, folders: &[&str]) -> Result<Option<String>, AllocError>
    ensures found { IfOk result (λ answer. IfSome answer (λ name. IsNameIn path.now (texts folders.now) (string_bytes name))) }
    ensures none { IfOk result (λ answer. IfNone answer (All (words.IsOutside path.now) (texts folders.now))) }
{
    for folder in folders {
        if let Some(name) = relative(alloc, path, folder)? {
            return Ok(Some(name));
        }
    }
    Ok(None)
}
