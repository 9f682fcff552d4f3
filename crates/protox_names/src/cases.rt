//! Names that are spelled in another way.

ghost use Rattle.std.specs.Prelude.{◌≡◌, ◌++◌, OnOk, IfOk, string_bytes};
ghost use Rattle.protox_names.specs.Cases as words;

use std::alloc::{AllocError, Global};

// Adds a piece of a name, with a capital in front if it begins with a small letter.
fn push_capitalized(made: &mut String, piece: &str) -> Result<(), AllocError>
    ensures { OnOk result
        (string_bytes made.new ≡ string_bytes made.old ++ words.capitalized piece.now) }
{
    let mut others = piece.chars();
    let Some(first) = others.next() else {
        return Ok(());
    };
    made.push(first.to_ascii_uppercase())?;
    made.push_str(others.as_str())
}

/// What a field of this name is called in JSON, if its options don't say: each `_` is dropped, and
/// a small letter of ASCII behind it becomes a capital.
///
/// # Errors
/// `AllocError` where memory runs out.
pub fn json_name(alloc: Global, name: &str) -> Result<String, AllocError>
    ensures { IfOk result (λ made. string_bytes made ≡ words.json_name name.now) }
{
    let Some((first, mut rest)) = name.split_once('_') else {
        return String::from_str(alloc, name);
    };
    let mut made = String::with_capacity(alloc, name.len())?;
    made.push_str(first)?;
    while let Some((piece, more)) = rest.split_once('_') {
        push_capitalized(&mut made, piece)?;
        rest = more;
    }
    push_capitalized(&mut made, rest)?;
    Ok(made)
}

/// The name in small letters of ASCII, and without its `_`. Where two names give the same, most
/// languages would spell them alike.
///
/// # Errors
/// `AllocError` where memory runs out.
pub fn without_case(alloc: Global, name: &str) -> Result<String, AllocError>
    ensures { IfOk result (λ made. string_bytes made ≡ words.without_case name.now) }
{
    let mut made = String::new(alloc);
    let mut rest = name;
    while let Some((piece, more)) = rest.split_once('_') {
        made.push_str(piece)?;
        rest = more;
    }
    made.push_str(rest)?;
    made.make_ascii_lowercase();
    Ok(made)
}
