//! How a text is shown: on one line, without characters that a terminal obeys.

ghost use Rattle.std.specs.Prelude.{◌≡◌, ◌<◌, ◌≤◌, ◌++◌, ℕ, true, length, OnOk, IfOk, chars, replicate};
ghost use Rattle.std.specs.List.{flat_map};
ghost use Rattle.std.specs.String.{string_bytes};
ghost use Rattle.protox_report.specs.Shown.{shown, shown_character, in_place, own_columns, columns, under};

use std::alloc::{AllocError, Global};
use unicode_width::UnicodeWidthChar;

// The columns of a character that is shown as itself; None if it takes none.
fn columns_alone(c: char) -> Option<usize>
    ensures { result ≡ own_columns c }
{
    match c.width() {
        Some(0) => None,
        width => width,
    }
}

// What stands for a character that isn't shown as itself: four blanks for a tab, the number of any
// other.
fn stand_in(alloc: Global, c: char) -> Result<String, AllocError>
    ensures { IfOk result (λ text. string_bytes text ≡ in_place c) }
{
    if c == '\t' {
        return String::from_str(alloc, "    ");
    }
    let number = u32::from(c);
    format!(in alloc; "\\u{{{number:x}}}")
}

fn push_character(alloc: Global, out: &mut String, c: char) -> Result<(), AllocError>
    ensures { OnOk result (string_bytes out.new ≡ string_bytes out.old ++ shown_character c) }
{
    if columns_alone(c).is_some() {
        return out.push(c);
    }
    let text = stand_in(alloc, c)?;
    out.push_str(text.as_str())
}

// Whether a byte is a printable character of ASCII.
fn is_printable(byte: u8) -> bool
    ensures least { result ≡ true → 32 ≤ byte }
    ensures most { result ≡ true → byte ≤ 126 }
{
    32 <= byte && byte <= 126
}

// Whether a text is shown as itself, with a column for each byte: it has only printable ASCII, as
// most have.
#[tactic(auto, using(crate::proofs::Plain::printable_more))]
fn is_plain(text: &str) -> bool
    ensures shown { result ≡ true → shown text.now ≡ text.now }
    ensures columns { result ≡ true → (mark : ℕ) → under mark text.now ≡ replicate (length text.now) mark }
{
    let mut plain = true;
    // No byte ends the loop, so that many are compared at once.
    for byte in text.as_bytes() {
        plain &= is_printable(*byte);
    }
    plain
}

/// Adds a text as it is shown, on one line and safe on a terminal.
pub fn push_shown(alloc: Global, out: &mut String, text: &str) -> Result<(), AllocError>
    ensures { OnOk result (string_bytes out.new ≡ string_bytes out.old ++ shown text.now) }
{
    if is_plain(text) {
        return out.push_str(text);
    }
    for c in text.chars() {
        push_character(alloc, out, c)?;
    }
    Ok(())
}

fn columns_of(alloc: Global, c: char) -> Result<usize, AllocError>
    ensures { IfOk result (λ count. count ≡ columns c) }
{
    if let Some(count) = columns_alone(c) {
        return Ok(count);
    }
    let text = stand_in(alloc, c)?;
    Ok(text.len())
}

// Adds an ASCII character `count` times, one after another.
fn push_singly(out: &mut String, mark: u8, count: usize) -> Result<(), AllocError>
    requires { mark < 128 }
    ensures { OnOk result (string_bytes out.new ≡ string_bytes out.old ++ replicate count mark) }
{
    for done in 0..count {
        out.push(char::from(mark))?;
    }
    Ok(())
}

// Adds an ASCII character `count` times, sixteen at once, and then the rest at once.
#[tactic(auto, using(crate::proofs::Plain::marks))]
fn push_sixteens(out: &mut String, mark: u8, count: usize) -> Result<(), AllocError>
    requires { mark < 128 }
    ensures { OnOk result (string_bytes out.new ≡ string_bytes out.old ++ replicate count mark) }
{
    let block = [mark; 16];
    let Ok(marks) = str::from_utf8(&block) else {
        return push_singly(out, mark, count);
    };
    let mut left = count;
    'full: while 16 <= left {
        out.push_str(marks)?;
        left -= 16;
    }
    out.push_str(&marks[..left])
}

/// Adds an ASCII character `count` times.
pub fn push_times(out: &mut String, mark: u8, count: usize) -> Result<(), AllocError>
    requires { mark < 128 }
    ensures { OnOk result (string_bytes out.new ≡ string_bytes out.old ++ replicate count mark) }
{
    // Few marks cost less one by one than a block of sixteen does.
    if count < 16 {
        return push_singly(out, mark, count);
    }
    push_sixteens(out, mark, count)
}

/// Adds `mark` once for each column that the text takes as it is shown.
pub fn push_under(alloc: Global, out: &mut String, text: &str, mark: u8) -> Result<(), AllocError>
    requires { mark < 128 }
    ensures { OnOk result (string_bytes out.new ≡ string_bytes out.old ++ under mark text.now) }
{
    if is_plain(text) {
        return push_times(out, mark, text.len());
    }
    for c in text.chars() {
        // A character takes at most ten columns.
        let count = columns_of(alloc, c)?;
        push_singly(out, mark, count)?;
    }
    Ok(())
}
