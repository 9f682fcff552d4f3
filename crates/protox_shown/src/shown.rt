//! Texts and faults as they are shown.

ghost use Rattle.std.specs.Prelude.{◌≡◌, Some};
ghost use Rattle.std.specs.Fmt.{DisplaysOnOk};
ghost use Rattle.protox_shown.specs.Shown as shown_as;

use protox_fault::error::ParseErrorKind;
use std::fmt;

/// How many characters of a text are shown in brief.
const BRIEF: usize = 200;

// Whether the character has Unicode's property Default_Ignorable_Code_Point, up to U+2FFF.
fn is_low_ignorable(c: char) -> bool
    ensures { result ≡ shown_as.is_low_ignorable c }
{
    matches!(
        c,
        '\u{ad}' | '\u{34f}' | '\u{61c}' | '\u{115f}'..='\u{1160}' | '\u{17b4}'..='\u{17b5}'
            | '\u{180b}'..='\u{180f}' | '\u{200b}'..='\u{200f}' | '\u{202a}'..='\u{202e}'
            | '\u{2060}'..='\u{206f}'
    )
}

// Whether a character from U+3000 on is one that a terminal shows nothing of.
fn is_high_ignorable(c: char) -> bool
    ensures { result ≡ shown_as.is_high_ignorable c }
{
    matches!(
        c,
        '\u{3164}' | '\u{fe00}'..='\u{fe0f}' | '\u{feff}' | '\u{ffa0}'
            | '\u{fff0}'..='\u{fff8}' | '\u{1bca0}'..='\u{1bca3}'
            | '\u{1d173}'..='\u{1d17a}' | '\u{e0000}'..='\u{e0fff}'
    )
}

/// Whether a terminal acts on the character or shows nothing of it. These are control characters,
/// separators of lines and paragraphs, and the characters with Unicode's property
/// Default_Ignorable_Code_Point, such as marks of text direction and characters without width.
pub fn is_hidden(c: char) -> bool
    ensures { result ≡ shown_as.is_hidden c }
{
    c.is_control()
        || matches!(c, '\u{2028}'..='\u{2029}')
        || is_low_ignorable(c)
        || is_high_ignorable(c)
}

// Writes the character as it is, or as `\u{..}` with its code in hexadecimal digits if it is
// hidden.
fn write_shown<W: fmt::Write>(c: char, f: &mut fmt::Formatter<W>) -> fmt::Result
    ensures { DisplaysOnOk W.write_str_gives f.old result (Some (shown_as.shown_char c)) f.new }
{
    if is_hidden(c) {
        write!(f, "\\u{{{:x}}}", c as u32)
    } else {
        f.write_char(c)
    }
}

fn write_text<W: fmt::Write>(text: &str, f: &mut fmt::Formatter<W>) -> fmt::Result
    ensures { DisplaysOnOk W.write_str_gives f.old result (Some (shown_as.shown text.now)) f.new }
{
    for c in text.chars() {
        write_shown(c, f)?;
    }
    Ok(())
}

fn write_brief<W: fmt::Write>(text: &str, f: &mut fmt::Formatter<W>) -> fmt::Result
    ensures { DisplaysOnOk W.write_str_gives f.old result (Some (shown_as.shown_brief text.now)) f.new }
{
    let mut left = BRIEF;
    for c in text.chars() {
        if left == 0 {
            return f.write_char('…');
        }
        left -= 1;
        write_shown(c, f)?;
    }
    Ok(())
}

/// A text to be shown on a line of a terminal. Display writes each hidden character as `\u{..}`.
#[derive(Clone, Copy)]
pub struct Shown<'a>(pub &'a str);

impl fmt::Display for Shown<'_> {
    ghost use Rattle.std.specs.Prelude.{Some};
    ghost use Rattle.protox_shown.specs.Shown.{shown};

    ghost output = { λ text. Some (shown text.0.now) };

    fn fmt<W: fmt::Write>(&self, f: &mut fmt::Formatter<W>) -> fmt::Result {
        write_text(self.0, f)
    }
}

/// The first 200 characters of a text to be shown on a line of a terminal. `…` stands for all others.
#[derive(Clone, Copy)]
pub struct Brief<'a>(pub &'a str);

impl fmt::Display for Brief<'_> {
    ghost use Rattle.std.specs.Prelude.{Some};
    ghost use Rattle.protox_shown.specs.Shown.{shown_brief};

    ghost output = { λ text. Some (shown_brief text.0.now) };

    fn fmt<W: fmt::Write>(&self, f: &mut fmt::Formatter<W>) -> fmt::Result {
        write_brief(self.0, f)
    }
}

/// A fault to be shown on a line of a terminal. Display writes its text, with what it repeats of
/// the source as `Brief` shows it.
#[derive(Clone, Copy)]
pub struct ShownFault<'a>(pub &'a ParseErrorKind);

impl fmt::Display for ShownFault<'_> {
    ghost use Rattle.std.specs.Prelude.{Some};
    ghost use Rattle.protox_shown.specs.Shown.{shown_fault};

    ghost output = { λ fault. Some (shown_fault fault.0.now) };

    fn fmt<W: fmt::Write>(&self, f: &mut fmt::Formatter<W>) -> fmt::Result {
        match self.0 {
            ParseErrorKind::UnknownSyntax { syntax, .. } => {
                write!(f, "unknown syntax '{}'", Brief(syntax.as_str()))
            }
            ParseErrorKind::UnexpectedToken {
                expected,
                found,
                ..
            } => write!(
                f,
                "expected {expected}, but found '{}'",
                Brief(found.as_str())
            ),
            ParseErrorKind::ValueInvalidType {
                expected,
                actual,
                ..
            } => write!(
                f,
                "expected value to be {expected}, but found '{}'",
                Brief(actual.as_str())
            ),
            fault => write!(f, "{fault}"),
        }
    }
}
