//! A source that begins with an invalid character is refused there, without a table of the rest.

ghost use Rattle.std.specs.Prelude.{◌≡◌, IfOk};
ghost use Rattle.std.specs.Option.{option_map};
ghost use Rattle.protox_ast.specs.Accepted.{Fits};
ghost use Rattle.protox_lexeme.specs.Lexicon.{is_blank};
ghost use Rattle.protox_syntax.specs.inner.Front.{IsFront, starts_invalid};

use protox_lex::error::ParseErrorKind;
use protox_lexeme::bytes::byte_at;
use protox_lexeme::found::invalid;
use protox_lexeme::scan::scan;
use std::alloc::{AllocError, Global};

fn is_blank(b: u8) -> bool
    ensures { result ≡ is_blank b }
{
    b == b' ' || b == b'\t' || (11 <= b && b <= 13)
}

// Whether the source begins with an invalid character. The first byte tells: neither a blank nor a
// lexeme begins with it.
fn starts_invalid(source: &str) -> bool
    ensures { result ≡ starts_invalid source.now }
{
    let bytes = source.as_bytes();
    if bytes.is_empty() || is_blank(byte_at(bytes, 0)) {
        return false;
    }
    scan(&bytes[..1]).is_none()
}

/// The fault of a source that begins with an invalid character: that of the character, since
/// nothing is read behind it. None for any other source. No more than one character is looked at.
pub fn faults_of_invalid_front(
    alloc: Global,
    source: &str,
) -> Result<Option<Vec<ParseErrorKind>>, AllocError>
    requires { Fits source.now }
    ensures { IfOk result (λ found. IsFront source.now (option_map (λ errors. errors.items) found)) }
{
    if !starts_invalid(source) {
        return Ok(None);
    }
    let span = 0..invalid(alloc, source, 0).stop;
    let mut errors = Vec::new(alloc);
    errors.push(ParseErrorKind::InvalidToken { span })?;
    Ok(Some(errors))
}
