//! Tests of the next token by its class. A rule chooses by comparing two numbers.

ghost use Rattle.std.specs.Prelude.{◌≡◌, nat_lt};
ghost use Rattle.protox_grammar.specs.Class.{only, among, but, in_set};
ghost use Rattle.protox_grammar.specs.Reader.{head_in};
ghost use Rattle.protox_grammar.specs.Rules.{scalar_set};

use crate::rows::Unread;
pub use protox_lexeme::class::{
    BOOL, BYTES, COLON, COMMA, DOT, DOUBLE, ENUM, EQUALS, EXTEND, EXTENSIONS, FIXED32, FIXED64,
    FLOAT, FLOAT_WORD, FORWARD_SLASH, GROUP, IMPORT, INT32, INT64, INTEGER, INVALID,
    LEFT_ANGLE_BRACKET, LEFT_BRACE, LEFT_BRACKET, LEFT_PAREN, MAP, MAX, MESSAGE, MINUS, ONEOF,
    OPTION, OPTIONAL, OTHER_WORD, PACKAGE, PLUS, PUBLIC, REPEATED, REQUIRED, RESERVED, RETURNS,
    RIGHT_ANGLE_BRACKET, RIGHT_BRACE, RIGHT_BRACKET, RIGHT_PAREN, RPC, SEMICOLON, SERVICE,
    SFIXED32, SFIXED64, SINT32, SINT64, STREAM, STRING, STRING_WORD, SYNTAX, TO, UINT32, UINT64,
    WEAK,
};

/// Whether the next token has this class. False after the last token.
pub fn sees(rows: &Unread<'_, '_>, wanted: u8) -> bool
    ensures { result ≡ head_in (in_set (only wanted)) rows.now }
{
    match rows.first() {
        Some(first) => first.class() == wanted,
        None => false,
    }
}

/// Whether the next token has another class. False after the last token.
pub fn sees_other(rows: &Unread<'_, '_>, barred: u8) -> bool
    ensures { result ≡ head_in (in_set (but barred)) rows.now }
{
    match rows.first() {
        Some(first) => first.class() != barred,
        None => false,
    }
}

/// Whether the next token has a class below this one. False after the last token.
pub fn sees_below(rows: &Unread<'_, '_>, bound: u8) -> bool
    ensures { result ≡ head_in (in_set (λ k. nat_lt k bound)) rows.now }
{
    match rows.first() {
        Some(first) => first.class() < bound,
        None => false,
    }
}

// Whether the class is that of a scalar type. Written out, so that no list is walked: each field asks.
fn is_scalar(class: u8) -> bool
    ensures { result ≡ scalar_set class }
{
    matches!(
        class,
        DOUBLE
            | FLOAT_WORD
            | INT32
            | INT64
            | UINT32
            | UINT64
            | SINT32
            | SINT64
            | FIXED32
            | FIXED64
            | SFIXED32
            | SFIXED64
            | BOOL
            | STRING_WORD
            | BYTES
    )
}

/// Whether the next token is a scalar type.
pub fn sees_scalar(rows: &Unread<'_, '_>) -> bool
    ensures { result ≡ head_in (in_set scalar_set) rows.now }
{
    match rows.first() {
        Some(first) => is_scalar(first.class()),
        None => false,
    }
}

/// Whether the class is one of these.
pub fn is_among(class: u8, classes: &[u8]) -> bool
    ensures { result ≡ among classes.now class }
{
    match classes {
        [] => false,
        [first, rest @ ..] => class == *first || is_among(class, rest),
    }
}

/// Whether the next token has one of these classes. False after the last token.
pub fn sees_any(rows: &Unread<'_, '_>, classes: &[u8]) -> bool
    ensures { result ≡ head_in (in_set (among classes.now)) rows.now }
{
    match rows.first() {
        Some(first) => is_among(first.class(), classes),
        None => false,
    }
}
