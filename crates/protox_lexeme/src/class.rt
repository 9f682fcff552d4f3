//! The classes of tokens, by which a rule of the grammar chooses what comes next. There is one for
//! each keyword, one for all other words, one for each kind of literal, one for each mark, and one
//! for what is no token. A class is a number, so that tests are fast.

ghost use Rattle.std.specs.Prelude.{◌≡◌, ◌<◌, [], slice_index_or};
ghost use Rattle.protox_lexeme.specs.TokenClass.{class, place, keywords};
ghost use Rattle.protox_lexeme.specs.Tokens.{shape_of, shape_of_result};
ghost use Rattle.protox_lexeme.specs.inner.WordSlot.{candidate, word_slot};

use crate::bytes::byte_at;
use crate::token::Token;

/// The keyword `syntax`.
pub const SYNTAX: u8 = 0;

/// The keyword `package`.
pub const PACKAGE: u8 = 1;

/// The keyword `import`.
pub const IMPORT: u8 = 2;

/// The keyword `weak`.
pub const WEAK: u8 = 3;

/// The keyword `public`.
pub const PUBLIC: u8 = 4;

/// The keyword `enum`.
pub const ENUM: u8 = 5;

/// The keyword `option`.
pub const OPTION: u8 = 6;

/// The keyword `service`.
pub const SERVICE: u8 = 7;

/// The keyword `rpc`.
pub const RPC: u8 = 8;

/// The keyword `stream`.
pub const STREAM: u8 = 9;

/// The keyword `returns`.
pub const RETURNS: u8 = 10;

/// The keyword `extend`.
pub const EXTEND: u8 = 11;

/// The keyword `message`.
pub const MESSAGE: u8 = 12;

/// The keyword `optional`.
pub const OPTIONAL: u8 = 13;

/// The keyword `required`.
pub const REQUIRED: u8 = 14;

/// The keyword `repeated`.
pub const REPEATED: u8 = 15;

/// The keyword `map`.
pub const MAP: u8 = 16;

/// The keyword `oneof`.
pub const ONEOF: u8 = 17;

/// The keyword `group`.
pub const GROUP: u8 = 18;

/// The keyword `double`.
pub const DOUBLE: u8 = 19;

/// The keyword `float`.
pub const FLOAT_WORD: u8 = 20;

/// The keyword `int32`.
pub const INT32: u8 = 21;

/// The keyword `int64`.
pub const INT64: u8 = 22;

/// The keyword `uint32`.
pub const UINT32: u8 = 23;

/// The keyword `uint64`.
pub const UINT64: u8 = 24;

/// The keyword `sint32`.
pub const SINT32: u8 = 25;

/// The keyword `sint64`.
pub const SINT64: u8 = 26;

/// The keyword `fixed32`.
pub const FIXED32: u8 = 27;

/// The keyword `fixed64`.
pub const FIXED64: u8 = 28;

/// The keyword `sfixed32`.
pub const SFIXED32: u8 = 29;

/// The keyword `sfixed64`.
pub const SFIXED64: u8 = 30;

/// The keyword `bool`.
pub const BOOL: u8 = 31;

/// The keyword `string`.
pub const STRING_WORD: u8 = 32;

/// The keyword `bytes`.
pub const BYTES: u8 = 33;

/// The keyword `reserved`.
pub const RESERVED: u8 = 34;

/// The keyword `extensions`.
pub const EXTENSIONS: u8 = 35;

/// The keyword `to`.
pub const TO: u8 = 36;

/// The keyword `max`.
pub const MAX: u8 = 37;

/// Any word that is no keyword.
pub const OTHER_WORD: u8 = 38;

/// An integer.
pub const INTEGER: u8 = 39;

/// A float.
pub const FLOAT: u8 = 40;

/// A string.
pub const STRING: u8 = 41;

/// The mark `.`.
pub const DOT: u8 = 42;

/// The mark `-`.
pub const MINUS: u8 = 43;

/// The mark `+`.
pub const PLUS: u8 = 44;

/// The mark `(`.
pub const LEFT_PAREN: u8 = 45;

/// The mark `)`.
pub const RIGHT_PAREN: u8 = 46;

/// The mark `{`.
pub const LEFT_BRACE: u8 = 47;

/// The mark `}`.
pub const RIGHT_BRACE: u8 = 48;

/// The mark `[`.
pub const LEFT_BRACKET: u8 = 49;

/// The mark `]`.
pub const RIGHT_BRACKET: u8 = 50;

/// The mark `<`.
pub const LEFT_ANGLE_BRACKET: u8 = 51;

/// The mark `>`.
pub const RIGHT_ANGLE_BRACKET: u8 = 52;

/// The mark `,`.
pub const COMMA: u8 = 53;

/// The mark `=`.
pub const EQUALS: u8 = 54;

/// The mark `:`.
pub const COLON: u8 = 55;

/// The mark `;`.
pub const SEMICOLON: u8 = 56;

/// The mark `/`.
pub const FORWARD_SLASH: u8 = 57;

/// What is no token: an invalid character, a comment or a newline.
pub const INVALID: u8 = 59;

// A perfect hash: each slot has the class of the one keyword that can stand there, or that of other
// words. So a word is compared with one keyword at most.
static KEYWORD_AT: [u8; 128] = [
    38, 38, 38, 38, 38, 38, 38, 38, 38, 38, 37, 38, 38, 20, 33, 38, 38, 2, 38, 38, 35, 38, 38, 38,
    38, 38, 38, 38, 38, 38, 38, 38, 38, 38, 10, 38, 38, 38, 38, 19, 38, 11, 38, 38, 38, 38, 38, 38,
    15, 27, 38, 38, 38, 38, 38, 38, 38, 0, 38, 28, 17, 4, 38, 29, 14, 38, 38, 38, 8, 38, 1, 38, 38,
    30, 38, 38, 38, 38, 32, 38, 21, 38, 34, 12, 3, 38, 38, 38, 38, 38, 22, 25, 38, 23, 38, 7, 31,
    38, 16, 38, 9, 26, 38, 24, 38, 38, 38, 38, 38, 6, 38, 38, 38, 13, 38, 38, 5, 38, 38, 38, 38,
    38, 18, 38, 38, 38, 38, 36,
];

// The slot of a word: by its first, middle and last byte and its length.
fn place_of(word: &[u8]) -> usize
    ensures value { result ≡ word_slot word.now }
    ensures within { result < 128 }
{
    let first = byte_at(word, 0) as usize;
    let middle = byte_at(word, word.len() / 2) as usize;
    let last = byte_at(word, word.len().saturating_sub(1)) as usize;
    (first + middle * 2 + last * 5 + word.len() % 128) % 128
}

// The only keyword that the word can be, by its class.
fn candidate(word: &str) -> u8
    ensures { result ≡ candidate word.now }
{
    KEYWORD_AT[place_of(word.as_bytes())]
}

// The keyword of a class.
fn keyword_of(class: u8) -> &'static str
    requires { class < 38 }
    ensures { result.now ≡ slice_index_or keywords class [] }
{
    match class {
        SYNTAX => "syntax",
        PACKAGE => "package",
        IMPORT => "import",
        WEAK => "weak",
        PUBLIC => "public",
        ENUM => "enum",
        OPTION => "option",
        SERVICE => "service",
        RPC => "rpc",
        STREAM => "stream",
        RETURNS => "returns",
        EXTEND => "extend",
        MESSAGE => "message",
        OPTIONAL => "optional",
        REQUIRED => "required",
        REPEATED => "repeated",
        MAP => "map",
        ONEOF => "oneof",
        GROUP => "group",
        DOUBLE => "double",
        FLOAT_WORD => "float",
        INT32 => "int32",
        INT64 => "int64",
        UINT32 => "uint32",
        UINT64 => "uint64",
        SINT32 => "sint32",
        SINT64 => "sint64",
        FIXED32 => "fixed32",
        FIXED64 => "fixed64",
        SFIXED32 => "sfixed32",
        SFIXED64 => "sfixed64",
        BOOL => "bool",
        STRING_WORD => "string",
        BYTES => "bytes",
        RESERVED => "reserved",
        EXTENSIONS => "extensions",
        TO => "to",
        MAX => "max",
        _ => unreachable!(),
    }
}

// The class of a word.
fn class_of_word(word: &str) -> u8
    ensures { result ≡ place keywords word.now }
{
    let class = candidate(word);
    if class >= OTHER_WORD {
        return OTHER_WORD;
    }
    if word == keyword_of(class) {
        class
    } else {
        OTHER_WORD
    }
}

/// The class of a token. Comments and newlines have the class of what is no token.
pub fn class_of(token: &Token<'_>) -> u8
    ensures { result ≡ class (shape_of token.now) }
{
    match token {
        Token::Ident(word) => class_of_word(word),
        Token::IntLiteral(_) => INTEGER,
        Token::FloatLiteral(_) => FLOAT,
        Token::StringLiteral(_) => STRING,
        Token::Dot => DOT,
        Token::Minus => MINUS,
        Token::Plus => PLUS,
        Token::LeftParen => LEFT_PAREN,
        Token::RightParen => RIGHT_PAREN,
        Token::LeftBrace => LEFT_BRACE,
        Token::RightBrace => RIGHT_BRACE,
        Token::LeftBracket => LEFT_BRACKET,
        Token::RightBracket => RIGHT_BRACKET,
        Token::LeftAngleBracket => LEFT_ANGLE_BRACKET,
        Token::RightAngleBracket => RIGHT_ANGLE_BRACKET,
        Token::Comma => COMMA,
        Token::Equals => EQUALS,
        Token::Colon => COLON,
        Token::Semicolon => SEMICOLON,
        Token::ForwardSlash => FORWARD_SLASH,
        _ => INVALID,
    }
}

/// The class of a token, or of an invalid lexeme.
pub fn class_of_result(token: &Result<Token<'_>, ()>) -> u8
    ensures { result ≡ class (shape_of_result token.now) }
{
    match token {
        Ok(token) => class_of(token),
        Err(()) => INVALID,
    }
}
