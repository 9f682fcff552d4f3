//! Tokens, and how they print.
ghost use Rattle.std.specs.Prelude.{◌≡◌, ◌<◌, ◌∷◌, true, IfSome, IsSome, Some, flat_map};
ghost use Rattle.std.specs.Char.{digit_char};
ghost use Rattle.std.specs.Fmt.{DisplaysOnOk};
ghost use Rattle.protox_lexeme.specs.Printed.{HasNoValue, hex_pair, printed, printed_byte};
ghost use Rattle.protox_lexeme.specs.Lexicon.{is_mark};
ghost use Rattle.protox_lexeme.specs.Shapes as shape;
ghost use Rattle.protox_lexeme.specs.Tokens.{shape_of, borrowed_of};

use std::borrow::{CowSlice, CowStr};
use std::fmt;

/// The text of a float literal. Two are equal if their texts are.
#[derive(PartialEq, Eq, Drop)]
pub struct EqFloat<'a>(pub CowStr<'a>);

/// A token. Its text is borrowed from the source wherever possible.
#[derive(PartialEq, Eq, Drop)]
pub enum Token<'a> {
    /// A word: a letter or `_`, then letters, digits and `_`. Keywords are words too.
    Ident(&'a str),
    /// A decimal, octal or hexadecimal integer. It is 0 if the literal is too large.
    IntLiteral(u64),
    /// The text of a float, without the suffix `f`. Digits without a point or an exponent get `.0`
    /// added.
    FloatLiteral(EqFloat<'a>),
    /// The bytes for which a string stands. Invalid parts add none.
    StringLiteral(CowSlice<'a, u8>),
    /// The mark `.`.
    Dot,
    /// The mark `-`.
    Minus,
    /// The mark `+`.
    Plus,
    /// The mark `(`.
    LeftParen,
    /// The mark `)`.
    RightParen,
    /// The mark `{`.
    LeftBrace,
    /// The mark `}`.
    RightBrace,
    /// The mark `[`.
    LeftBracket,
    /// The mark `]`.
    RightBracket,
    /// The mark `<`.
    LeftAngleBracket,
    /// The mark `>`.
    RightAngleBracket,
    /// The mark `,`.
    Comma,
    /// The mark `=`.
    Equals,
    /// The mark `:`.
    Colon,
    /// The mark `;`.
    Semicolon,
    /// The mark `/`.
    ForwardSlash,
    /// The text of a comment that begins with `//` or `#`: all that follows, with the newline at
    /// its end.
    LineComment(CowStr<'a>),
    /// The text of a comment between `/*` and `*/`, without the margins of its lines. It is empty
    /// if the comment has a fault.
    BlockComment(CowStr<'a>),
    /// The end of a line.
    Newline,
}

/// The mark with this byte, or None.
#[inline(always)]
pub fn mark_of(byte: u8) -> Option<Token<'static>>
    ensures shape { IfSome result (λ t. shape_of t ≡ shape.Mark byte) }
    ensures borrowed { IfSome result (λ t. borrowed_of t ≡ true) }
    ensures found { is_mark byte ≡ true → IsSome result }
{
    let token = match byte {
        b'.' => Token::Dot,
        b'-' => Token::Minus,
        b'+' => Token::Plus,
        b'(' => Token::LeftParen,
        b')' => Token::RightParen,
        b'{' => Token::LeftBrace,
        b'}' => Token::RightBrace,
        b'[' => Token::LeftBracket,
        b']' => Token::RightBracket,
        b'<' => Token::LeftAngleBracket,
        b'>' => Token::RightAngleBracket,
        b',' => Token::Comma,
        b'=' => Token::Equals,
        b':' => Token::Colon,
        b';' => Token::Semicolon,
        b'/' => Token::ForwardSlash,
        _ => return None,
    };
    Some(token)
}

impl Token<'_> {
    /// The identifier with this word.
    pub fn keyword(word: &'static str) -> Token<'static>
        ensures { shape_of result ≡ shape.Ident word.now }
    {
        Token::Ident(word)
    }
}

impl<'a> fmt::Display for EqFloat<'a> {
    ghost use Rattle.std.specs.Prelude.{Some};
    ghost use Rattle.std.specs.Cow.{cow_str_bytes};

    ghost output = { λ f. Some (cow_str_bytes f.0) };

    fn fmt<W: fmt::Write>(&self, f: &mut fmt::Formatter<W>) -> fmt::Result {
        f.write_str(self.0.as_str())
    }
}

fn mark_text(token: &Token<'_>) -> &'static str
    ensures { HasNoValue token.now → result.now ≡ printed (shape_of token.now) }
{
    match token {
        Token::Dot => ".",
        Token::Minus => "-",
        Token::Plus => "+",
        Token::LeftParen => "(",
        Token::RightParen => ")",
        Token::LeftBrace => "{",
        Token::RightBrace => "}",
        Token::LeftBracket => "[",
        Token::RightBracket => "]",
        Token::LeftAngleBracket => "<",
        Token::RightAngleBracket => ">",
        Token::Comma => ",",
        Token::Equals => "=",
        Token::Colon => ":",
        Token::Semicolon => ";",
        Token::ForwardSlash => "/",
        _ => "\n",
    }
}

fn hex_char(digit: u8) -> char
    requires { digit < 16 }
    ensures { result ≡ digit_char digit }
{
    if digit < 10 {
        char::from(b'0' + digit)
    } else {
        char::from(b'a' + (digit - 10))
    }
}

fn write_hex<W: fmt::Write>(byte: u8, f: &mut fmt::Formatter<W>) -> fmt::Result
    ensures { DisplaysOnOk W.write_str_gives f.old result (Some (92 ∷ 120 ∷ hex_pair byte)) f.new }
{
    f.write_str("\\x")?;
    f.write_char(hex_char(byte / 16))?;
    f.write_char(hex_char(byte % 16))
}

fn write_byte<W: fmt::Write>(byte: u8, f: &mut fmt::Formatter<W>) -> fmt::Result
    ensures { DisplaysOnOk W.write_str_gives f.old result (Some (printed_byte byte)) f.new }
{
    match byte {
        b'\t' => f.write_str("\\t"),
        b'\r' => f.write_str("\\r"),
        b'\n' => f.write_str("\\n"),
        b'\'' => f.write_str("\\'"),
        b'"' => f.write_str("\\\""),
        b'\\' => f.write_str("\\\\"),
        32..=126 => f.write_char(char::from(byte)),
        _ => write_hex(byte, f),
    }
}

fn write_bytes<W: fmt::Write>(bytes: &[u8], f: &mut fmt::Formatter<W>) -> fmt::Result
    ensures { DisplaysOnOk W.write_str_gives f.old result (Some (flat_map printed_byte bytes.now)) f.new }
{
    for byte in bytes {
        write_byte(*byte, f)?;
    }
    Ok(())
}

impl<'a> fmt::Display for Token<'a> {
    ghost use Rattle.std.specs.Prelude.{Some};
    ghost use Rattle.protox_lexeme.specs.Printed.{printed};
    ghost use Rattle.protox_lexeme.specs.Tokens.{shape_of};

    ghost output = { λ t. Some (printed (shape_of t)) };

    fn fmt<W: fmt::Write>(&self, f: &mut fmt::Formatter<W>) -> fmt::Result {
        match self {
            Token::Ident(text) => f.write_str(text),
            Token::IntLiteral(value) => write!(f, "{value}"),
            Token::FloatLiteral(text) => write!(f, "{text}"),
            Token::StringLiteral(value) => {
                f.write_str("\"")?;
                write_bytes(value.as_slice(), f)?;
                f.write_str("\"")
            }
            Token::LineComment(text) => write!(f, "//{}\n", text.as_str()),
            Token::BlockComment(text) => write!(f, "/*{}*/", text.as_str()),
            mark => f.write_str(mark_text(mark)),
        }
    }
}
