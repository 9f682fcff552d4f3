//! Runs of bytes.
ghost use Rattle.std.specs.Prelude.{◌≡◌, ◌+◌, ◌<◌, ◌≤◌, ◌-◌, drop, length, slice_index};
ghost use Rattle.std.specs.List.{prefix_len};
ghost use Rattle.std.specs.Str.{IsCharBoundary};
ghost use Rattle.protox_lexeme.specs.Lexemes.{blanks};
ghost use Rattle.protox_lexeme.specs.Lexicon.{is_word};
ghost use Rattle.protox_lexeme.specs.Classes.{class_test};

/// The byte at `index`, or 0 at and after the end.
pub fn byte_at(text: &[u8], index: usize) -> u8
    ensures { result ≡ slice_index text.now index }
{
    if index < text.len() { text[index] } else { 0 }
}

/// A set of bytes.
#[derive(Clone, Copy)]
pub(crate) enum Class {
    Blank,
    Letter,
    Alphabetic,
    Word,
    Digit,
    Octal,
    Hex,
    E,
    Sign,
    F,
    X,
    Quote,
    Mark,
    NotNewline,
    Plain,
}

// Each byte of a word stands at its own index, and a point at every other index. So one look tells
// whether a byte belongs to a word.
static WORD_BYTES: [u8; 256] = *b"\
    ................................\
    ................0123456789......\
    .ABCDEFGHIJKLMNOPQRSTUVWXYZ...._\
    .abcdefghijklmnopqrstuvwxyz.....\
    ................................\
    ................................\
    ................................\
    ................................";

fn is_word(b: u8) -> bool
    ensures { result ≡ is_word b }
{
    WORD_BYTES[b as usize] != b'.'
}

pub(crate) fn is_in(class: Class, b: u8) -> bool
    ensures { result ≡ class_test class b }
{
    match class {
        Class::Blank => b == b' ' || b == b'\t' || (11 <= b && b <= 13),
        Class::Letter => b.is_ascii_alphabetic() || b == b'_',
        Class::Alphabetic => b.is_ascii_alphabetic(),
        Class::Word => is_word(b),
        Class::Digit => b.is_ascii_digit(),
        Class::Octal => b'0' <= b && b <= b'7',
        Class::Hex => b.is_ascii_hexdigit(),
        Class::E => b == b'e' || b == b'E',
        Class::Sign => b == b'+' || b == b'-',
        Class::F => b == b'f' || b == b'F',
        Class::X => b == b'x' || b == b'X',
        Class::Quote => b == b'\'' || b == b'"',
        Class::Mark => {
            (43 <= b && b <= 47)
                || (40 <= b && b <= 41)
                || b == b'{'
                || b == b'}'
                || b == b'['
                || b == b']'
                || (58 <= b && b <= 62)
        }
        Class::NotNewline => b != b'\n',
        Class::Plain => !(b == 0 || b == b'\n' || b == b'\\' || b == b'\'' || b == b'"'),
    }
}

/// How many bytes at the front are in the set.
pub(crate) fn run_len(text: &[u8], class: Class) -> usize
    ensures len { result ≡ prefix_len (class_test class) text.now }
    ensures within { result ≤ length text.now }
{
    text.iter().take_while(|b| is_in(class, **b)).count()
}

/// The text after its first `n` bytes. The last of these must be ASCII.
#[tactic(auto, using(crate::proofs::Boundaries::ascii_boundary))]
pub(crate) fn skip(text: &str, n: usize) -> &str
    requires some { 0 < n }
    requires within { n ≤ length text.now }
    requires ascii { slice_index text.now (n - 1) < 128 }
    ensures { result.now ≡ drop n text.now }
{
    &text[n..]
}

/// How many blanks stand at the front, and the text after them.
#[tactic(auto, using(crate::proofs::Boundaries::blanks_boundary))]
pub fn skip_blanks(text: &str) -> (usize, &str)
    ensures len { result.0 ≡ blanks text.now }
    ensures rest { result.1.now ≡ drop (blanks text.now) text.now }
    ensures lens { result.0 + length result.1.now ≡ length text.now }
    ensures boundary { IsCharBoundary text.now result.0 }
{
    let len = run_len(text.as_bytes(), Class::Blank);
    (len, &text[len..])
}
