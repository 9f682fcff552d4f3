ghost use Rattle.std.specs.Prelude.{◌≡◌, ◌≤◌, ◌+◌, ℕ, List, [], Some, ◌++◌, ◌==◌, take, length, IsOk, IfOk, OnOk, OnErr, IsUtf8};
ghost use Rattle.std.specs.Cow.{cow_str_bytes};
ghost use Rattle.std.specs.String.{string_bytes};
ghost use Rattle.std.specs.Ordering.{nat_cmp};
ghost use Rattle.std.specs.Cmp.Lexicographic.{pointwise, slice_cmp, nat_list_eq_equiv, nat_list_cmp_total, texts_po, texts_ties};
ghost use Rattle.std.specs.Cmp.Rules.{comparing};
ghost use Rattle.std.proofs.Common.{refl, rules};

use std::alloc::{AllocError, Global};
use std::borrow::CowStr;
use std::cmp::Ordering;
use std::convert::AsStr;
use std::fmt;
use std::marker::Model;

/// How many bytes fit in the value itself.
const SHORT: usize = 30;

// Where the bytes are: at the front of an array, or in a string.
#[derive(Drop)]
enum Held {
    InPlace { len: u8, bytes: [u8; 30] },
    InString { content: String },
}

/// A text that owns its bytes, which are UTF-8. Up to 30 bytes lie in the value itself and take no
/// memory. More bytes lie in a string. Contracts see the text as the list of its bytes.
#[derive(Drop)]
pub struct Text {
    held: Held,
}

impl Model for Text {
    ghost use Rattle.std.specs.Prelude.{List, ℕ};

    ghost Value = { List ℕ };

    ghost use Rattle.protox_descriptor.specs.inner.HeldText.{text_held, IsTextHeld};

    ghost view = { λ text. text_held text.held };

    ghost invariant = { λ text. IsTextHeld text.held };
}

// The bytes of both texts, one after the other, and then zeros.
#[inline(always)]
fn filled(front: &[u8], back: &[u8]) -> [u8; 30]
    requires { length front.now + length back.now ≤ 30 }
    ensures { take (length front.now + length back.now) result ≡ front.now ++ back.now }
{
    let mut array = [0; SHORT];
    let middle = front.len();
    let end = middle + back.len();
    array[..middle].copy_from_slice(front);
    array[middle..end].copy_from_slice(back);
    array
}

// Both texts, one after the other, in one value. It takes no memory.
#[inline(always)]
fn short(front: &str, back: &str) -> Text
    requires { length front.now + length back.now ≤ 30 }
    ensures { result ≡ front.now ++ back.now }
{
    Text {
        held: Held::InPlace {
            len: (front.len() + back.len()) as u8,
            bytes: filled(front.as_bytes(), back.as_bytes()),
        },
    }
}

// The bytes as a text.
fn as_text(bytes: &[u8]) -> &str
    requires { IsUtf8 bytes.now }
    ensures { result.now ≡ bytes.now }
{
    unsafe { str::from_utf8_unchecked(bytes) }
}

// Both texts in one string, with room for no more.
fn string(alloc: Global, front: &str, back: &str) -> Result<String, AllocError>
    ensures { IfOk result (λ whole. string_bytes whole ≡ front.now ++ back.now) }
{
    let mut whole = String::with_capacity(alloc, front.len() + back.len())?;
    whole.push_str(front)?;
    whole.push_str(back)?;
    Ok(whole)
}

impl Text {
    /// The empty text. It takes no memory, and `alloc` is not used.
    pub fn new(_alloc: Global) -> Text
        ensures { result ≡ [] }
    {
        short("", "")
    }

    /// A copy of `text`, or `AllocError`. Up to 30 bytes take no memory.
    pub fn copy(alloc: Global, text: &str) -> Result<Text, AllocError>
        ensures value { IfOk result (λ made. made ≡ text.now) }
        ensures free { length text.now ≤ 30 → IsOk result }
    {
        if text.len() <= SHORT {
            return Ok(short(text, ""));
        }
        let content = String::from_str(alloc, text)?;
        Ok(Text {
            held: Held::InString { content },
        })
    }

    /// A copy of `text` with room for `room` bytes in all, or `AllocError`. If neither has more
    /// than 30 bytes, it takes no memory.
    pub fn with_room(alloc: Global, text: &str, room: usize) -> Result<Text, AllocError>
        ensures value { IfOk result (λ made. made ≡ text.now) }
        ensures free { length text.now ≤ 30 → room ≤ 30 → IsOk result }
    {
        if text.len() <= SHORT && room <= SHORT {
            return Ok(short(text, ""));
        }
        let mut content = String::with_capacity(alloc, text.len().max(room))?;
        content.push_str(text)?;
        Ok(Text {
            held: Held::InString { content },
        })
    }

    /// A text with the bytes of `front` and then those of `back`, or `AllocError`. Up to 30 bytes
    /// take no memory.
    pub fn joined(alloc: Global, front: &str, back: &str) -> Result<Text, AllocError>
        ensures value { IfOk result (λ made. made ≡ front.now ++ back.now) }
        ensures free { length front.now + length back.now ≤ 30 → IsOk result }
    {
        if front.len() + back.len() <= SHORT {
            return Ok(short(front, back));
        }
        let content = string(alloc, front, back)?;
        Ok(Text {
            held: Held::InString { content },
        })
    }

    /// The string as a text. If it has at most 30 bytes, its memory is given back.
    pub fn from_string(content: String) -> Text
        ensures { result ≡ string_bytes content }
    {
        if content.len() <= SHORT {
            return short(content.as_str(), "");
        }
        Text {
            held: Held::InString { content },
        }
    }

    /// A borrowed or owned text as a `Text`, or `AllocError`. Up to 30 bytes take no memory, and
    /// neither does an owned text.
    pub fn from_cow(alloc: Global, text: CowStr<'_>) -> Result<Text, AllocError>
        ensures { IfOk result (λ made. made ≡ cow_str_bytes text.entry) }
    {
        match text {
            CowStr::Borrowed(text) => Text::copy(alloc, text),
            CowStr::Owned(text) => Ok(Text::from_string(text)),
        }
    }

    /// The text as a string, or `AllocError`. It takes no memory if the bytes lie in a string
    /// already.
    pub fn into_string(self, alloc: Global) -> Result<String, AllocError>
        ensures { IfOk result (λ string. string_bytes string ≡ self) }
    {
        match self.held {
            Held::InPlace { len, bytes } => String::from_str(
                alloc,
                as_text(&bytes[..len as usize]),
            ),
            Held::InString { content } => Ok(content),
        }
    }

    /// The text, borrowed.
    pub fn as_str(&self) -> &str
        ensures { result.now ≡ self.now }
    {
        match &self.held {
            Held::InPlace { len, bytes } => as_text(&bytes[..*len as usize]),
            Held::InString { content } => content.as_str(),
        }
    }

    /// The number of bytes.
    pub fn len(&self) -> usize
        ensures { result ≡ length self.now }
    {
        match &self.held {
            Held::InPlace { len, .. } => *len as usize,
            Held::InString { content } => content.len(),
        }
    }

    /// Whether the text has no bytes.
    pub fn is_empty(&self) -> bool
        ensures { result ≡ (length self.now == 0) }
    {
        self.len() == 0
    }

    /// Appends `more`. On `AllocError` the text is unchanged. It takes no memory if the whole text
    /// has at most 30 bytes.
    pub fn push_str(&mut self, alloc: Global, more: &str) -> Result<(), AllocError>
        ensures ok { OnOk result (self.new ≡ self.old ++ more.now) }
        ensures err { OnErr result (self.new ≡ self.old) }
    {
        if let Held::InString { content } = &mut self.held {
            return content.push_str(more);
        }
        let grown = Text::joined(alloc, self.as_str(), more)?;
        *self = grown;
        Ok(())
    }
}

impl PartialEq for Text {
    ghost eq = { pointwise ◌==◌ };

    ghost laws = { Prim.search (comparing, rules) };

    fn eq(&self, other: &Text) -> bool {
        self.as_str() == other.as_str()
    }
}

impl Eq for Text {
    ghost laws = { nat_list_eq_equiv };
}

/// Compares byte by byte. A text comes before all longer ones that begin with it.
impl PartialOrd for Text {
    ghost partial_cmp = { λ first second. Some (slice_cmp nat_cmp first second) };

    ghost laws = { texts_po };

    fn partial_cmp(&self, other: &Text) -> Option<Ordering> {
        Some(self.cmp(other))
    }
}

impl Ord for Text {
    ghost cmp = { slice_cmp nat_cmp };

    ghost total = { nat_list_cmp_total };

    ghost matches_partial_cmp = { λ first second. refl };

    ghost matches_eq = { texts_ties };

    fn cmp(&self, other: &Text) -> Ordering {
        self.as_str().cmp(other.as_str())
    }
}

impl AsStr for Text {
    ghost text = { λ text. text };

    fn as_str(&self) -> &str {
        self.as_str()
    }
}

impl fmt::Display for Text {
    ghost use Rattle.std.specs.Fmt.{styled_text};

    ghost output = { λ text. Some text };

    ghost styled_output = { λ text style. Some (styled_text style text) };

    fn fmt<W: fmt::Write>(&self, f: &mut fmt::Formatter<W>) -> fmt::Result {
        fmt::Display::fmt(&self.as_str(), f)
    }
}

impl fmt::Debug for Text {
    ghost use Rattle.std.specs.Fmt.{debug_str};

    ghost debug_output = { debug_str };

    fn fmt<W: fmt::Write>(&self, f: &mut fmt::Formatter<W>) -> fmt::Result {
        fmt::Debug::fmt(&self.as_str(), f)
    }
}
