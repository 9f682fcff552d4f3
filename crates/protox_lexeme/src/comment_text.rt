//! The texts of block comments.
ghost use Rattle.std.specs.Prelude.{◌≡◌, ◌++◌, ◌∷◌, [], ℕ, List, true, false, encode_utf8_all, IfOk, OnOk, IsOk};
ghost use Rattle.std.specs.Cow.{cow_str_bytes};
ghost use Rattle.std.specs.Str.{chars};
ghost use Rattle.std.specs.String.{string_bytes};
ghost use Rattle.protox_lexeme.specs.BlockComments as spec;
ghost use Rattle.protox_lexeme.specs.inner.Kept.{after, finished};
ghost use Rattle.protox_lexeme.specs.Tokens.{is_borrowed_str};

use crate::bytes::{Class, run_len};
use std::alloc::{AllocError, Global};
use std::borrow::CowStr;

/// The text of a comment so far. `fresh` says that only white space stands after the last newline.
/// `held` says that a carriage return was read but not written: it is dropped if a newline follows.
#[derive(Drop)]
struct Kept {
    text: String,
    fresh: bool,
    held: bool,
}

impl Kept {
    // Writes the carriage return that is held, unless `c` is a newline.
    fn release(&mut self, c: char) -> Result<(), AllocError>
        ensures text { OnOk result ((cs : List ℕ) → after (string_bytes self.new.text) false (c ∷ cs) ≡ after (string_bytes self.old.text) self.old.held (c ∷ cs)) }
        ensures fresh { self.new.fresh ≡ self.old.fresh }
    {
        if self.held && c != '\n' {
            return self.text.push('\r');
        }
        Ok(())
    }

    // Writes a character.
    fn put(&mut self, c: char) -> Result<(), AllocError>
        ensures text { OnOk result ((cs : List ℕ) → after (string_bytes self.new.text) self.new.held cs ≡ after (string_bytes self.old.text) self.old.held (c ∷ cs)) }
        ensures fresh { self.new.fresh ≡ self.old.fresh }
    {
        self.release(c)?;
        self.held = c == '\r';
        if self.held {
            return Ok(());
        }
        self.text.push(c)
    }

    // Writes a character, unless it belongs to the margin of a line.
    fn take(&mut self, c: char) -> Result<(), AllocError>
        ensures { OnOk result ((cs : List ℕ) → finished self.new cs ≡ finished self.old (c ∷ cs)) }
    {
        if !self.fresh {
            self.fresh = c == '\n';
            return self.put(c);
        }
        if c.is_whitespace() {
            return Ok(());
        }
        self.fresh = false;
        if c == '*' {
            return Ok(());
        }
        self.put(c)
    }

    // Ends the text.
    fn end(self) -> Result<String, AllocError>
        ensures { IfOk result (λ s. string_bytes s ≡ finished self []) }
    {
        let Kept { mut text, held, .. } = self;
        if held {
            text.push('\r')?;
        }
        Ok(text)
    }
}

// The text without the margins of its lines, and with each `\r\n` as `\n`.
fn without_margins(alloc: Global, content: &str) -> Result<String, AllocError>
    ensures { IfOk result (λ s. string_bytes s ≡ spec.comment_text content.now) }
{
    let mut kept = Kept {
        text: String::new(alloc),
        fresh: false,
        held: false,
    };
    for c in content.chars() {
        kept.take(c)?;
    }
    kept.end()
}

/// The text of a block comment that has this content between `/*` and `*/`.
#[tactic(auto, using(crate::proofs::Margins::one_line))]
pub(crate) fn comment_text(alloc: Global, content: &str) -> Result<CowStr<'_>, AllocError>
    ensures value { IfOk result (λ t. cow_str_bytes t ≡ spec.comment_text content.now) }
    ensures borrowed { IfOk result (λ t. is_borrowed_str t ≡ spec.is_one_line content.now) }
    ensures free { spec.is_one_line content.now ≡ true → IsOk result }
{
    if run_len(content.as_bytes(), Class::NotNewline) == content.len() {
        return Ok(CowStr::Borrowed(content));
    }
    Ok(CowStr::Owned(without_margins(alloc, content)?))
}
