//! Comments, and the declarations to which they belong.
ghost use Rattle.std.specs.Prelude.{◌≡◌, ◌<◌, ◌≤◌, ◌+◌, ℕ, List, [], ◌∷◌, ◌++◌, length, drop, if◌then◌else◌, true, false, Option, None, Some, map, IfOk, IfSome, OnOk, OnErr};
ghost use Rattle.std.specs.Cow.{cow_str_bytes};
ghost use Rattle.std.specs.Option.{option_map};
ghost use Rattle.protox_comments.specs.inner.Attributing.{Newlines, attribution_of, begins_newline, outcome, ended, shape_lent};
ghost use Rattle.protox_comments.specs.CommentState as state;
ghost use Rattle.protox_lexeme.specs.Gaps as gaps;
ghost use Rattle.protox_lexeme.specs.Shapes.{Shape};
ghost use Rattle.protox_lexeme.specs.Shapes as shape;
ghost use Rattle.protox_lexeme.specs.Tokens.{shape_of};

use protox_descriptor::values::{Items, Text};
use protox_lexeme::token::Token;
use std::alloc::{AllocError, Global};
use std::borrow::CowStr;
use std::marker::Model;

/// A block of comments: a run of line comments, or one block comment.
#[derive(Drop)]
struct Block {
    text: Text,
    of_lines: bool,
}

/// The comments since the last token, as far as they have been read.
#[derive(Drop)]
pub struct Comments {
    alloc: Global,
    detached: Vec<Text>,
    open_block: Option<Block>,
    trailing: Option<Text>,
    may_trail: bool,
}

impl Model for Comments {
    ghost use Rattle.protox_comments.specs.CommentState.{CommentState};

    ghost Value = { CommentState };

    ghost use Rattle.protox_comments.specs.CommentState.{state_seen};

    ghost view = { state_seen };
}

// The text of a comment, with room for so many bytes. If no room is asked for, an owned text is
// moved, which takes no memory.
fn text_with_room(alloc: Global, comment: CowStr<'_>, room: usize) -> Result<Text, AllocError>
    ensures { IfOk result (λ made. made ≡ cow_str_bytes comment.entry) }
{
    if room == 0 {
        return Text::from_cow(alloc, comment);
    }
    Text::with_room(alloc, comment.as_str(), room)
}

impl Comments {
    /// No comment, and none may trail. It takes no memory; later growth takes it from `alloc`.
    pub fn new(alloc: Global) -> Comments
        ensures { result ≡ state.empty false }
    {
        Comments {
            alloc,
            detached: Vec::new(alloc),
            open_block: None,
            trailing: None,
            may_trail: false,
        }
    }

    /// Finishes the open block, if there is one. It trails, if it may; else it is the last detached
    /// comment. Nothing may trail from then on. On `AllocError` nothing changes.
    pub fn flush(&mut self) -> Result<(), AllocError>
        ensures ok { OnOk result (self.new ≡ state.flushed self.old) }
        ensures err { OnErr result (self.new ≡ self.old) }
    {
        match self.open_block.take() {
            None => {
                self.detach();
                Ok(())
            }
            Some(block) if self.may_trail => {
                self.trailing = Some(block.text);
                self.detach();
                Ok(())
            }
            Some(Block { text, of_lines }) => match self.detached.push(text) {
                Ok(()) => Ok(()),
                Err(refused) => {
                    self.open_block = Some(Block {
                        text: refused.value,
                        of_lines,
                    });
                    Err(AllocError)
                }
            },
        }
    }

    // Finishes the open block, if there is one. On `AllocError` nothing changes.
    fn close_block(&mut self) -> Result<(), AllocError>
        ensures ok { OnOk result (self.new ≡ state.closed self.old) }
        ensures err { OnErr result (self.new ≡ self.old) }
    {
        if self.open_block.is_none() {
            return Ok(());
        }
        self.flush()
    }

    // Finishes the open block, and opens a new one with this text. On `AllocError` nothing changes.
    fn open_as(&mut self, text: Text, of_lines: bool) -> Result<(), AllocError>
        ensures ok { OnOk result (self.new ≡ record (state.closed self.old) { open_block = Some (state.block text of_lines) }) }
        ensures err { OnErr result (self.new ≡ self.old) }
    {
        self.close_block()?;
        self.open_block = Some(Block { text, of_lines });
        Ok(())
    }

    /// Adds a block comment. It finishes the open block and is the new one. On `AllocError` nothing
    /// changes.
    pub fn block_comment(&mut self, comment: CowStr<'_>) -> Result<(), AllocError>
        ensures ok { OnOk result (self.new ≡ state.with_block (cow_str_bytes comment.entry) self.old) }
        ensures err { OnErr result (self.new ≡ self.old) }
    {
        let text = Text::from_cow(self.alloc, comment)?;
        self.open_as(text, false)
    }

    /// Adds a line comment. It joins an open block of line comments. Else it finishes the open
    /// block and is the new one. On `AllocError` nothing changes.
    pub fn line_comment(&mut self, comment: CowStr<'_>) -> Result<(), AllocError>
        ensures ok { OnOk result (self.new ≡ state.with_line (cow_str_bytes comment.entry) self.old) }
        ensures err { OnErr result (self.new ≡ self.old) }
    {
        self.add_line(comment, 0)
    }

    // Adds a line comment. If it opens a block, the block gets room for so many bytes.
    fn add_line(&mut self, comment: CowStr<'_>, room: usize) -> Result<(), AllocError>
        ensures ok { OnOk result (self.new ≡ state.with_line (cow_str_bytes comment.entry) self.old) }
        ensures err { OnErr result (self.new ≡ self.old) }
    {
        match self.open_block.take() {
            Some(
                Block {
                    mut text,
                    of_lines: true,
                },
            ) => {
                let pushed = text.push_str(self.alloc, comment.as_str());
                self.open_block = Some(Block {
                    text,
                    of_lines: true,
                });
                pushed
            }
            other => {
                self.open_block = other;
                let text = text_with_room(self.alloc, comment, room)?;
                self.open_as(text, true)
            }
        }
    }

    /// From now on no block may trail.
    pub fn detach(&mut self)
        ensures { self.new ≡ record self.old { may_trail = false } }
    {
        self.may_trail = false;
    }

    /// Drops all comments. The next block may trail.
    pub fn reset(&mut self)
        ensures { self.new ≡ state.empty true }
    {
        self.detached = Vec::new(self.alloc);
        self.open_block = None;
        self.trailing = None;
        self.may_trail = true;
    }

    /// Takes out the detached comments, and the text of the open block.
    pub fn take_leading(&mut self) -> (Items<Text>, Option<Text>)
        ensures detached { result.0 ≡ self.old.detached }
        ensures leading { result.1 ≡ state.open_text self.old.open_block }
        ensures rest { self.new ≡ record self.old { detached = []; open_block = None } }
    {
        let detached = std::mem::replace(&mut self.detached, Vec::new(self.alloc));
        let leading = match self.open_block.take() {
            Some(block) => Some(block.text),
            None => None,
        };
        (Items::from_vec(detached), leading)
    }

    /// Takes out the comment that trails.
    pub fn take_trailing(&mut self) -> Option<Text>
        ensures trailing { result ≡ self.old.trailing }
        ensures rest { self.new ≡ record self.old { trailing = None } }
    {
        self.trailing.take()
    }
}

/// The comments of a gap, by the declarations to which they belong.
#[derive(Drop)]
pub struct GapComments {
    /// The comment that trails the declaration before the gap. It may be one whose `{` ends before
    /// the gap.
    pub trailing: Option<Text>,
    /// The detached comments before the declaration after the gap. They belong to it too.
    pub detached: Items<Text>,
    /// The comment that leads the declaration after the gap.
    pub leading: Option<Text>,
}

// Whether a comment may lead the token.
pub(crate) fn may_lead(next: Option<&Token<'_>>) -> bool
    ensures { result ≡ gaps.may_lead (shape_lent next.entry) }
{
    match next {
        Some(token) => !matches!(
            token,
            Token::RightBrace | Token::RightBracket | Token::RightParen
        ),
        None => false,
    }
}

// How many tokens the block comment at `at` takes: 2 with a newline right after it, else 1.
fn block_len(gap: &[Token<'_>], at: usize) -> usize
    requires { at < length gap.now }
    ensures value { result ≡ (if begins_newline (map shape_of (drop (at + 1) gap.now)) then 2 else 1) }
    ensures within { at + result ≤ length gap.now }
    ensures items { (text : List ℕ) → gaps.items (shape.BlockComment text ∷ map shape_of (drop (at + 1) gap.now)) ≡ gaps.block text ∷ gaps.items (map shape_of (drop (at + result) gap.now)) }
{
    if at + 1 < gap.len() && matches!(&gap[at + 1], Token::Newline) {
        2
    } else {
        1
    }
}

// How many bytes the line comments have that stand at `at` and right behind it.
fn run_bytes(gap: &[Token<'_>], at: usize) -> usize
    requires { at ≤ length gap.now }
{
    let mut bytes: usize = 0;
    for token in &gap[at..] {
        match token {
            Token::LineComment(text) => bytes = bytes.saturating_add(text.as_str().len()),
            _ => return bytes,
        }
    }
    bytes
}

impl Comments {
    // The room for the block that a line comment at `at` opens; 0 if a block is open.
    fn room_at(&self, gap: &[Token<'_>], at: usize) -> usize
        requires { at ≤ length gap.now }
    {
        if self.open_block.is_some() {
            return 0;
        }
        run_bytes(gap, at)
    }

    // Takes in the comment or newline at `at`. Answers how many tokens these are.
    fn take_at(&mut self, gap: &[Token<'_>], at: usize) -> Result<usize, AllocError>
        requires inside { at < length gap.now }
        requires comments { gaps.IsGap (map shape_of gap.now) }
        ensures len { IfOk result (λ n. (1 ≤ n) × (at + n ≤ length gap.now)) }
        ensures value { IfOk result (λ n. (next : Option Shape) → outcome self.new (map shape_of (drop (at + n) gap.now)) next ≡ outcome self.old (map shape_of (drop at gap.now)) next) }
    {
        match &gap[at] {
            Token::LineComment(text) => {
                let room = self.room_at(gap, at);
                self.add_line(CowStr::Borrowed(text.as_str()), room)?;
                Ok(1)
            }
            Token::BlockComment(text) => {
                self.block_comment(CowStr::Borrowed(text.as_str()))?;
                Ok(block_len(gap, at))
            }
            Token::Newline => {
                self.flush()?;
                Ok(1)
            }
            _ => Ok(1),
        }
    }

    // Takes in the comments and newlines of a gap, beginning at `from`.
    fn take_from(&mut self, gap: &[Token<'_>], from: usize) -> Result<(), AllocError>
        requires inside { from ≤ length gap.now }
        requires comments { gaps.IsGap (map shape_of gap.now) }
        ensures { OnOk result ((next : Option Shape) → outcome self.new [] next ≡ outcome self.old (map shape_of (drop from gap.now)) next) }
    {
        let mut at = from;
        'tokens: while at < gap.len() {
            at += self.take_at(gap, at)?;
        }
        Ok(())
    }

    // Assigns the comments at the end of a gap.
    fn end(mut self, next: Option<&Token<'_>>) -> Result<GapComments, AllocError>
        ensures { IfOk result (λ g. attribution_of g ≡ ended self (shape_lent next.entry)) }
    {
        if !may_lead(next) {
            self.flush()?;
        }
        let trailing = self.take_trailing();
        let (detached, leading) = self.take_leading();
        Ok(GapComments {
            trailing,
            detached,
            leading,
        })
    }
}

// Takes in what stands at the front of a gap. Answers how many of its tokens are done with, or None
// if all comments of the gap are dropped.
fn begin(
    comments: &mut Comments,
    gap: &[Token<'_>],
    at_start: bool,
) -> Result<Option<usize>, AllocError>
    requires empty { comments.old ≡ state.empty false }
    requires gap { gaps.IsGap (map shape_of gap.now) }
    ensures within { IfOk result (λ r. IfSome r (λ n. n ≤ length gap.now)) }
    ensures some { IfOk result (λ r. IfSome r (λ n. (next : Option Shape) → outcome comments.new (map shape_of (drop n gap.now)) next ≡ gaps.attribution (map shape_of gap.now) at_start next)) }
    ensures none { IfOk result (λ r. r ≡ None → (next : Option Shape) → gaps.attribution (map shape_of gap.now) at_start next ≡ gaps.nothing) }
{
    if at_start || gap.is_empty() {
        return Ok(Some(0));
    }
    match &gap[0] {
        Token::LineComment(text) => {
            comments.reset();
            comments.line_comment(CowStr::Borrowed(text.as_str()))?;
            comments.flush()?;
            Ok(Some(1))
        }
        Token::BlockComment(_) => {
            if block_len(gap, 0) == 1 {
                return Ok(None);
            }
            comments.reset();
            Ok(Some(0))
        }
        _ => {
            comments.reset();
            Ok(Some(1))
        }
    }
}

// Whether a gap has only newlines, as most do.
pub(crate) fn is_bare(gap: &[Token<'_>]) -> bool
    ensures { result ≡ true → Newlines (map shape_of gap.now) }
{
    for token in gap {
        if !matches!(token, Token::Newline) {
            return false;
        }
    }
    true
}

// No comments.
fn no_comments(alloc: Global) -> GapComments
    ensures { attribution_of result ≡ gaps.nothing }
{
    GapComments {
        trailing: None,
        detached: Items::new(alloc),
        leading: None,
    }
}

/// The comments of a gap, by the declarations to which they belong. `at_start` says that the gap
/// stands at the start of the file. `next` is the token after the gap, or None at the end of the
/// file. The gap must hold only comments and newlines. Fails with `AllocError` if memory runs out.
#[tactic(auto, using(crate::proofs::Attributing::newlines_alone))]
pub fn gap_comments(
    alloc: Global,
    gap: &[Token<'_>],
    at_start: bool,
    next: Option<&Token<'_>>,
) -> Result<GapComments, AllocError>
    requires { gaps.IsGap (map shape_of gap.now) }
    ensures { IfOk result (λ g. attribution_of g ≡ gaps.attribution (map shape_of gap.now) at_start (shape_lent next.entry)) }
{
    if is_bare(gap) {
        return Ok(no_comments(alloc));
    }
    let mut comments = Comments::new(alloc);
    match begin(&mut comments, gap, at_start)? {
        Some(from) => {
            comments.take_from(gap, from)?;
            comments.end(next)
        }
        None => Ok(no_comments(alloc)),
    }
}
