//! The gaps between rows, in little memory.
ghost use Rattle.std.specs.Prelude.{◌≡◌, ◌++◌, ◌∷◌, [], map, replicate, slice_get, IfOk, OnOk, OnErr};
ghost use Rattle.std.specs.Option.{option_map};
ghost use Rattle.protox_lexeme.specs.Shapes.{Newline};
ghost use Rattle.protox_lex.specs.inner.Sharing.{AreLines};
ghost use Rattle.protox_lex.specs.TableView.{shapes_of_lent};
ghost use Rattle.protox_lexeme.specs.Tokens.{shape_of};

use crate::groups::Groups;
use crate::row_list::with_room;
use protox_lexeme::token::Token;
use std::alloc::{AllocError, Global};
use std::marker::Model;

// A gap of fewer newlines than this, and nothing else, is not kept.
const LINES: usize = 8;

// About every 16th gap has a comment.
const GAPS_A_COMMENT: usize = 16;

/// Gaps. Most have only a few newlines, and take 4 bytes. As soon as a number needs more than 4
/// bytes, each later gap is kept and has a wide number.
#[derive(Drop)]
pub(crate) struct SharedGaps<'a> {
    lines: Vec<Token<'a>>,
    numbers: Vec<u32>,
    wide: Vec<usize>,
    kept: Groups<Token<'a>>,
    keeps: bool,
    newlines: usize,
}

impl<'a> Model for SharedGaps<'a> {
    ghost use Rattle.std.specs.Prelude.{◌++◌};
    ghost use Rattle.protox_lex.specs.inner.Grouping.{Grouped};
    ghost use Rattle.protox_lexeme.specs.Shapes.{Shape};
    ghost use Rattle.protox_lex.specs.inner.Sharing.{gaps_by, AreGaps};

    ghost Value = { Grouped Shape };

    ghost view = { λ g. gaps_by (g.numbers.items ++ g.wide.items) g.kept g.newlines };

    ghost invariant = { λ g. AreGaps g.lines.items (g.numbers.items ++ g.wide.items) g.kept g.wide.items g.keeps };
}

// The newlines from which gaps are borrowed.
fn newlines<'a>(alloc: Global) -> Result<Vec<Token<'a>>, AllocError>
    ensures { IfOk result (λ lines. AreLines lines.items) }
{
    Ok(vec![in alloc;
        Token::Newline,
        Token::Newline,
        Token::Newline,
        Token::Newline,
        Token::Newline,
        Token::Newline,
        Token::Newline,
        Token::Newline,
    ]?)
}

// The number at `index`, counted from 0. None after the last.
#[inline(always)]
fn number_at(narrow: &[u32], wide: &[usize], index: usize) -> Option<usize>
    ensures { result ≡ slice_get (narrow.now ++ wide.now) index }
{
    if index < narrow.len() {
        Some(narrow[index] as usize)
    } else {
        wide.get(index - narrow.len()).copied()
    }
}

// Appends a number.
fn push_number(
    narrow: &mut Vec<u32>,
    wide: &mut Vec<usize>,
    number: usize,
) -> Result<(), AllocError>
    ensures ok { OnOk result (narrow.new.items ++ wide.new.items ≡ (narrow.old.items ++ wide.old.items) ++ number ∷ []) }
    ensures err { OnErr result ((narrow.new.items ≡ narrow.old.items) × (wide.new.items ≡ wide.old.items)) }
{
    match u32::try_from(number) {
        Ok(number) if wide.is_empty() => narrow.push(number)?,
        _ => wide.push(number)?,
    }
    Ok(())
}

impl<'a> SharedGaps<'a> {
    /// No gaps, with room for so many if memory allows, and an empty gap that has begun.
    pub(crate) fn new(alloc: Global, room: usize) -> Result<SharedGaps<'a>, AllocError>
        ensures { IfOk result (λ gaps. gaps ≡ record { ended = []; begun = [] }) }
    {
        Ok(SharedGaps {
            lines: newlines(alloc)?,
            numbers: with_room(alloc, room),
            wide: Vec::new(alloc),
            kept: Groups::with_room(alloc, room / GAPS_A_COMMENT),
            keeps: false,
            newlines: 0,
        })
    }

    /// Gives back the room that no gap takes.
    pub(crate) fn shrink_to_fit(&mut self)
        ensures { self.new ≡ self.old }
    {
        self.numbers.shrink_to_fit();
        self.kept.shrink_to_fit();
    }

    /// Gap `index`, counted from 0. None if that gap hasn't ended.
    pub(crate) fn get(&self, index: usize) -> Option<&[Token<'a>]>
        ensures { option_map shapes_of_lent result ≡ slice_get self.now.ended index }
    {
        let number = number_at(&self.numbers, &self.wide, index)?;
        if number < LINES {
            Some(&self.lines[..number])
        } else {
            self.kept.get(number - LINES)
        }
    }

    // Appends a newline that is kept, since no more can be counted.
    #[inline(never)]
    fn keep_newline(&mut self) -> Result<(), AllocError>
        ensures { OnOk result (self.new ≡ record self.old { begun = self.old.begun ++ Newline ∷ [] }) }
    {
        self.push(Token::Newline)
    }

    /// Appends a newline to the gap that has begun.
    #[inline(always)]
    pub(crate) fn push_newline(&mut self) -> Result<(), AllocError>
        ensures { OnOk result (self.new ≡ record self.old { begun = self.old.begun ++ Newline ∷ [] }) }
    {
        match self.newlines.checked_add(1) {
            Some(newlines) => {
                self.newlines = newlines;
                Ok(())
            }
            None => self.keep_newline(),
        }
    }

    /// Appends a token to the gap that has begun.
    pub(crate) fn push(&mut self, token: Token<'a>) -> Result<(), AllocError>
        ensures { OnOk result (self.new ≡ record self.old { begun = self.old.begun ++ shape_of token.entry ∷ [] }) }
    {
        self.keeps = true;
        if 0 < self.newlines {
            self.kept.push_newlines(self.newlines)?;
            self.newlines = 0;
        }
        self.kept.push(token)
    }

    // Ends a gap that is kept.
    #[inline(never)]
    #[tactic(auto, using(crate::proofs::Sharing::end_kept, crate::proofs::Sharing::there_more, crate::proofs::Sharing::there_push))]
    fn end_kept(&mut self) -> Result<(), AllocError>
        ensures { OnOk result (self.new ≡ record { ended = self.old.ended ++ self.old.begun ∷ []; begun = [] }) }
    {
        self.keeps = true;
        self.kept.push_newlines(self.newlines)?;
        self.newlines = 0;
        let number = self.kept.len() + LINES;
        self.kept.end()?;
        push_number(&mut self.numbers, &mut self.wide, number)?;
        self.keeps = !self.wide.is_empty();
        Ok(())
    }

    /// Ends the gap that has begun.
    #[inline(always)]
    pub(crate) fn end(&mut self) -> Result<(), AllocError>
        ensures { OnOk result (self.new ≡ record { ended = self.old.ended ++ self.old.begun ∷ []; begun = [] }) }
    {
        let newlines = self.newlines;
        if self.keeps || LINES <= newlines {
            self.end_kept()
        } else {
            self.numbers.push(newlines as u32)?;
            self.newlines = 0;
            Ok(())
        }
    }
}
