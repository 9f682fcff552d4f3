//! Several lists in one vector.
ghost use Rattle.std.specs.Prelude.{◌≡◌, ◌↔◌, IsTrue, ◌<◌, ◌≤◌, ◌^◌, ◌++◌, ◌∷◌, [], length, map, replicate, slice_get, slice_index, OnOk, OnErr};
ghost use Rattle.protox_lexeme.specs.Shapes.{Newline};
ghost use Rattle.protox_lexeme.specs.Tokens.{shape_of};
ghost use Rattle.protox_lex.specs.inner.Sharing.{AddsNewlines};
ghost use Rattle.std.specs.List.{All};
ghost use Rattle.std.specs.Option.{option_copied};

use crate::row_list::with_room;
use protox_lexeme::token::Token;
use std::alloc::{AllocError, Global};
use std::marker::Model;

/// Lists, stored one after another, and where each of them ends. What stands after the last end is
/// a list that has begun.
#[derive(Drop)]
pub(crate) struct Groups<T> {
    items: Vec<T>,
    ends: Vec<usize>,
}

impl<T> Model for Groups<T> {
    ghost use Rattle.std.specs.Prelude.{length};
    ghost use Rattle.protox_lex.specs.inner.Grouping.{Grouped, grouped_code, grouped, EndWithin};

    ghost Value = { Grouped T };

    ghost coded = { grouped_code T.code };

    ghost view = { λ g. grouped g.items.items g.ends.items };

    ghost invariant = { λ g. EndWithin 0 (length g.items.items) g.ends.items };
}

// Where list `index` begins.
fn start_of(ends: &[usize], index: usize) -> usize
    requires { index ≤ length ends.now }
    ensures { result ≡ slice_index (0 ∷ ends.now) index }
{
    if index == 0 { 0 } else { ends[index - 1] }
}

impl<T> Groups<T> {
    /// No lists, and an empty list that has begun. It takes no memory.
    pub(crate) fn new(alloc: Global) -> Groups<T>
        ensures { result ≡ record { ended = []; begun = [] } }
    {
        Groups {
            items: Vec::new(alloc),
            ends: Vec::new(alloc),
        }
    }

    /// No lists, and an empty list that has begun, with room for so many lists of two items if
    /// memory allows.
    pub(crate) fn with_room(alloc: Global, room: usize) -> Groups<T>
        ensures { result ≡ record { ended = []; begun = [] } }
    {
        Groups {
            items: with_room(alloc, room.saturating_add(room)),
            ends: with_room(alloc, room),
        }
    }

    /// Gives back the room that no item takes.
    pub(crate) fn shrink_to_fit(&mut self)
        ensures { self.new ≡ self.old }
    {
        self.items.shrink_to_fit();
        self.ends.shrink_to_fit();
    }

    #[tactic(auto, using(crate::proofs::Splitting::group_starts, crate::proofs::Splitting::group_ends, crate::proofs::Splitting::group_is, crate::proofs::Splitting::no_group))]
    /// List `index`, counted from 0. None if that list hasn't ended.
    pub(crate) fn get(&self, index: usize) -> Option<&[T]>
        ensures { option_copied result ≡ slice_get self.now.ended index }
    {
        if index < self.ends.len() {
            let start = start_of(&self.ends, index);
            let end = self.ends[index];
            Some(&self.items[start..end])
        } else {
            None
        }
    }

    #[tactic(auto, using(crate::proofs::Splitting::length_split))]
    /// How many lists have ended.
    pub(crate) fn len(&self) -> usize
        ensures count { result ≡ length self.now.ended }
        ensures small { result < 2 ^ 61 }
    {
        let ends: &[usize] = &self.ends;
        ends.len()
    }

    /// Whether each list that has ended is empty.
    pub(crate) fn are_empty(&self) -> bool
        ensures { IsTrue result ↔ All (λ xs. xs ≡ []) self.now.ended }
    {
        start_of(&self.ends, self.ends.len()) == 0
    }

    #[tactic(auto, using(crate::proofs::Splitting::end_within, crate::proofs::Splitting::grouped_end))]
    /// Ends the list that has begun. On `AllocError` nothing changes.
    pub(crate) fn end(&mut self) -> Result<(), AllocError>
        ensures err { OnErr result (self.new ≡ self.old) }
        ensures ok { OnOk result (self.new ≡ record { ended = self.old.ended ++ self.old.begun ∷ []; begun = [] }) }
    {
        self.ends.push(self.items.len())?;
        Ok(())
    }
}

impl<T: Drop> Groups<T> {
    #[tactic(auto, using(crate::proofs::Splitting::append_within, crate::proofs::Splitting::grouped_append))]
    /// Appends an item to the list that has begun. On `AllocError` nothing changes.
    pub(crate) fn push(&mut self, item: T) -> Result<(), AllocError>
        ensures err { OnErr result (self.new ≡ self.old) }
        ensures ok { OnOk result (self.new ≡ record self.old { begun = self.old.begun ++ item ∷ [] }) }
    {
        self.items.push(item)?;
        Ok(())
    }

    #[tactic(auto, using(crate::proofs::Splitting::append_within, crate::proofs::Splitting::grouped_append))]
    /// Appends items to the list that has begun.
    pub(crate) fn append(&mut self, mut items: Vec<T>) -> Result<(), AllocError>
        ensures { OnOk result (self.new ≡ record self.old { begun = self.old.begun ++ items.items }) }
    {
        self.items.append(&mut items)?;
        Ok(())
    }
}

// Appends newlines. On `AllocError` nothing changes.
fn add_newlines(items: &mut Vec<Token<'_>>, count: usize) -> Result<(), AllocError>
    ensures err { OnErr result (items.new.items ≡ items.old.items) }
    ensures ok { OnOk result (AddsNewlines items.old.items count items.new.items) }
{
    items.reserve(count)?;
    let mut left = count;
    'newlines: while 0 < left {
        items.push_reserved(Token::Newline);
        left -= 1;
    }
    Ok(())
}

impl Groups<Token<'_>> {
    #[tactic(auto, using(crate::proofs::Sharing::newlines_within, crate::proofs::Sharing::newlines_grouped))]
    /// Appends newlines to the list that has begun. On `AllocError` nothing changes.
    pub(crate) fn push_newlines(&mut self, count: usize) -> Result<(), AllocError>
        ensures err { OnErr result (self.new ≡ self.old) }
        ensures ended { self.new.ended ≡ self.old.ended }
        ensures begun { OnOk result (map shape_of self.new.begun ≡ map shape_of self.old.begun ++ replicate count Newline) }
    {
        add_newlines(&mut self.items, count)
    }
}
