//! Groups whose first lists are mostly empty.
ghost use Rattle.std.specs.Prelude.{◌≡◌, ◌↔◌, IsTrue, ◌++◌, ◌∷◌, [], slice_get, OnOk};
ghost use Rattle.std.specs.List.{All};
ghost use Rattle.std.specs.Option.{option_copied};

use crate::groups::Groups;
use std::alloc::{AllocError, Global};
use std::marker::Model;

/// Groups of lists. The empty lists before the first item are only counted, and take no memory.
/// `counts` says that lists are still counted, so that this costs one look at each end.
#[derive(Drop)]
pub(crate) struct LateGroups<T> {
    counts: bool,
    empty: usize,
    groups: Groups<T>,
}

impl<T> Model for LateGroups<T> {
    ghost use Rattle.protox_lex.specs.inner.Grouping.{Grouped, grouped_code, behind_empty, IsCounted};

    ghost Value = { Grouped T };

    ghost coded = { grouped_code T.code };

    ghost view = { λ g. behind_empty g.empty g.groups };

    ghost invariant = { λ g. IsCounted g.counts g.groups };
}

impl<T> LateGroups<T> {
    /// No lists, and an empty list that has begun.
    pub(crate) fn new(alloc: Global) -> LateGroups<T>
        ensures { result ≡ record { ended = []; begun = [] } }
    {
        LateGroups {
            counts: true,
            empty: 0,
            groups: Groups::new(alloc),
        }
    }

    #[tactic(auto, using(crate::proofs::Splitting::get_empty, crate::proofs::Splitting::get_behind))]
    /// List `index`, counted from 0. None if that list hasn't ended.
    pub(crate) fn get(&self, index: usize) -> Option<&[T]>
        ensures { option_copied result ≡ slice_get self.now.ended index }
    {
        if index < self.empty {
            Some(&[])
        } else {
            self.groups.get(index - self.empty)
        }
    }

    /// Whether each list that has ended is empty.
    pub(crate) fn are_empty(&self) -> bool
        ensures { IsTrue result ↔ All (λ xs. xs ≡ []) self.now.ended }
    {
        self.groups.are_empty()
    }

    #[tactic(auto, using(crate::proofs::Splitting::one_more_empty, crate::proofs::Splitting::behind_push))]
    /// Ends the list that has begun.
    pub(crate) fn end(&mut self) -> Result<(), AllocError>
        ensures { OnOk result (self.new ≡ record { ended = self.old.ended ++ self.old.begun ∷ []; begun = [] }) }
    {
        if self.counts {
            if let Some(empty) = self.empty.checked_add(1) {
                self.empty = empty;
                return Ok(());
            }
        }
        self.counts = false;
        self.groups.end()
    }
}

impl<T: Drop> LateGroups<T> {
    /// Appends an item to the list that has begun.
    pub(crate) fn push(&mut self, item: T) -> Result<(), AllocError>
        ensures { OnOk result (self.new ≡ record self.old { begun = self.old.begun ++ item ∷ [] }) }
    {
        self.counts = false;
        self.groups.push(item)
    }

    /// Appends items to the list that has begun.
    pub(crate) fn append(&mut self, items: Vec<T>) -> Result<(), AllocError>
        ensures { OnOk result (self.new ≡ record self.old { begun = self.old.begun ++ items.items }) }
    {
        if items.is_empty() {
            return Ok(());
        }
        self.counts = false;
        self.groups.append(items)
    }
}
