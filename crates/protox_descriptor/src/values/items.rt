ghost use Rattle.std.specs.Prelude.{◌≡◌, ◌≤◌, ◌↔◌, ◌^◌, ◌<◌, [], ◌∷◌, ◌++◌, ◌==◌, take, insert, length, slice_get, IsOk, IsSome, IfOk, OnOk, OnErr};
ghost use Rattle.std.specs.Borrow.{sem};
ghost use Rattle.std.specs.Option.{option_copied, option_copied_mut, option_to_list};
ghost use Rattle.std.specs.Slice.Iter.{iter_rest, iter_mut_rest};
ghost use Rattle.std.specs.Iterator.Adapters.{IterYieldsInOrder, IterYieldsInReverse, IterMutYieldsInOrder};
ghost use Rattle.std.specs.Cmp.Lexicographic.{pointwise, lists_per};

use std::alloc::{AllocError, Global};
use std::fmt;
use std::marker::Model;
use std::slice::{Iter, IterMut};

/// A list that owns its elements. Contracts see the list of them.
#[derive(Drop)]
pub struct Items<T> {
    elements: Vec<T>,
}

impl<T> Model for Items<T> {
    ghost use Rattle.std.specs.Prelude.{List};
    ghost use Rattle.std.specs.Coded.{coded_list};

    ghost Value = { List T };

    ghost coded = { coded_list T.code };

    ghost view = { λ list. list.elements.items };
}

impl<T> Items<T> {
    ghost use Rattle.protox_descriptor.specs.LentItems.{lends_element, lends_elements};

    /// The empty list. It takes no memory; later growth takes it from `alloc`.
    pub fn new(alloc: Global) -> Items<T>
        ensures { result ≡ [] }
    {
        Items {
            elements: Vec::new(alloc),
        }
    }

    /// The empty list with room for `room` elements, or `AllocError`.
    pub fn with_capacity(alloc: Global, room: usize) -> Result<Items<T>, AllocError>
        ensures value { IfOk result (λ made. made ≡ []) }
        ensures free { room ≡ 0 → IsOk result }
    {
        Ok(Items {
            elements: Vec::with_capacity(alloc, room)?,
        })
    }

    /// Gives back the room that no element takes, as far as the allocator allows.
    pub fn shrink_to_fit(&mut self)
        ensures { self.new ≡ self.old }
    {
        self.elements.shrink_to_fit();
    }

    /// The vector as a list. Nothing is copied.
    pub fn from_vec(elements: Vec<T>) -> Items<T>
        ensures { result ≡ elements.items }
    {
        Items { elements }
    }

    /// The list as a vector. Nothing is copied.
    pub fn into_vec(self) -> Vec<T>
        ensures { result.items ≡ self }
    {
        let Items { elements } = self;
        elements
    }

    /// The elements, borrowed.
    pub fn as_slice(&self) -> &[T]
        ensures { result.now ≡ self.now }
    {
        self.elements.as_slice()
    }

    /// The number of elements.
    pub fn len(&self) -> usize
        ensures { result ≡ length self.now }
    {
        self.elements.len()
    }

    /// Whether the list is empty.
    pub fn is_empty(&self) -> bool
        ensures { result ≡ (length self.now == 0) }
    {
        self.elements.is_empty()
    }

    /// The element at `index`, counted from 0. None at or after the end.
    pub fn get(&self, index: usize) -> Option<&T>
        ensures { option_copied result ≡ slice_get self.now index }
    {
        self.elements.get(index)
    }

    /// The elements, borrowed, in order or from the back.
    pub fn iter(&self) -> Iter<'_, T>
        ensures rest { iter_rest result ≡ self.now }
        ensures bound { length (iter_rest result) < 2 ^ 64 }
        ensures runs { IterYieldsInOrder T }
        ensures runs_back { IterYieldsInReverse T }
    {
        self.elements.as_slice().iter()
    }

    /// The element at `index`, counted from 0, to be changed. None at or after the end.
    ///
    /// ```
    /// if let Some(message) = file.message_type.get_mut(0) {
    ///     message.name = None;
    /// }
    /// ```
    pub fn get_mut(&mut self, index: usize) -> Option<&mut T>
        // The list then has what was left behind the reference. Without a reference it is
        // unchanged.
        ensures* writes_back { sem 𝓛 (lends_element T.row self.entry index result) }
        ensures value { option_copied_mut result ≡ slice_get self.old index }
    {
        self.elements.get_mut(index)
    }

    /// The elements in order, each to be changed.
    pub fn iter_mut(&mut self) -> IterMut<'_, T>
        // The list then has what was left behind the references.
        ensures* writes_back { sem 𝓛 (lends_elements T.row self.entry result) }
        ensures rest { iter_mut_rest result ≡ self.old }
        ensures bound { length (iter_mut_rest result) < 2 ^ 64 }
        ensures runs { IterMutYieldsInOrder T }
    {
        self.elements.as_mut_slice().iter_mut()
    }

    /// Takes the last element out, or None if the list is empty. It gives no memory back.
    pub fn pop(&mut self) -> Option<T>
        ensures parted { self.old ≡ self.new ++ option_to_list result }
        ensures some { IsSome result ↔ (0 < length self.old) }
    {
        self.elements.pop()
    }
}

impl<T: Drop> Items<T> {
    /// Puts `element` at `index`, counted from 0. `index` must be at most the number of elements.
    /// The elements from there on move up by one. On `AllocError` the list is unchanged, and
    /// `element` is dropped.
    pub fn insert(&mut self, index: usize, element: T) -> Result<(), AllocError>
        requires { index ≤ length self.old }
        ensures ok { OnOk result (self.new ≡ insert self.old index element) }
        ensures err { OnErr result (self.new ≡ self.old) }
    {
        self.elements.insert(index, element)?;
        Ok(())
    }

    /// Appends `element`. On `AllocError` the list is unchanged, and `element` is dropped.
    pub fn push(&mut self, element: T) -> Result<(), AllocError>
        ensures ok { OnOk result (self.new ≡ self.old ++ element ∷ []) }
        ensures err { OnErr result (self.new ≡ self.old) }
    {
        self.elements.push(element)?;
        Ok(())
    }

    /// Drops all elements after the first `len`.
    pub fn truncate(&mut self, len: usize)
        ensures { self.new ≡ take len self.old }
    {
        self.elements.truncate(len);
    }
}

impl<T: Copy> Items<T> {
    /// A copy of `elements`, or `AllocError`.
    pub fn from_slice(alloc: Global, elements: &[T]) -> Result<Items<T>, AllocError>
        ensures { IfOk result (λ made. made ≡ elements.now) }
    {
        Ok(Items {
            elements: Vec::from_slice(alloc, elements)?,
        })
    }

    /// Appends `more`. On `AllocError` the list is unchanged.
    pub fn extend_from_slice(&mut self, more: &[T]) -> Result<(), AllocError>
        ensures ok { OnOk result (self.new ≡ self.old ++ more.now) }
        ensures err { OnErr result (self.new ≡ self.old) }
    {
        self.elements.extend_from_slice(more)
    }
}

impl<'a, T> IntoIterator for &'a Items<T> {
    type Item = &'a T;

    type IntoIter = Iter<'a, T>;

    ghost into_iter_gives = { λ list it. (iter_rest it ≡ list.now) × (length (iter_rest it) < 2 ^ 64)
        × IterYieldsInOrder T };

    fn into_iter(self) -> Iter<'a, T> {
        self.elements.as_slice().iter()
    }
}

impl<'a, T> IntoIterator for &'a mut Items<T> {
    ghost use Rattle.protox_descriptor.specs.LentItems.{lends_elements};

    type Item = &'a mut T;

    type IntoIter = IterMut<'a, T>;

    ghost into_iter_gives = { λ list it. (iter_mut_rest it ≡ list.now) × (length (iter_mut_rest it) < 2 ^ 64)
        × IterMutYieldsInOrder T };

    fn into_iter(self) -> IterMut<'a, T>
        ensures* writes_back { sem 𝓛 (lends_elements T.row self.entry result) }
        ensures into_iter_gives { (iter_mut_rest result ≡ self.old) × (length (iter_mut_rest result) < 2 ^ 64)
            × IterMutYieldsInOrder T }
    {
        self.iter_mut()
    }
}

impl<T: PartialEq> PartialEq for Items<T> {
    ghost eq = { pointwise T.eq };

    ghost laws = { lists_per T.laws };

    fn eq(&self, other: &Items<T>) -> bool {
        self.elements == other.elements
    }
}

impl<T: fmt::Debug> fmt::Debug for Items<T> {
    ghost use Rattle.std.specs.Fmt.{debug_list};

    ghost debug_output = { debug_list T.debug_output };

    fn fmt<W: fmt::Write>(&self, f: &mut fmt::Formatter<W>) -> fmt::Result {
        fmt::Debug::fmt(&self.elements, f)
    }
}
