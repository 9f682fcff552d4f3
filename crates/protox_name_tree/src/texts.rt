//! Texts that have numbers.

ghost use Rattle.std.specs.Prelude.{◌≡◌, ◌↔◌, ◌++◌, ◌∷◌, [], ℕ, List, Some, IfOk, OnErr, map, string_bytes};
ghost use Rattle.std.specs.List.{slice_get};
ghost use Rattle.std.specs.Option.{option_copied};

use crate::mixed::mixed_text;
use crate::slots::Slots;
use crate::sought::Sought;
use std::alloc::{AllocError, Global};
use std::collections::BTreeMap;
use std::marker::Model;

/// Different texts. Each has a number, and is found by it and by what it says.
#[derive(Drop)]
pub(crate) struct Texts {
    texts: Vec<String>,
    slots: Slots,
    elsewhere: BTreeMap<String, usize>,
    room: usize,
}

impl Model for Texts {
    ghost use Rattle.std.specs.Prelude.{List, ℕ, map, string_bytes};
    ghost use Rattle.std.specs.BTreeMap.{get_by_text};
    ghost use Rattle.protox_name_tree.specs.Numbered.{IsIndexed};
    ghost use Rattle.protox_name_tree.specs.Slots.{mixed_text};

    ghost Value = { List (List ℕ) };

    ghost view = { λ t. map string_bytes t.texts.items };

    ghost invariant = { λ t. IsIndexed mixed_text t.slots (get_by_text t.elsewhere) (map string_bytes t.texts.items) };
}

// The text with a number.
fn text_at(texts: &[String], number: usize) -> Option<&str>
    ensures { option_copied result ≡ slice_get (map string_bytes texts.now) number }
{
    match texts.get(number) {
        Some(text) => Some(text.as_str()),
        None => None,
    }
}

// A text that is looked for.
#[derive(Drop)]
struct SoughtText<'a> {
    texts: &'a [String],
    text: &'a str,
}

impl Sought for SoughtText<'_> {
    ghost use Rattle.std.specs.Prelude.{◌≡◌, Some, map, string_bytes};
    ghost use Rattle.std.specs.List.{slice_get};

    ghost is_at = { λ s n. slice_get (map string_bytes s.texts.now) n ≡ Some s.text.now };

    fn is_at(&self, number: usize) -> bool {
        match text_at(self.texts, number) {
            Some(known) => known == self.text,
            None => false,
        }
    }
}

impl Texts {
    /// No texts. Soon there may be some `room`.
    pub(crate) fn new(alloc: Global, room: usize) -> Texts
        ensures { result ≡ [] }
    {
        Texts {
            texts: Vec::new(alloc),
            slots: Slots::new(alloc),
            elsewhere: BTreeMap::new(alloc),
            room,
        }
    }

    /// The number of a text, if it is among them.
    pub(crate) fn number(&self, text: &str) -> Option<usize>
        ensures { (n : ℕ) → (result ≡ Some n) ↔ (slice_get self.now n ≡ Some text.now) }
    {
        let texts = self.texts.as_slice();
        let sought = SoughtText { texts, text };
        match self.slots.search(mixed_text(text), &sought) {
            Some(number) => Some(number),
            None => self.elsewhere.get(text).copied(),
        }
    }

    /// The text with a number.
    pub(crate) fn get(&self, number: usize) -> Option<&str>
        ensures { option_copied result ≡ slice_get self.now number }
    {
        text_at(&self.texts, number)
    }

    fn push(&mut self, alloc: Global, text: &str) -> Result<usize, AllocError>
        requires { (n : ℕ) → slice_get self.old n ≡ Some text.now → ⊥ }
        ensures ok { IfOk result (λ n. slice_get self.new n ≡ Some text.now) }
        ensures single { IfOk result (λ n. (m : ℕ) → slice_get self.new m ≡ Some text.now → m ≡ n) }
        ensures grown { IfOk result (λ _. self.new ≡ self.old ++ text.now ∷ []) }
        ensures err { OnErr result (self.new ≡ self.old) }
    {
        let number = self.texts.len();
        let kept = String::from_str(alloc, text)?;
        self.texts.reserve(1)?;
        self.slots.open(alloc, self.room)?;
        if !self.slots.put(mixed_text(text), number) {
            let key = String::from_str(alloc, text)?;
            self.elsewhere.insert(key, number)?;
        }
        self.texts.push_reserved(kept);
        Ok(number)
    }

    /// The number of a text, which is added if it isn't among them.
    ///
    /// # Errors
    /// `AllocError` where memory runs out. Nothing is added then.
    pub(crate) fn add(&mut self, alloc: Global, text: &str) -> Result<usize, AllocError>
        ensures ok { IfOk result (λ n. slice_get self.new n ≡ Some text.now) }
        ensures single { IfOk result (λ n. (m : ℕ) → slice_get self.new m ≡ Some text.now → m ≡ n) }
        ensures grown { (more : List (List ℕ)) × (self.new ≡ self.old ++ more) }
    {
        match self.number(text) {
            Some(number) => Ok(number),
            None => self.push(alloc, text),
        }
    }
}
