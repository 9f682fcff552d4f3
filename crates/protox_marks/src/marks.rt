//! Marks for numbers.

ghost use Rattle.std.specs.Prelude.{◌≡◌, ◌<◌, ◌+◌, ◌/◌, ◌||◌, ℕ, true, false, bit_or, length, replicate, slice_index_or, slice_set, IfOk};
ghost use Rattle.protox_marks.specs.Few.{ShareBit, among, has};
ghost use Rattle.protox_marks.specs.Marks.{any_marked, marks_of};

use crate::few::{FewMarks, FewWord};
use std::alloc::{AllocError, Global};
use std::marker::Model;

/// Which of the numbers below a count are marked. It takes a bit for each number.
#[derive(Drop)]
pub struct Marks {
    words: Vec<u64>,
    count: usize,
}

impl Model for Marks {
    ghost use Rattle.std.specs.Prelude.{◌≡◌, ◌≤◌, ◌+◌, ◌/◌, ℕ, Bool, false, List, length};
    ghost use Rattle.protox_marks.specs.Marks.{is_set, marks_of};

    ghost Value = { List Bool };

    ghost view = { λ m. marks_of m.words.items m.count };

    // No bit is set but for a number below the count.
    ghost invariant = { λ m. (length m.words.items ≡ m.count / 64 + 1)
        × ((n : ℕ) → m.count ≤ n → is_set m.words.items n ≡ false) };
}

// Marks what is marked in other words.
fn add_words(words: &mut [u64], more: &[u64])
    requires { length words.old ≡ length more.now }
    ensures len { length words.new ≡ length words.old }
    ensures both { (n : ℕ) → slice_index_or words.new n 0
        ≡ bit_or (slice_index_or words.old n 0) (slice_index_or more.now n 0) }
{
    for index in 0..words.len() {
        words[index] |= more[index];
    }
}

// Whether some bit is set in both of two words.
fn share(word: u64, other: u64) -> bool
    ensures some { result ≡ true → ShareBit word other }
    ensures none { result ≡ false → ShareBit word other → ⊥ }
{
    word & other != 0
}

impl Marks {
    /// Of the numbers below `count`, none is marked.
    ///
    /// # Errors
    /// `AllocError` where memory runs out.
    pub fn new(alloc: Global, count: usize) -> Result<Marks, AllocError>
        ensures { IfOk result (λ marks. marks ≡ replicate count false) }
    {
        let words = vec![in alloc; 0; count / 64 + 1]?;
        Ok(Marks { words, count })
    }

    /// The count: all numbers below it are marked or not.
    pub fn len(&self) -> usize
        ensures { result ≡ length self.now }
    {
        self.count
    }

    /// Whether a number is marked. No number is that is not below the count.
    pub fn has(&self, number: usize) -> bool
        ensures { result ≡ slice_index_or self.now number false }
    {
        if number >= self.count {
            return false;
        }
        self.words[number / 64] >> (number % 64) & 1 == 1
    }

    /// Marks a number below the count.
    pub fn mark(&mut self, number: usize)
        requires { number < length self.old }
        ensures { self.new ≡ slice_set self.old number true }
    {
        self.words[number / 64] |= 1 << (number % 64);
    }

    /// Marks what is marked in other marks with the same count.
    pub fn add(&mut self, other: &Marks)
        requires { length other.now ≡ length self.old }
        ensures len { length self.new ≡ length self.old }
        ensures both { (n : ℕ) → slice_index_or self.new n false
            ≡ (slice_index_or self.old n false || slice_index_or other.now n false) }
    {
        add_words(&mut self.words, &other.words);
    }

    // Whether a number is marked here whose bit is set in a word.
    fn meets_word(&self, word: &FewWord) -> bool
        ensures { result ≡ any_marked self.now (has word.now) }
    {
        match self.words.get(word.index) {
            Some(own) => share(*own, word.bits),
            None => false,
        }
    }

    /// Whether a number is marked here and in few others. It looks at each word of the others at
    /// most once.
    pub fn meets(&self, few: &FewMarks) -> bool
        ensures { result ≡ any_marked self.now (among few.now) }
    {
        for word in &few.words {
            if self.meets_word(word) {
                return true;
            }
        }
        false
    }

    /// These marks, as bits.
    ///
    /// # Errors
    /// `AllocError` where memory runs out.
    pub fn of(alloc: Global, all: &[bool]) -> Result<Marks, AllocError>
        ensures { IfOk result (λ marks. marks ≡ all.now) }
    {
        let mut marks = Marks::new(alloc, all.len())?;
        for (number, marked) in all.iter().enumerate() {
            if *marked {
                marks.mark(number);
            }
        }
        Ok(marks)
    }
}
