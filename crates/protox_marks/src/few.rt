//! Marks for few numbers.

ghost use Rattle.std.specs.Prelude.{◌≡◌, ◌||◌, ◌==◌, ℕ, false, OnOk};
ghost use Rattle.protox_marks.specs.Few.{among};

use std::alloc::{AllocError, Global};

/// The bits for 64 numbers: those from 64 times the index on.
#[derive(Drop)]
pub(crate) struct FewWord {
    pub(crate) index: usize,
    pub(crate) bits: u64,
}

/// Which numbers are marked, of numbers without a bound. Where they are marked in their order, it
/// takes a word for each 64 numbers of which some is marked, and no more than one for each mark.
#[derive(Drop)]
pub struct FewMarks {
    pub(crate) words: Vec<FewWord>,
}

impl FewMarks {
    /// No number is marked. It takes no memory.
    pub fn new(alloc: Global) -> FewMarks
        ensures { (n : ℕ) → among result n ≡ false }
    {
        FewMarks {
            words: Vec::new(alloc),
        }
    }

    /// Marks a number.
    ///
    /// # Errors
    /// `AllocError` where memory runs out.
    pub fn mark(&mut self, number: usize) -> Result<(), AllocError>
        ensures { OnOk result ((n : ℕ) → among self.new n ≡ (among self.old n || (n == number))) }
    {
        let index = number / 64;
        let bits = 1 << (number % 64);
        let count = self.words.len();
        if 0 < count && self.words[count - 1].index == index {
            self.words[count - 1].bits |= bits;
            return Ok(());
        }
        self.words.push(FewWord { index, bits })?;
        Ok(())
    }
}
