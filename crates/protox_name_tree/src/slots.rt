//! Slots in which numbers are looked for.

ghost use Rattle.std.specs.Prelude.{◌≡◌, ◌<◌, ◌≤◌, ◌+◌, ◌*◌, ◌/◌, ◌^◌, ℕ, Some, None, [], false, true, length, IfNone, IfOk, IfSome, OnOk};
ghost use Rattle.protox_name_tree.specs.Slots.{AreTaken, IsFree, IsInWindow, held, scattered, window_start};

use crate::sought::Sought;
use std::alloc::{AllocError, Global};
use std::marker::Model;

/// How many slots are looked at for a number.
const WINDOW: usize = 8;

/// How many slots are made at once.
const ROW: usize = 16;

/// Slots that hold numbers. What has a number is mixed to another one, which tells a window of eight
/// slots. Its number is in the first of these that was free, so a search ends at the first that is
/// free. If all eight were taken, its number is kept elsewhere. So a search takes few steps, whatever
/// is looked for.
#[derive(Drop)]
pub(crate) struct Slots {
    // for each slot, one more than its number, or zero
    slots: Vec<usize>,
}

impl Model for Slots {
    ghost use Rattle.std.specs.Prelude.{List, Option, ℕ, map};
    ghost use Rattle.protox_name_tree.specs.Slots.{number_in};

    ghost Value = { List (Option ℕ) };

    ghost view = { λ s. map number_in s.slots.items };
}

// Numbers that are close to one another are scattered, as names are often numbered: 2 to the 64th is
// divided by the golden ratio, and the upper half is taken. The lower bits of the product would follow
// those of the number, so that some counts of slots would fit some sets of names badly.
#[tactic(auto, unfolding(crate::specs::Slots::scattered))]
fn scattered(mixed: u64) -> u64
    ensures is { result ≡ scattered mixed }
    ensures small { result < 4294967296 }
{
    mixed.wrapping_mul(11_400_714_819_323_198_485) / 4_294_967_296
}

// Free slots, so many rows of them. A row is copied whole, which is faster than slot by slot.
fn free_rows(alloc: Global, rows: usize) -> Result<Vec<usize>, AllocError>
    ensures { IfOk result (λ slots. length slots.items ≡ rows * 16) }
{
    let mut slots = Vec::with_capacity(alloc, rows.saturating_mul(ROW))?;
    for row in 0..rows {
        slots.extend_from_slice(&[0; ROW])?;
    }
    Ok(slots)
}

impl Slots {
    /// No slots.
    pub(crate) fn new(alloc: Global) -> Slots
        ensures { result ≡ [] }
    {
        Slots {
            slots: Vec::new(alloc),
        }
    }

    /// Makes slots for about `room` numbers, if there are none: three for each, in whole rows.
    ///
    /// # Errors
    /// `AllocError` where memory runs out.
    pub(crate) fn open(&mut self, alloc: Global, room: usize) -> Result<(), AllocError>
        ensures made { OnOk result (0 < length self.new) }
        ensures room { self.old ≡ [] → room * 3 + 24 < 2 ^ 64 → OnOk result
            (length self.new ≡ ((room * 3 + 8) / 16 + 1) * 16) }
        ensures kept { (mixed n : ℕ) → IsInWindow self.old mixed n → IsInWindow self.new mixed n }
    {
        if self.slots.is_empty() {
            let count = room.saturating_mul(3).saturating_add(WINDOW);
            self.slots = free_rows(alloc, count / ROW + 1)?;
        }
        Ok(())
    }

    // Where the window begins of what is mixed to a number.
    #[tactic(auto, using(crate::proofs::Mixing::product_fits), unfolding(crate::specs::Slots::window_start))]
    fn window(&self, mixed: u64) -> usize
        ensures start { result ≡ window_start (length self.now) mixed }
        ensures small { result < 2 ^ 62 }
    {
        let slots: &[usize] = &self.slots;
        let count = slots.len().saturating_sub(WINDOW).min(0xFFFF_FFFF);
        (scattered(mixed) * count as u64 / 4_294_967_296) as usize
    }

    // What the slot at an index holds.
    fn get(&self, index: usize) -> Option<usize>
        ensures { result ≡ held self.now index }
    {
        match self.slots.get(index) {
            Some(slot) => slot.checked_sub(1),
            None => None,
        }
    }

    // Whether there is a slot at an index, and it holds nothing.
    fn is_free(&self, index: usize) -> bool
        ensures yes { result ≡ true → IsFree self.now index }
        ensures no { IsFree self.now index → result ≡ true }
    {
        index < self.slots.len() && self.slots[index] == 0
    }

    // The index of the first slot in the window that holds nothing.
    fn free(&self, mixed: u64) -> Option<usize>
        ensures none { IfNone result (AreTaken self.now mixed 8) }
        ensures free { IfSome result (λ index. IsFree self.now index) }
        ensures near { IfSome result (λ index. (step : ℕ) × (step < 8)
            × (index ≡ window_start (length self.now) mixed + step)
            × AreTaken self.now mixed step) }
    {
        let start = self.window(mixed);
        for step in 0..WINDOW {
            if self.is_free(start + step) {
                return Some(start + step);
            }
        }
        None
    }

    /// Puts a number into a slot of the window, if one holds nothing. Answers whether it did. The
    /// largest number of all has no slot.
    pub(crate) fn put(&mut self, mixed: u64, number: usize) -> bool
        ensures full { number + 1 < 2 ^ 64 → result ≡ false → AreTaken self.old mixed 8 }
        ensures kept { (m n : ℕ) → IsInWindow self.old m n → IsInWindow self.new m n }
        ensures put { result ≡ true → IsInWindow self.new mixed number }
    {
        let Some(slot) = number.checked_add(1) else {
            return false;
        };
        match self.free(mixed) {
            Some(index) => {
                self.slots[index] = slot;
                true
            }
            None => false,
        }
    }

    /// The number of what is looked for, if a slot of its window holds it.
    pub(crate) fn search<S: Sought>(&self, mixed: u64, sought: &S) -> Option<usize>
        ensures some { IfSome result (λ n. S.is_at sought.now n) }
        ensures none { IfNone result ((n : ℕ) → IsInWindow self.now mixed n
            → S.is_at sought.now n → ⊥) }
    {
        let start = self.window(mixed);
        for step in 0..WINDOW {
            let Some(number) = self.get(start + step) else {
                return None;
            };
            if sought.is_at(number) {
                return Some(number);
            }
        }
        None
    }
}
