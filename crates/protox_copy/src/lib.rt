//! Copies of descriptors. A copy is equal to its original and owns its memory.
#![tactic(auto)]

ghost use Rattle.std.specs.Prelude.{◌≡◌, IfOk};
ghost use Rattle.std.specs.Option.{option_copied};

mod files;
mod messages;
mod options;
mod places;

use protox_descriptor::values::{Items, Numbers, Text};
use std::alloc::{AllocError, Global};

/// A value that can be copied: each message of descriptor.proto, and the texts, lists and numbers
/// in them.
pub trait CopyIn: Drop {
    /// A value that is equal to this one and owns its memory, or `AllocError`.
    ///
    /// ```
    /// let message = file.message_type.as_slice()[0].copy(alloc)?;
    /// ```
    fn copy(&self, alloc: Global) -> Result<Self, AllocError>
        ensures { IfOk result (λ made. made ≡ self.now) };
}

// A copy of a borrowed part, if there is one.
fn copy_lent<T: CopyIn>(alloc: Global, part: Option<&T>) -> Result<Option<T>, AllocError>
    ensures { IfOk result (λ made. made ≡ option_copied part.entry) }
{
    match part {
        Some(part) => Ok(Some(part.copy(alloc)?)),
        None => Ok(None),
    }
}

impl<T: CopyIn> CopyIn for Option<T> {
    fn copy(&self, alloc: Global) -> Result<Option<T>, AllocError> {
        match self {
            Some(value) => Ok(Some(value.copy(alloc)?)),
            None => Ok(None),
        }
    }
}

impl<T: CopyIn> CopyIn for Items<T> {
    fn copy(&self, alloc: Global) -> Result<Items<T>, AllocError> {
        let elements = self.as_slice();
        let mut made = Items::with_capacity(alloc, elements.len())?;
        for element in elements {
            made.push(element.copy(alloc)?)?;
        }
        Ok(made)
    }
}

impl CopyIn for Text {
    fn copy(&self, alloc: Global) -> Result<Text, AllocError> {
        Text::copy(alloc, self.as_str())
    }
}

impl CopyIn for Numbers {
    fn copy(&self, alloc: Global) -> Result<Numbers, AllocError> {
        Numbers::from_slice(alloc, self.as_slice())
    }
}

impl CopyIn for i32 {
    fn copy(&self, _alloc: Global) -> Result<i32, AllocError> {
        Ok(*self)
    }
}

impl CopyIn for u8 {
    fn copy(&self, _alloc: Global) -> Result<u8, AllocError> {
        Ok(*self)
    }
}
