//! Parts that clash with another one.

ghost use Rattle.std.specs.Prelude.{◌≡◌, IfOk};
ghost use Rattle.protox_numbers.specs.Clashes as words;

use std::alloc::{AllocError, Global};

/// A part clashes with another one. The two may be of different kinds, as a field and a range.
#[derive(Clone, Copy, PartialEq, Debug)]
pub struct Clash {
    /// The index of the part at fault.
    pub part: usize,
    /// The index of what it clashes with.
    pub with: usize,
}

// The clashes, if this is what each part meets first.
pub fn with_first(alloc: Global, met: &[Option<usize>]) -> Result<Vec<Clash>, AllocError>
    ensures { IfOk result (λ made. made.items ≡ words.with_first met.now) }
{
    let mut made = Vec::new(alloc);
    for (part, with) in met.iter().enumerate() {
        if let Some(with) = *with {
            made.push(Clash { part, with })?;
        }
    }
    Ok(made)
}

/// The clashes with earlier parts, in order, if this is what each part meets first. What is met at a
/// part itself, or behind it, doesn't count.
///
/// # Errors
/// `AllocError` where memory runs out.
pub fn with_earlier(alloc: Global, met: &[Option<usize>]) -> Result<Vec<Clash>, AllocError>
    ensures { IfOk result (λ made. made.items ≡ words.with_earlier met.now) }
{
    let mut made = Vec::new(alloc);
    for (part, with) in met.iter().enumerate() {
        if let Some(with) = *with {
            if with < part {
                made.push(Clash { part, with })?;
            }
        }
    }
    Ok(made)
}
