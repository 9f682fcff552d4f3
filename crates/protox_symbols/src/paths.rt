//! Paths of like siblings, one after another.

ghost use Rattle.std.specs.Prelude.{◌≡◌, ◌++◌, ◌∷◌, [], IfOk, OnOk, pos, take};

use std::alloc::{AllocError, Global};

/// The path of like siblings: that of what they are in, and their tag. There is room for one index
/// more.
///
/// # Errors
/// `AllocError` where memory runs out.
pub fn path_of_siblings(alloc: Global, path: &[i32], tag: i32) -> Result<Vec<i32>, AllocError>
    ensures { IfOk result (λ made. made.items ≡ path.now ++ tag ∷ []) }
{
    let mut made = Vec::with_capacity(alloc, path.len().saturating_add(2))?;
    made.extend_from_slice(path)?;
    made.push(tag)?;
    Ok(made)
}

/// Leaves the first `len` numbers of a path, and adds the index of a sibling. So one path after
/// another stands in the same memory.
///
/// # Errors
/// `AllocError` where memory runs out, or where the index is above 2,147,483,647: no path can hold it.
pub fn put_index(path: &mut Vec<i32>, len: usize, index: usize) -> Result<(), AllocError>
    ensures { OnOk result (path.new.items ≡ take len path.old.items ++ pos index ∷ []) }
{
    if index > 2147483647 {
        return Err(AllocError);
    }
    path.truncate(len);
    path.push(index as i32)?;
    Ok(())
}
