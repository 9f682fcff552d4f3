//! Parts of a pool that become one with those of another.

ghost use Rattle.std.specs.Prelude.{◌≡◌, ◌+◌, ◌++◌, ◌≤◌, ℕ, length, map, IfOk};
ghost use Rattle.protox_pool.specs.inner.Ends.{AreEnds, moved};

use crate::ends::Ends;
use std::alloc::AllocError;

/// A count, if it and more together are no more than a `u32` counts.
pub(crate) fn count_before(count: usize, more: usize) -> Result<u32, AllocError>
    ensures count { IfOk result (λ before. before ≡ count) }
    ensures both { IfOk result (λ before. count + more ≤ 4294967295) }
{
    if count > 4294967295 || more > 4294967295 - count {
        return Err(AllocError);
    }
    Ok(count as u32)
}

/// The list, and elements behind it.
pub(crate) fn with_behind<T: Copy>(list: Vec<T>, back: &[T]) -> Result<Vec<T>, AllocError>
    ensures { IfOk result (λ all. all.items ≡ list.items ++ back.now) }
{
    let mut all = list;
    all.reserve_exact(back.len())?;
    all.extend_from_slice(back)?;
    Ok(all)
}

/// The list, and elements in front of it.
pub(crate) fn with_front<T: Copy>(list: Vec<T>, front: &[T]) -> Result<Vec<T>, AllocError>
    ensures { IfOk result (λ all. all.items ≡ front.now ++ list.items) }
{
    let mut all = with_behind(list, front)?;
    all.rotate_right(front.len());
    Ok(all)
}

// An end that stands so many numbers and comments further behind.
fn moved(end: Ends, numbers: u32, comments: u32) -> Ends
    requires order { end.path ≤ end.span }
    requires span { end.span + numbers ≤ 4294967295 }
    requires comments { end.comments + comments ≤ 4294967295 }
    ensures { result ≡ moved numbers comments end }
{
    Ends {
        path: end.path + numbers,
        span: end.span + numbers,
        comments: match end.comments {
            0 => 0,
            number => number + comments,
        },
    }
}

// Moves the ends of locations so many numbers and comments further behind.
fn move_ends(ends: &mut [Ends], numbers: u32, comments: u32)
    requires { (count last : ℕ) × AreEnds count last 0 ends.old × (last + numbers ≤ 4294967295) × (count + comments ≤ 4294967295) }
    ensures { ends.new ≡ map (moved numbers comments) ends.old }
{
    for index in 0..ends.len() {
        ends[index] = moved(ends[index], numbers, comments);
    }
}

/// The ends of locations that stand so many numbers and comments further behind. Needs that a `u32`
/// counts them then.
pub(crate) fn moved_ends(ends: Vec<Ends>, numbers: u32, comments: u32) -> Vec<Ends>
    requires { (count last : ℕ) × AreEnds count last 0 ends.items × (last + numbers ≤ 4294967295) × (count + comments ≤ 4294967295) }
    ensures { result.items ≡ map (moved numbers comments) ends.items }
{
    let mut all = ends;
    move_ends(&mut all, numbers, comments);
    all
}
