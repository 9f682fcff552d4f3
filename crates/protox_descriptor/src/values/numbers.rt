ghost use Rattle.std.specs.Prelude.{◌≡◌, ◌≤◌, ◌<◌, [], ◌∷◌, ◌++◌, ◌+◌, ◌==◌, take, length, IsOk, IfOk, OnOk, OnErr};
ghost use Rattle.std.specs.Ordering.{int_eq};
ghost use Rattle.std.specs.Cmp.Lexicographic.{pointwise};
ghost use Rattle.std.specs.Cmp.Rules.{comparing};
ghost use Rattle.std.proofs.Common.{rules};

use std::alloc::{AllocError, Global};
use std::fmt;
use std::marker::Model;

/// How many numbers fit in the value itself.
const FEW: usize = 7;

// Where the numbers are: at the front of an array, or in a vector.
#[derive(Drop)]
enum Held {
    InPlace { len: u8, numbers: [i32; 7] },
    InVector { numbers: Vec<i32> },
}

/// A short list of numbers, such as a path or a span. Up to seven lie in the value itself and take
/// no memory. More lie in a vector. Contracts see the list of the numbers.
#[derive(Drop)]
pub struct Numbers {
    held: Held,
}

impl Model for Numbers {
    ghost use Rattle.std.specs.Prelude.{List, ℤ};

    ghost Value = { List ℤ };

    ghost use Rattle.protox_descriptor.specs.inner.HeldNumbers.{numbers_held, IsWithin};

    ghost view = { λ list. numbers_held list.held };

    ghost invariant = { λ list. IsWithin list.held };
}

// Both lists, one after the other, and then zeros.
#[inline(always)]
fn filled(front: &[i32], back: &[i32]) -> [i32; 7]
    requires { length front.now + length back.now ≤ 7 }
    ensures { take (length front.now + length back.now) result ≡ front.now ++ back.now }
{
    let mut array = [0; FEW];
    let middle = front.len();
    let end = middle + back.len();
    array[..middle].copy_from_slice(front);
    array[middle..end].copy_from_slice(back);
    array
}

// Both lists, one after the other, in one value. It takes no memory.
#[inline(always)]
fn few(front: &[i32], back: &[i32]) -> Numbers
    requires { length front.now + length back.now ≤ 7 }
    ensures { result ≡ front.now ++ back.now }
{
    Numbers {
        held: Held::InPlace {
            len: (front.len() + back.len()) as u8,
            numbers: filled(front, back),
        },
    }
}

// Both lists in one vector, with room for no more.
fn vector(alloc: Global, front: &[i32], back: &[i32]) -> Result<Vec<i32>, AllocError>
    ensures { IfOk result (λ whole. whole.items ≡ front.now ++ back.now) }
{
    let mut whole = Vec::with_capacity(alloc, front.len() + back.len())?;
    whole.extend_from_slice(front)?;
    whole.extend_from_slice(back)?;
    Ok(whole)
}

impl Numbers {
    /// The empty list. It takes no memory.
    pub fn new() -> Numbers
        ensures { result ≡ [] }
    {
        Numbers {
            held: Held::InPlace {
                len: 0,
                numbers: [0; FEW],
            },
        }
    }

    /// A list of at most seven numbers. It takes no memory.
    #[inline(always)]
    pub fn few(numbers: &[i32]) -> Numbers
        requires { length numbers.now ≤ 7 }
        ensures { result ≡ numbers.now }
    {
        few(numbers, &[])
    }

    /// A list with the numbers of `front` and then those of `back`, or `AllocError`. Up to seven
    /// take no memory.
    pub fn joined(alloc: Global, front: &[i32], back: &[i32]) -> Result<Numbers, AllocError>
        ensures value { IfOk result (λ made. made ≡ front.now ++ back.now) }
        ensures free { length front.now + length back.now ≤ 7 → IsOk result }
    {
        if front.len() + back.len() <= FEW {
            return Ok(few(front, back));
        }
        let whole = vector(alloc, front, back)?;
        Ok(Numbers::from_vec(whole))
    }

    /// A copy of `numbers`, or `AllocError`. Up to seven take no memory.
    pub fn from_slice(alloc: Global, numbers: &[i32]) -> Result<Numbers, AllocError>
        ensures value { IfOk result (λ made. made ≡ numbers.now) }
        ensures free { length numbers.now ≤ 7 → IsOk result }
    {
        Numbers::joined(alloc, numbers, &[])
    }

    /// The vector as a list. Nothing is copied, and it takes no memory.
    pub fn from_vec(numbers: Vec<i32>) -> Numbers
        ensures { result ≡ numbers.items }
    {
        Numbers {
            held: Held::InVector { numbers },
        }
    }

    /// The list as a vector, or `AllocError`. A list in a vector gives this vector and takes no
    /// memory. Any other is copied into a vector with room for no more.
    pub fn into_vec(self, alloc: Global) -> Result<Vec<i32>, AllocError>
        ensures { IfOk result (λ vector. vector.items ≡ self) }
    {
        match self.held {
            Held::InPlace { len, numbers } => Vec::from_slice(alloc, &numbers[..len as usize]),
            Held::InVector { numbers } => Ok(numbers),
        }
    }

    /// The numbers, borrowed.
    pub fn as_slice(&self) -> &[i32]
        ensures { result.now ≡ self.now }
    {
        match &self.held {
            Held::InPlace { len, numbers } => &numbers[..*len as usize],
            Held::InVector { numbers } => numbers.as_slice(),
        }
    }

    /// The number of numbers.
    pub fn len(&self) -> usize
        ensures { result ≡ length self.now }
    {
        self.as_slice().len()
    }

    /// Whether the list is empty.
    pub fn is_empty(&self) -> bool
        ensures { result ≡ (length self.now == 0) }
    {
        self.as_slice().is_empty()
    }
}

impl PartialEq for Numbers {
    ghost eq = { pointwise int_eq };

    ghost laws = { Prim.search (comparing, rules) };

    fn eq(&self, other: &Numbers) -> bool {
        self.as_slice() == other.as_slice()
    }
}

impl fmt::Debug for Numbers {
    ghost use Rattle.std.specs.Prelude.{Some};
    ghost use Rattle.std.specs.Fmt.{debug_list, signed_decimal};

    ghost debug_output = { debug_list (λ number. Some (signed_decimal number)) };

    fn fmt<W: fmt::Write>(&self, f: &mut fmt::Formatter<W>) -> fmt::Result {
        fmt::Debug::fmt(&self.as_slice(), f)
    }
}
