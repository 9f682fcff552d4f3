//! Names that are the same.

ghost use Rattle.std.specs.Prelude.{◌≡◌, ℕ, List, map, bytes_eq, IfOk, OnOk};
ghost use Rattle.protox_alike.specs.Alike as words;
ghost use Rattle.protox_alike.specs.inner.Firsts.{first_in, first_of};

use protox_numbers::{Clash, with_earlier};
use std::alloc::{AllocError, Global};
use std::collections::BTreeMap;

// Gives the name this index, unless it has one.
fn note<'a>(
    firsts: &mut BTreeMap<&'a [u8], usize>,
    name: &'a [u8],
    index: usize,
) -> Result<(), AllocError>
    ensures { OnOk result ((q : List ℕ) → first_in firsts.new q
        ≡ first_of (first_in firsts.old q) (bytes_eq q name.now) index) }
{
    if !firsts.contains_key(name) {
        firsts.insert(name, index)?;
    }
    Ok(())
}

// The index of the first that is each name.
fn firsts<'a>(alloc: Global, names: &'a [Vec<u8>]) -> Result<BTreeMap<&'a [u8], usize>, AllocError>
    ensures { IfOk result (λ firsts. (q : List ℕ) →
        first_in firsts q ≡ words.first_same (map (λ name. name.items) names.entry.now) q) }
{
    let mut firsts = BTreeMap::new(alloc);
    for (index, name) in names.iter().enumerate() {
        note(&mut firsts, name.as_slice(), index)?;
    }
    Ok(firsts)
}

// The index that the map has for a name.
fn find(firsts: &BTreeMap<&[u8], usize>, name: &[u8]) -> Option<usize>
    ensures { result ≡ first_in firsts.now name.now }
{
    firsts.get(name).copied()
}

/// Each name that is one before it, with the first that it is.
///
/// # Errors
/// `AllocError` where memory runs out.
pub(crate) fn same_names(alloc: Global, names: &[Vec<u8>]) -> Result<Vec<Clash>, AllocError>
    ensures { IfOk result (λ made. made.items
        ≡ words.same_names (map (λ name. name.items) names.now)) }
{
    let firsts = firsts(alloc, names)?;
    let mut met = Vec::with_capacity(alloc, names.len())?;
    for name in names {
        met.push(find(&firsts, name.as_slice()))?;
    }
    with_earlier(alloc, &met)
}
