//! The numbers of files by their names: a map that is sorted by name, so that finding a name takes
//! a number of comparisons in line with the logarithm of the number of files.

ghost use Rattle.std.specs.Prelude.{◌≡◌, ℕ, List, IfOk, OnOk, bytes_eq};
ghost use Rattle.protox_imports.specs.Names.{number_of};
ghost use Rattle.protox_imports.specs.inner.Numbers.{number_in, first_of};

use protox_descriptor::descriptor::FileDescriptorProto;
use std::alloc::{AllocError, Global};
use std::collections::BTreeMap;

// Gives the name this number, unless it has one.
fn note<'a>(
    numbers: &mut BTreeMap<&'a str, usize>,
    name: &'a str,
    number: usize,
) -> Result<(), AllocError>
    ensures { OnOk result ((q : List ℕ) → number_in numbers.new q ≡
        first_of (number_in numbers.old q) (bytes_eq name.now q) number) }
{
    if !numbers.contains_key(name) {
        numbers.insert(name, number)?;
    }
    Ok(())
}

// The number of the first file with each name.
pub fn by_name<'a>(
    alloc: Global,
    files: &'a [FileDescriptorProto],
) -> Result<BTreeMap<&'a str, usize>, AllocError>
    ensures { IfOk result (λ numbers. (q : List ℕ) →
        number_in numbers q ≡ number_of files.entry.now q) }
{
    let mut numbers = BTreeMap::new(alloc);
    for (number, file) in files.iter().enumerate() {
        if let Some(name) = &file.name {
            note(&mut numbers, name.as_str(), number)?;
        }
    }
    Ok(numbers)
}

// The number that the map has for a name.
pub fn find(numbers: &BTreeMap<&str, usize>, name: &str) -> Option<usize>
    ensures { result ≡ number_in numbers.now name.now }
{
    numbers.get(name).copied()
}
