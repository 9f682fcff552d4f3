//! The first file of each package.

ghost use Rattle.std.specs.Prelude.{◌≡◌, ◌<◌, ℕ, Some, None, length, slice_index_or, if◌then◌else◌, IfOk};
ghost use Rattle.std.specs.Option.{option_copied, option_or};
ghost use Rattle.protox_imports.specs.Rows.{rows_of};
ghost use Rattle.protox_symbols.specs.Things.{table_of};
ghost use Rattle.protox_usage.specs.First.{AreFirst, IsOrderOf};
ghost use Rattle.protox_views.specs.Packages.{is_on_the_way};
ghost use Rattle.protox_walk.specs.Declarations.{text_of};

use protox_descriptor::descriptor::FileDescriptorProto;
use protox_descriptor::values::Text;
use protox_imports::{Imports, Order, in_order};
use protox_symbols::Symbols;
use std::alloc::{AllocError, Global};

/// The text of a name; the empty one where the name is not set.
pub(crate) fn text_of(name: Option<&Text>) -> &str
    ensures { result.now ≡ text_of (option_copied name.entry) }
{
    match name {
        Some(name) => name.as_str(),
        None => "",
    }
}

// Notes that a file is in a package, and so in those around it, where no file before it is.
fn note(symbols: &Symbols, first: &mut [Option<usize>], whole: Option<usize>, file: usize)
    requires { length first.old ≡ length symbols.now.names.full_names }
    ensures len { length first.new ≡ length first.old }
    ensures noted { (n : ℕ) → n < length first.old → slice_index_or first.new n None
        ≡ option_or (slice_index_or first.old n None)
        (if is_on_the_way symbols.now.names n whole then Some file else None) }
{
    // for the proof: a full name has one number
    let _count = symbols.len();
    let mut place = whole;
    while let Some(number) = place {
        if number >= first.len() {
            break;
        }
        first[number] = first[number].or(Some(file));
        place = symbols.outer(number);
    }
}

// Notes the first file of each package, file by file in an order.
fn note_all(
    files: &[FileDescriptorProto],
    symbols: &Symbols,
    order: &[usize],
    first: &mut [Option<usize>],
)
    requires table { symbols.now ≡ table_of files.now }
    requires as_many { length first.old ≡ length symbols.now.names.full_names }
    requires none { (n : ℕ) → slice_index_or first.old n None ≡ None }
    ensures { AreFirst files.now order.now first.new }
{
    for number in order {
        if let Some(file) = files.get(*number) {
            let package = symbols.find(None, text_of(file.package.as_ref()));
            note(symbols, first, package, *number);
        }
    }
}

/// The first file of each package, by the number of the package, in an order of the files.
pub(crate) fn first_files(
    alloc: Global,
    files: &[FileDescriptorProto],
    symbols: &Symbols,
    order: &[usize],
) -> Result<Vec<Option<usize>>, AllocError>
    requires { symbols.now ≡ table_of files.now }
    ensures { IfOk result (λ first. AreFirst files.now order.now first.items) }
{
    let mut first = vec![in alloc; None; symbols.len()]?;
    note_all(files, symbols, order, &mut first);
    Ok(first)
}

/// An order of the files in which each stands behind what it imports; none, where they import one
/// another in a circle.
pub(crate) fn order_of(alloc: Global, imports: &Imports) -> Result<Vec<usize>, AllocError>
    ensures { IfOk result (λ order. IsOrderOf imports.now.files order.items) }
{
    match in_order(alloc, imports)? {
        Order::Sorted(order) => Ok(order),
        Order::Cycle(_) => Ok(Vec::new(alloc)),
    }
}
