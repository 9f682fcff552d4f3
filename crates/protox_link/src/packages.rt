//! The packages of a list of files.

ghost use Rattle.std.specs.Prelude.{◌≡◌, IfOk};
ghost use Rattle.std.specs.Option.{option_copied};
ghost use Rattle.protox_link.specs.Seen.{packages_of};
ghost use Rattle.protox_walk.specs.Declarations.{text_of};

use protox_descriptor::descriptor::FileDescriptorProto;
use protox_descriptor::values::Text;
use protox_symbols::Symbols;
use std::alloc::{AllocError, Global};

/// The text of a name; the empty one where the name is not set.
pub(crate) fn text_of(name: Option<&Text>) -> &str
    ensures { result.now ≡ text_of (option_copied name.entry) }
{
    match name {
        Some(name) => name.as_str(),
        None => "",
    }
}

/// The number of the package of each file, in order. None where a file has none.
///
/// # Errors
/// `AllocError` where memory runs out.
pub(crate) fn packages_of(
    alloc: Global,
    symbols: &Symbols,
    files: &[FileDescriptorProto],
) -> Result<Vec<Option<usize>>, AllocError>
    ensures { IfOk result (λ made. made.items ≡ packages_of symbols.now files.now) }
{
    let mut made = Vec::new(alloc);
    for file in files {
        let package = text_of(file.package.as_ref());
        made.push(symbols.find(None, package))?;
    }
    Ok(made)
}
