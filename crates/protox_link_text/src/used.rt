//! What is told of names that stand for nothing.

ghost use Rattle.std.specs.Prelude.{◌≡◌, ◌++◌, IfOk, OnOk, option_map};
ghost use Rattle.protox_link_text.specs.Search.{seen_search};
ghost use Rattle.protox_link_text.specs.Told.{not_defined, not_imported, not_inside};
ghost use Rattle.protox_names.specs.Names as names;

use crate::LinkError;
use crate::lists::file_name;
use crate::names::{file_of, full_name};
use crate::search::Searched;
use protox_descriptor::descriptor::FileDescriptorProto;
use protox_descriptor::values::Text;
use protox_names::within;
use protox_symbols::Symbols;
use std::alloc::{AllocError, Global};

// Adds what is told of something that the file doesn't see.
fn add_unseen(
    alloc: Global,
    files: &[FileDescriptorProto],
    symbols: &Symbols,
    file: usize,
    unseen: Option<usize>,
    errors: &mut Vec<LinkError>,
) -> Result<(), AllocError>
    ensures { OnOk result (errors.new.items
        ≡ errors.old.items ++ not_imported files.now symbols.now file unseen) }
{
    let Some(number) = unseen else {
        return Ok(());
    };
    let error = LinkError::NotImported {
        name: full_name(alloc, symbols, number)?,
        file: Text::copy(alloc, file_of(files, symbols, number))?,
        user: Text::copy(alloc, file_name(files, file))?,
    };
    errors.push(error)?;
    Ok(())
}

// Adds what is told of a search that ended inside a scope.
fn add_inside(
    alloc: Global,
    name: &str,
    ended: Option<&str>,
    errors: &mut Vec<LinkError>,
) -> Result<(), AllocError>
    ensures { OnOk result (errors.new.items ≡ errors.old.items
        ++ not_inside name.now (option_map (λ scope. names.within scope.now name.now) ended.entry)) }
{
    let Some(scope) = ended else {
        return Ok(());
    };
    let found = within(alloc, scope, name)?;
    let error = LinkError::NotDefinedInside {
        name: Text::copy(alloc, name)?,
        found: Text::from_string(found),
    };
    errors.push(error)?;
    Ok(())
}

/// What is told of a name that stands for nothing, of which the search came upon this.
pub(crate) fn not_defined(
    alloc: Global,
    files: &[FileDescriptorProto],
    symbols: &Symbols,
    file: usize,
    name: &str,
    searched: Searched<'_>,
) -> Result<Vec<LinkError>, AllocError>
    ensures { IfOk result (λ errors. errors.items
        ≡ not_defined files.now symbols.now file name.now (seen_search name.now searched.entry)) }
{
    let mut errors = Vec::new(alloc);
    add_unseen(alloc, files, symbols, file, searched.unseen, &mut errors)?;
    add_inside(alloc, name, searched.ended, &mut errors)?;
    if errors.is_empty() {
        let name = Text::copy(alloc, name)?;
        errors.push(LinkError::NotDefined { name })?;
    }
    Ok(errors)
}
