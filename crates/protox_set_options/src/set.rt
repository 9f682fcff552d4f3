//! The options of all files of a set.

ghost use Rattle.std.specs.Prelude.{IfOk};
ghost use Rattle.protox_link.specs.Known.{IsKnownOf};
ghost use Rattle.protox_set_options.specs.Read.{AreInterpreted, IsInterpretedIn};
ghost use Rattle.protox_set_options.specs.ReadBack.{AreReadBack};

use protox_descriptor::descriptor::FileDescriptorProto;
use protox_file_options::{InterpretedFile, interpret_file};
use protox_link::Resolver;
use std::alloc::{AllocError, Global};

// What the options of a file set, which has this number among the files.
fn interpret_numbered(
    alloc: Global,
    resolver: &Resolver,
    files: &[FileDescriptorProto],
    number: usize,
    file: &FileDescriptorProto,
) -> Result<InterpretedFile, AllocError>
    ensures { IsKnownOf files.now resolver.now
        → IfOk result (IsInterpretedIn files.now number file.now) }
{
    let Some(names) = resolver.file(alloc, number)? else {
        return Err(AllocError);
    };
    let view = names.view();
    interpret_file(alloc, &view, files, file)
}

/// What the options of linked files set, file by file, or what is wrong with them.
///
/// The files are those of a linked set (`LinkedSet::files`), in which each options message has its
/// type: one of them has to be protobuf's descriptor.proto. Else each options message with a statement
/// has the fault `NoType`. The answer has the files' order. `encode_linked` writes a file with what its
/// options set, and `move_locations` gives its locations the paths of the options.
///
/// # Errors
/// `AllocError` where memory runs out, or where a list has more than 2,147,483,648 parts: no path can
/// count them.
///
/// ```
/// let set = link(alloc, files)?;
/// let read = interpret_set(alloc, set.files.as_slice())?;
/// for (file, options) in set.files.iter().zip(read.iter()) {
///     let bytes = encode_linked(alloc, file, &options.options)?;
/// }
/// ```
pub fn interpret_set(
    alloc: Global,
    files: &[FileDescriptorProto],
) -> Result<Vec<InterpretedFile>, AllocError>
    ensures interpreted { IfOk result (λ read. AreInterpreted files.now read.items) }
    // Where nothing is wrong with a file's options, what its statements say is found in the bytes,
    // and nothing else.
    ensures reads_back { IfOk result (λ read. AreReadBack files.now read.items) }
{
    let resolver = Resolver::new(alloc, files)?;
    let mut all = Vec::with_capacity(alloc, files.len())?;
    for (number, file) in files.iter().enumerate() {
        all.push(interpret_numbered(alloc, &resolver, files, number, file)?)?;
    }
    Ok(all)
}
