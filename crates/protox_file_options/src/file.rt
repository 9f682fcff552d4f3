//! All options messages of a file.

ghost use Rattle.std.specs.Prelude.{IfOk};
ghost use Rattle.protox_file_options.specs.Interpreted.{IsInterpreted};

use crate::answer::InterpretedFile;
use crate::interpreter::Interpreter;
use crate::walking::walk_places;
use protox_descriptor::descriptor::FileDescriptorProto;
use protox_encode_linked::OptionBytes;
use protox_views::View;
use std::alloc::{AllocError, Global};

/// What the statements of a file set: bytes for each of its options messages, or what is wrong.
///
/// `view` is what the file sees of a table. `files` are the linked files of the table, and `file`
/// is one of them. Statements stand in the options of declarations, of extension ranges and of the
/// file as a whole. Those of one options message are read together, by `interpret`. If one of them
/// is wrong, the options message gets a fault and no bytes. The others get their bytes, and each of
/// their statements a move, which `move_locations` makes in the locations of the file.
///
/// It walks the file once. What has no statements costs no look-up and no memory.
///
/// # Errors
/// `AllocError` where memory runs out, or where a list has more than 2,147,483,648 parts: no path
/// can count them.
///
/// ```
/// let interpreted = interpret_file(alloc, &view, files, file)?;
/// let bytes = encode_linked(alloc, file, &interpreted.options)?;
/// ```
pub fn interpret_file(
    alloc: Global,
    view: &View<'_>,
    files: &[FileDescriptorProto],
    file: &FileDescriptorProto,
) -> Result<InterpretedFile, AllocError>
    ensures interpreted { IfOk result (IsInterpreted view.now files.now file.now) }
{
    let interpreter = Interpreter {
        alloc,
        view,
        files,
        answer: InterpretedFile {
            options: OptionBytes::new(alloc),
            moves: Vec::new(alloc),
            faults: Vec::new(alloc),
        },
    };
    match walk_places(alloc, file, interpreter) {
        Ok(interpreter) => Ok(interpreter.answer),
        Err(error) => Err(error),
    }
}
