//! The statements at one place of a file.

ghost use Rattle.std.specs.Prelude.{◌≡◌, ◌++◌, ◌∷◌, [], IfOk, OnOk, map, unsigned_abs};
ghost use Rattle.protox_file_options.specs.inner.Added.{Adds, Keeps};

use crate::answer::{InterpretedFile, OptionsFault, PlaceFault};
use crate::moves::add_moves;
use crate::walking::TakePlaces;
use protox_descriptor::descriptor::{FileDescriptorProto, UninterpretedOption};
use protox_descriptor::values::Numbers;
use protox_interpret::{InterpretFailure, Interpreted, Site, interpret};
use protox_views::View;
use std::alloc::{AllocError, Global};

// Interprets the statements of a file, place by place.
#[derive(Drop)]
pub(crate) struct Interpreter<'a> {
    pub(crate) alloc: Global,
    // What the file sees of the table.
    pub(crate) view: &'a View<'a>,
    // The linked files, those of the table.
    pub(crate) files: &'a [FileDescriptorProto],
    // What is answered of the places so far.
    pub(crate) answer: InterpretedFile,
}

// The path as `OptionBytes` has it. A path has no negative numbers.
fn indices(alloc: Global, path: &[i32]) -> Result<Vec<usize>, AllocError>
    ensures { IfOk result (λ made. made.items ≡ map unsigned_abs path.now) }
{
    let mut made = Vec::with_capacity(alloc, path.len())?;
    for number in path {
        made.push(number.unsigned_abs() as usize)?;
    }
    Ok(made)
}

// Keeps what the statements of the options message at a path set.
fn keep(
    alloc: Global,
    kept: &mut InterpretedFile,
    path: &[i32],
    set: Interpreted,
) -> Result<(), AllocError>
    ensures { OnOk result (Keeps kept.old path.now set kept.new) }
{
    add_moves(alloc, path, set.paths.as_slice(), &mut kept.moves)?;
    let indices = indices(alloc, path)?;
    kept.options.insert(indices, set.bytes)
}

// Notes what is wrong with the options message at a path.
fn note(
    alloc: Global,
    faults: &mut Vec<OptionsFault>,
    path: &[i32],
    scope: Option<usize>,
    message: Option<usize>,
    fault: PlaceFault,
) -> Result<(), AllocError>
    ensures { OnOk result (faults.new.items ≡ faults.old.items
        ++ (record { path = path.now; scope = scope; message = message; fault = fault }) ∷ []) }
{
    let path = Numbers::from_slice(alloc, path)?;
    faults.push(OptionsFault {
        path,
        scope,
        message,
        fault,
    })?;
    Ok(())
}

impl TakePlaces for Interpreter<'_> {
    ghost takes = { λ old place new. Adds old (place ∷ []) new };

    fn take(
        &mut self,
        path: &[i32],
        scope: &str,
        options: &str,
        statements: &[UninterpretedOption],
    ) -> Result<(), AllocError> {
        let scope = self.view.symbols.find(None, scope);
        let Some(message) = self.view.symbols.find(None, options) else {
            let faults = &mut self.answer.faults;
            return note(self.alloc, faults, path, scope, None, PlaceFault::NoType);
        };
        let here = Site {
            view: self.view,
            files: self.files,
            scope,
            message,
        };
        match interpret(self.alloc, here, statements) {
            Ok(set) => keep(self.alloc, &mut self.answer, path, set),
            Err(InterpretFailure::Fault(fault)) => {
                let faults = &mut self.answer.faults;
                let fault = PlaceFault::Statement(fault);
                note(self.alloc, faults, path, scope, Some(message), fault)
            }
            Err(InterpretFailure::OutOfMemory) => Err(AllocError),
        }
    }
}
