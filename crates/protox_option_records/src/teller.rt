//! The records of what is wrong with the options of a file.

ghost use Rattle.std.specs.Prelude.{◌≡◌, IfOk};
ghost use Rattle.protox_file_options.specs.Interpreted.{IsInterpreted};
ghost use Rattle.protox_file_options.specs.declared.answer.InterpretedFile.{InterpretedFile};
ghost use Rattle.protox_option_records.specs.OptionRecords.{AreRecordsAt};
ghost use Rattle.protox_option_records.specs.inner.Telling.{Tells};

use crate::record::{Subject, push_fault};
use protox_descriptor::descriptor::UninterpretedOption;
use protox_file_options::{OptionsFault, TakePlaces, walk_places};
use std::alloc::{AllocError, Global};

// Tells each fault of a file when it comes to its place.
#[derive(Drop)]
pub(crate) struct Teller<'a> {
    alloc: Global,
    subject: &'a Subject<'a>,
    // In the order of their places.
    faults: &'a [OptionsFault],
    // How many of them are told.
    told: usize,
    out: Vec<u8>,
}

impl TakePlaces for Teller<'_> {
    ghost takes = { λ old place new. Tells old place new };

    fn take(
        &mut self,
        path: &[i32],
        _scope: &str,
        _options: &str,
        statements: &[UninterpretedOption],
    ) -> Result<(), AllocError> {
        let faults = self.faults;
        let Some(fault) = faults.get(self.told) else {
            return Ok(());
        };
        if fault.path.as_slice() != path {
            return Ok(());
        }
        self.told += 1;
        push_fault(
            self.alloc,
            &mut self.out,
            self.subject,
            path,
            statements,
            fault,
        )
    }
}

/// The records of the faults of a file, in order. The faults are those that interpreting it found.
///
/// # Errors
/// `AllocError` where memory runs out, or where a list has more than 2,147,483,648 parts.
pub(crate) fn fault_records(
    alloc: Global,
    subject: &Subject<'_>,
    faults: &[OptionsFault],
) -> Result<Vec<u8>, AllocError>
    ensures { (answer : InterpretedFile) (is : IsInterpreted subject.now.view subject.now.files subject.now.file answer)
        → faults.now ≡ answer.faults.items → IfOk result (λ told. AreRecordsAt subject.now is.taken told.items) }
{
    let teller = Teller {
        alloc,
        subject,
        faults,
        told: 0,
        out: Vec::new(alloc),
    };
    match walk_places(alloc, subject.file, teller) {
        Ok(teller) => Ok(teller.out),
        Err(error) => Err(error),
    }
}
