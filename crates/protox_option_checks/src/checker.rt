//! The declarations of a file, one after another.

ghost use Rattle.std.specs.Prelude.{◌≡◌, ◌++◌, OnOk};
ghost use Rattle.protox_option_checks.specs.Parts.{declared_faults, part_faults};
ghost use Rattle.protox_option_checks.specs.inner.Added.{Adds};
ghost use Rattle.protox_walk.specs.Parts.{part_of};

use crate::CheckFault;
use crate::site::Site;
use protox_walk::{Part, Visit};
use std::alloc::AllocError;

impl Site<'_> {
    // Adds what is wrong with a part.
    fn check_part(
        &self,
        path: &[i32],
        full_name: &str,
        part: &Part<'_>,
        faults: &mut Vec<CheckFault>,
    ) -> Result<(), AllocError>
        ensures { OnOk result (faults.new.items ≡ faults.old.items
            ++ part_faults self.now.files.now self.now.symbols.now self.now.marks.now
            self.now.number path.now full_name.now (part_of part.now)) }
    {
        match part {
            Part::Message(message) => self.check_message(path, message, faults),
            Part::Field(field) => self.check_field(path, full_name, field, faults),
            Part::Enum(of) => self.check_values(path, full_name, of, faults),
            Part::Service(_) => self.check_service(path, faults),
            Part::Oneof(_) | Part::Value(_) | Part::Method(_) => Ok(()),
        }
    }
}

/// Gathers what is wrong with the declarations of a file.
#[derive(Drop)]
pub(crate) struct Checker<'a> {
    pub(crate) site: &'a Site<'a>,
    pub(crate) faults: Vec<CheckFault>,
}

impl<'a> Visit<'a> for Checker<'_> {
    ghost visits = { λ old one new. Adds old (declared_faults old.site.now.files.now
        old.site.now.symbols.now old.site.now.marks.now old.site.now.number one) new };

    type Error = AllocError;

    fn visit(&mut self, path: &[i32], full_name: &str, part: Part<'a>) -> Result<(), AllocError> {
        self.site
            .check_part(path, full_name, &part, &mut self.faults)
    }
}
