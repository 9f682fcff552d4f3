//! What is wrong with the imports of a file.

ghost use Rattle.std.specs.Prelude.{◌≡◌, ◌++◌, OnOk};
ghost use Rattle.protox_option_checks.specs.Checks as words;

use crate::adding::path_to;
use crate::site::Site;
use crate::{CheckFault, CheckFaultKind};
use protox_descriptor::tag::file::DEPENDENCY;
use std::alloc::AllocError;

impl Site<'_> {
    // The file of an import, if it is lite.
    fn lite_import(&self, import: Option<usize>) -> Option<usize>
        ensures { result ≡ words.lite_import self.now.marks.now.lite import }
    {
        let found = import?;
        if !self.marks.is_lite(found) {
            return None;
        }
        Some(found)
    }

    // The index of the first import that is lite, and its file.
    fn first_lite(&self, imports: &[Option<usize>]) -> Option<(usize, usize)>
        ensures { result ≡ words.first_lite_from self.now.marks.now.lite 0 imports.now }
    {
        for (index, import) in imports.iter().enumerate() {
            if let Some(found) = self.lite_import(*import) {
                return Some((index, found));
            }
        }
        None
    }

    /// Adds a fault if a file that isn't lite imports one that is.
    pub(crate) fn check_imports(
        &self,
        imports: &[Option<usize>],
        faults: &mut Vec<CheckFault>,
    ) -> Result<(), AllocError>
        ensures { OnOk result (faults.new.items ≡ faults.old.items
            ++ words.import_faults self.now.marks.now.lite self.now.number imports.now) }
    {
        if self.marks.is_lite(self.number) {
            return Ok(());
        }
        let Some((index, found)) = self.first_lite(imports) else {
            return Ok(());
        };
        let file = self.number;
        let path = path_to(self.alloc, &[], DEPENDENCY, index)?;
        let kind = CheckFaultKind::LiteImport(found);
        if faults.push(CheckFault { file, path, kind }).is_err() {
            return Err(AllocError);
        }
        Ok(())
    }
}
