ghost use Rattle.std.specs.Prelude.{◌≡◌, ◌↔◌, Some, None, IsTrue, slice_get};

use protox_descriptor::values::Items;

/// What one file imports. A file is named by its number: its index in the list of files.
#[derive(Drop)]
pub struct FileImports {
    /// For each import of the file, in order: the first file with its name, or None if no file of
    /// the list has that name.
    pub named: Items<Option<usize>>,
    /// The files that it imports publicly, in the order of `public_dependency`. An index there that
    /// is not the index of an import, or of one that no file has the name of, is left out.
    pub public: Items<usize>,
}

impl FileImports {
    /// Whether no file of the list has the name of the import with this index. False at or after
    /// the end of the imports.
    pub fn is_missing(&self, import: usize) -> bool
        ensures { IsTrue result ↔ (slice_get self.now.named import ≡ Some None) }
    {
        match self.named.get(import) {
            Some(named) => named.is_none(),
            None => false,
        }
    }
}
