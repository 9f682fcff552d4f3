//! Packages that a file sees.

ghost use Rattle.std.specs.Prelude.{◌≡◌, ◌<◌, ◌||◌, ◌&&◌, ◌==◌, ℕ, length, false, IfOk, OnOk};
ghost use Rattle.protox_views.specs.FilesOf.{AreFilesOf, is_file_of};
ghost use Rattle.protox_views.specs.Packages.{is_on_the_way};
ghost use Rattle.protox_views.specs.Views.{is_marked};

use protox_marks::{FewMarks, Marks};
use protox_symbols::Symbols;
use std::alloc::{AllocError, Global};
use std::marker::Model;

/// The files of each package of a table. For each number of the table, these are the files that are
/// in the package with this number or in one within it.
#[derive(Drop)]
pub struct PackageFiles {
    files: Vec<FewMarks>,
}

// No files, for each number below a count.
fn no_files(alloc: Global, count: usize) -> Result<Vec<FewMarks>, AllocError>
    ensures as_many { IfOk result (λ files. length files.items ≡ count) }
    ensures none { IfOk result (λ files. (n file : ℕ) → is_file_of files.items n file ≡ false) }
{
    let mut files = Vec::with_capacity(alloc, count)?;
    for _ in 0..count {
        files.push(FewMarks::new(alloc))?;
    }
    Ok(files)
}

// Notes a file for its package, and for the packages around it.
fn note(
    symbols: &Symbols,
    files: &mut [FewMarks],
    file: usize,
    whole: Option<usize>,
) -> Result<(), AllocError>
    requires { length files.old ≡ length symbols.now.names.full_names }
    ensures { OnOk result ((n f : ℕ) → n < length files.old → is_file_of files.new n f
        ≡ (is_file_of files.old n f || ((f == file) && is_on_the_way symbols.now.names n whole))) }
{
    // for the proof: a full name has one number
    let _count = symbols.len();
    let mut place = whole;
    while let Some(number) = place {
        if number >= files.len() {
            break;
        }
        files[number].mark(file)?;
        place = symbols.outer(number);
    }
    Ok(())
}

impl PackageFiles {
    /// The files of each package of a table. `packages` has the number of the package of each file,
    /// in order, and None where a file has none.
    ///
    /// It makes one step for each number of the table. For each file it makes one for its package,
    /// and one for each package around that. It keeps marks for each number of the table.
    ///
    /// # Errors
    /// `AllocError` where memory runs out.
    pub fn of(
        alloc: Global,
        symbols: &Symbols,
        packages: &[Option<usize>],
    ) -> Result<PackageFiles, AllocError>
        ensures { IfOk result (AreFilesOf symbols.now.names packages.now) }
    {
        let mut files = no_files(alloc, symbols.len())?;
        for (file, package) in packages.iter().enumerate() {
            note(symbols, &mut files, file, *package)?;
        }
        Ok(PackageFiles { files })
    }
}

/// The packages that a file sees: those that a file is in that it sees, and the packages around
/// these.
#[derive(Drop)]
pub struct SeenPackages<'a> {
    /// The files of each package.
    pub files: &'a PackageFiles,
    /// The numbers of the files that are seen.
    pub sees: &'a Marks,
}

impl<'a> Model for SeenPackages<'a> {
    ghost use Rattle.std.specs.Prelude.{Bool, List};
    ghost use Rattle.protox_views.specs.FilesOf.{seen_packages};

    ghost Value = { List Bool };

    ghost view = { λ p. seen_packages p.sees.now p.files.now };
}

impl SeenPackages<'_> {
    /// Whether the package with this number is seen. No number past those of the table is.
    ///
    /// It takes no memory. It makes at most one step for each 64 files in a row of which some is in
    /// the package.
    pub fn has(&self, number: usize) -> bool
        ensures { result ≡ is_marked self.now number }
    {
        match self.files.files.get(number) {
            Some(few) => self.sees.meets(few),
            None => false,
        }
    }
}
