//! What is wrong with the imports of a file.

ghost use Rattle.std.specs.Prelude.{◌≡◌, ◌<◌, ◌++◌, ◌==◌, ◌∷◌, [], ℕ, pos, Some, false, length, slice_index_or};
ghost use Rattle.std.specs.Prelude.{List, Contains, IfSome, OnOk, option_to_list};
ghost use Rattle.std.specs.List.{list_any};
ghost use Rattle.protox_link_checks.specs.Imports.{import_faults, wrong_import};
ghost use Rattle.protox_link_checks.specs.Uses.{faults_at};

use crate::each::path_to;
use protox_descriptor::tag::file::DEPENDENCY;
use protox_link_fault::{LinkFault, LinkFaultKind};
use protox_marks::Marks;
use std::alloc::{AllocError, Global};

// What is wrong with an import of the file with this number. The files of earlier imports are
// marked, and then that file is too.
fn wrong_import(marks: &mut Marks, named: Option<usize>) -> Option<LinkFaultKind>
    requires { IfSome named (λ n. n < length marks.old) }
    ensures as_many { length marks.new ≡ length marks.old }
    ensures wrong { (earlier : List ℕ) → ((n : ℕ) → n < length marks.old → slice_index_or marks.old n false ≡ list_any (λ e. e == n) earlier)
        → option_to_list result ≡ wrong_import earlier named }
    ensures marked { (earlier : List ℕ) → ((n : ℕ) → n < length marks.old → slice_index_or marks.old n false ≡ list_any (λ e. e == n) earlier)
        → (n : ℕ) → n < length marks.old → slice_index_or marks.new n false ≡ list_any (λ e. e == n) (option_to_list named ++ earlier) }
{
    let Some(number) = named else {
        return Some(LinkFaultKind::MissingImport);
    };
    if marks.has(number) {
        return Some(LinkFaultKind::RepeatedImport);
    }
    marks.mark(number);
    None
}

// Adds the fault of an import, if there is one.
fn add_at_import(
    alloc: Global,
    file: usize,
    index: usize,
    kind: Option<LinkFaultKind>,
    faults: &mut Vec<LinkFault>,
) -> Result<(), AllocError>
    ensures { OnOk result (faults.new.items ≡ faults.old.items
        ++ faults_at file (DEPENDENCY ∷ []) (pos index) (option_to_list kind)) }
{
    let Some(kind) = kind else {
        return Ok(());
    };
    let path = path_to(alloc, &[], DEPENDENCY, index)?;
    if faults.push(LinkFault { file, path, kind }).is_err() {
        return Err(AllocError);
    }
    Ok(())
}

/// Adds what is wrong with the imports of a file: for each import, `named` has the number of the
/// first file with its name, if any file has it. There are `count` files.
///
/// # Errors
/// `AllocError` where memory runs out, or where there are more than 2,147,483,648 imports.
pub(crate) fn check_imports(
    alloc: Global,
    count: usize,
    file: usize,
    named: &[Option<usize>],
    faults: &mut Vec<LinkFault>,
) -> Result<(), AllocError>
    requires { (n : ℕ) → Contains named.now (Some n) → n < count }
    ensures { OnOk result (faults.new.items ≡ faults.old.items ++ import_faults file named.now) }
{
    let mut marks = Marks::new(alloc, count)?;
    for (index, import) in named.iter().enumerate() {
        let kind = wrong_import(&mut marks, *import);
        add_at_import(alloc, file, index, kind, faults)?;
    }
    Ok(())
}
