//! What is wrong with the names of a file.

ghost use Rattle.std.specs.Prelude.{◌≡◌, ◌<◌, ◌++◌, ℕ, Some, length, Contains, OnOk};
ghost use Rattle.protox_link_checks.specs.Faults.{all_declared_faults};
ghost use Rattle.protox_link_checks.specs.File.{file_faults};

use crate::each::check_each;
use crate::file_view::FileView;
use crate::imports::check_imports;
use crate::name::{inside, text_of};
use crate::package::check_package;
use crate::proto3::check_proto3;
use protox_descriptor::descriptor::FileDescriptorProto;
use protox_descriptor::tag::file::{ENUM_TYPE, EXTENSION, MESSAGE_TYPE, SERVICE};
use protox_link_fault::LinkFault;
use protox_views::View;
use std::alloc::{AllocError, Global};

// A guess at the number of the first name that a file declares: what is in a package has numbers
// behind that of the package.
fn first_guess(scope: Option<Option<usize>>) -> usize {
    match scope {
        Some(Some(package)) => package.saturating_add(1),
        _ => 0,
    }
}

/// Adds what is wrong with the names that a file declares, and with those that it uses: of types, of
/// what is extended, and of what methods take and give. The faults are in the order of the file's
/// declarations.
///
/// It makes no full name, so a scope with a long name costs no more than another.
///
/// # Errors
/// `AllocError` where memory runs out, or where a list has more than 2,147,483,648 parts: no path
/// can count them. Some faults may have been added then.
pub fn check_names(
    alloc: Global,
    view: &View<'_>,
    number: usize,
    file: &FileDescriptorProto,
    faults: &mut Vec<LinkFault>,
) -> Result<(), AllocError>
    ensures { OnOk result (faults.new.items ≡ faults.old.items
        ++ all_declared_faults view.now.symbols.now view.now.sees.now view.now.packages number
        file.now) }
{
    let of = FileView { view, number };
    let scope = inside(view, Some(None), file.package.as_ref(), 0);
    let mut guess = first_guess(scope);
    let near = &mut guess;
    let messages = &file.message_type;
    let enums = &file.enum_type;
    let services = &file.service;
    let extensions = &file.extension;
    check_each(alloc, &of, scope, &[], MESSAGE_TYPE, messages, near, faults)?;
    check_each(alloc, &of, scope, &[], ENUM_TYPE, enums, near, faults)?;
    check_each(alloc, &of, scope, &[], SERVICE, services, near, faults)?;
    check_each(alloc, &of, scope, &[], EXTENSION, extensions, near, faults)
}

/// Adds all that is wrong with a file of a set: with its imports, its package, and the names that it
/// declares and uses, and then what is wrong in proto3 alone. `imports` has the number of the first
/// file with the name of each import, if any file has it.
///
/// # Errors
/// `AllocError` where memory runs out, or where a list has more than 2,147,483,648 parts: no path
/// can count them. Some faults may have been added then.
pub fn check_file(
    alloc: Global,
    view: &View<'_>,
    imports: &[Option<usize>],
    number: usize,
    file: &FileDescriptorProto,
    faults: &mut Vec<LinkFault>,
) -> Result<(), AllocError>
    requires { (n : ℕ) → Contains imports.now (Some n) → n < length view.now.sees.now }
    ensures { OnOk result (faults.new.items ≡ faults.old.items
        ++ file_faults view.now.symbols.now view.now.sees.now view.now.packages number
        imports.now file.now) }
{
    check_imports(alloc, view.sees.len(), number, imports, faults)?;
    let package = text_of(file.package.as_ref());
    check_package(alloc, view.symbols, number, package, faults)?;
    check_names(alloc, view, number, file, faults)?;
    check_proto3(alloc, number, file, faults)
}
