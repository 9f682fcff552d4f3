//! What is wrong with the package of a file.

ghost use Rattle.std.specs.Prelude.{◌≡◌, ◌<◌, ◌++◌, [], Some, length, map, option_to_list, OnOk};
ghost use Rattle.protox_link_checks.specs.Imports.{if_no_package, no_packages, outwards};
ghost use Rattle.protox_link_checks.specs.Imports.{package_faults, wrong_length};
ghost use Rattle.protox_link_checks.specs.Uses.{faults_at};
ghost use Rattle.protox_link_fault.specs.declared.LinkFaultKind.TheVariants.{NotAPackage};

use crate::uses::{add_fault, add_if_any};
use protox_descriptor::tag::file::PACKAGE;
use protox_link_fault::{LinkFault, LinkFaultKind};
use protox_scopes::Kind;
use protox_symbols::Symbols;
use std::alloc::{AllocError, Global};

// Adds a fault for what has this number and for each scope around it that is no package, from the
// inside out.
fn check_outwards(
    alloc: Global,
    symbols: &Symbols,
    file: usize,
    number: usize,
    faults: &mut Vec<LinkFault>,
) -> Result<(), AllocError>
    requires { number < length symbols.now.names.full_names }
    ensures { OnOk result (faults.new.items ≡ faults.old.items
        ++ faults_at file [] PACKAGE (map NotAPackage (no_packages symbols.now
        (outwards symbols.now.names (Some number))))) }
{
    // for the proof: a full name has one number
    let _count = symbols.len();
    let mut place = Some(number);
    while let Some(here) = place {
        check_kind(alloc, symbols.kind(here), file, here, faults)?;
        place = symbols.outer(here);
    }
    Ok(())
}

// Adds a fault if what has this number is no package.
fn check_kind(
    alloc: Global,
    kind: Kind,
    file: usize,
    number: usize,
    faults: &mut Vec<LinkFault>,
) -> Result<(), AllocError>
    ensures { OnOk result (faults.new.items ≡ faults.old.items
        ++ faults_at file [] PACKAGE (map NotAPackage (if_no_package kind number))) }
{
    match kind {
        Kind::Package => Ok(()),
        _ => {
            let wrong = LinkFaultKind::NotAPackage(number);
            add_fault(alloc, file, &[], PACKAGE, wrong, faults)
        }
    }
}

// What is wrong with the length of a package's name.
fn wrong_length(name: &str) -> Option<LinkFaultKind>
    ensures { option_to_list result ≡ wrong_length name.now }
{
    if name.len() > 511 {
        return Some(LinkFaultKind::LongPackage);
    }
    let dots = name.as_bytes().iter().filter(|byte| **byte == b'.').count();
    if dots > 100 {
        return Some(LinkFaultKind::DeepPackage);
    }
    None
}

/// Adds what is wrong with the package of a file. Its name is empty if it has none.
///
/// # Errors
/// `AllocError` where memory runs out.
pub(crate) fn check_package(
    alloc: Global,
    symbols: &Symbols,
    file: usize,
    name: &str,
    faults: &mut Vec<LinkFault>,
) -> Result<(), AllocError>
    ensures { OnOk result (faults.new.items
        ≡ faults.old.items ++ package_faults symbols.now file name.now) }
{
    if name.is_empty() {
        return Ok(());
    }
    add_if_any(alloc, file, &[], PACKAGE, wrong_length(name), faults)?;
    // for the proof: what is found under a name has it
    let _count = symbols.len();
    let Some(number) = symbols.find(None, name) else {
        return add_fault(alloc, file, &[], PACKAGE, LinkFaultKind::BadName, faults);
    };
    check_outwards(alloc, symbols, file, number, faults)
}
