//! What is wrong with a message or an enum, but for what is in it.

ghost use Rattle.std.specs.Prelude.{◌≡◌, ◌++◌, ℕ, List, OnOk};
ghost use Rattle.protox_descriptor.specs.declared.descriptor.DescriptorProto.{out-DescriptorProto};
ghost use Rattle.protox_link_checks.specs.Faults.{declared_faults};
ghost use Rattle.protox_symbols.specs.Scopes.{IsFoundScope};
ghost use Rattle.protox_walk.specs.Declarations.{declared, full_name};
ghost use Rattle.protox_walk.specs.Parts.{Enum, Message};

use crate::file_view::FileView;
use crate::name::check_name;
use crate::numbers::{check_enum_numbers, check_numbers};
use crate::reserved::{check_enum_names, check_message_names};
use protox_descriptor::descriptor::{DescriptorProto, EnumDescriptorProto};
use protox_link_fault::LinkFault;
use std::alloc::{AllocError, Global};

/// Adds what is wrong with a message, but for what is in it.
pub(crate) fn check_message_itself(
    alloc: Global,
    of: &FileView<'_>,
    scope: Option<Option<usize>>,
    path: &[i32],
    message: &DescriptorProto,
    near: &mut usize,
    faults: &mut Vec<LinkFault>,
) -> Result<(), AllocError>
    ensures { (full : List ℕ) → IsFoundScope of.now.view.now.symbols.now full scope
        → OnOk result (faults.new.items ≡ faults.old.items
        ++ declared_faults of.now.view.now.symbols.now of.now.view.now.sees.now
        of.now.view.now.packages of.now.number (declared path.now
        (full_name full (out-DescriptorProto message.now).name) (Message message.now))) }
{
    let name = message.name.as_ref();
    let Some(_) = check_name(alloc, of, scope, path, name, near, faults)? else {
        return Ok(());
    };
    check_numbers(alloc, of.number, path, message, faults)?;
    check_message_names(alloc, of.number, path, message, faults)
}

/// Adds what is wrong with an enum, but for its values.
pub(crate) fn check_enum_itself(
    alloc: Global,
    of: &FileView<'_>,
    scope: Option<Option<usize>>,
    path: &[i32],
    enum_: &EnumDescriptorProto,
    near: &mut usize,
    faults: &mut Vec<LinkFault>,
) -> Result<(), AllocError>
    ensures { (full : List ℕ) → IsFoundScope of.now.view.now.symbols.now full scope
        → OnOk result (faults.new.items ≡ faults.old.items
        ++ declared_faults of.now.view.now.symbols.now of.now.view.now.sees.now
        of.now.view.now.packages of.now.number (declared path.now
        (full_name full enum_.now.name) (Enum enum_.now))) }
{
    let name = enum_.name.as_ref();
    let Some(_) = check_name(alloc, of, scope, path, name, near, faults)? else {
        return Ok(());
    };
    check_enum_numbers(alloc, of.number, path, enum_, faults)?;
    check_enum_names(alloc, of.number, path, enum_, faults)
}
