//! What is wrong in a file of proto3 alone.

ghost use Rattle.std.specs.Prelude.{◌≡◌, ◌++◌, ◌∷◌, [], ℕ, List, OnOk};
ghost use Rattle.std.specs.List.{flat_map};
ghost use Rattle.protox_link_checks.specs.Proto3.{alike_fault, alike_faults, enum_in_proto3};
ghost use Rattle.protox_link_checks.specs.Proto3.{extension_faults, faults_of_proto3};
ghost use Rattle.protox_link_checks.specs.Proto3.{first_value_faults, is_proto3, message_in_proto3};
ghost use Rattle.protox_link_checks.specs.Proto3.{proto3_faults};
ghost use Rattle.protox_walk.specs.Declarations.{At, all_in, file_declarations, siblings_at};

use crate::each::path_to;
use crate::empty::Siblings;
use crate::uses::add_fault;
use protox_alike::{fields_alike, values_alike};
use protox_descriptor::descriptor::descriptor_proto::ExtensionRange;
use protox_descriptor::descriptor::{DescriptorProto, EnumDescriptorProto, FileDescriptorProto};
use protox_descriptor::tag::{enum_, enum_value, file, message};
use protox_descriptor::values::Items;
use protox_link_fault::{LinkFault, LinkFaultKind};
use protox_numbers::{Clash, begins_with_zero};
use std::alloc::{AllocError, Global};

/// What declares something that may be wrong in proto3 alone.
pub(crate) trait InProto3 {
    /// What it declares, in the scope of a name and from a path on.
    ghost declares: { Self → List ℕ → At };

    /// Adds what is wrong in proto3 alone with what it declares.
    fn check_in_proto3(
        &self,
        alloc: Global,
        file: usize,
        path: &[i32],
        faults: &mut Vec<LinkFault>,
    ) -> Result<(), AllocError>
        ensures { (full : List ℕ) → OnOk result (faults.new.items ≡ faults.old.items
            ++ flat_map (faults_of_proto3 file) (declares self.now full path.now)) };
}

// Adds what is wrong in proto3 alone with each of like siblings.
fn check_siblings<I: InProto3>(
    alloc: Global,
    file: usize,
    path: &[i32],
    tag: i32,
    siblings: &Items<I>,
    faults: &mut Vec<LinkFault>,
) -> Result<(), AllocError>
    ensures { (full : List ℕ) → OnOk result (faults.new.items ≡ faults.old.items
        ++ flat_map (faults_of_proto3 file)
        (siblings_at path.now tag (all_in I.declares full siblings.now))) }
{
    let elements = siblings.as_slice();
    for (index, sibling) in elements.iter().enumerate() {
        let place = path_to(alloc, path, tag, index)?;
        sibling.check_in_proto3(alloc, file, place.as_slice(), faults)?;
    }
    Ok(())
}

// Adds a fault if the first value of an enum has another number than 0.
fn check_first_value(
    alloc: Global,
    file: usize,
    path: &[i32],
    of: &EnumDescriptorProto,
    faults: &mut Vec<LinkFault>,
) -> Result<(), AllocError>
    ensures { OnOk result (faults.new.items
        ≡ faults.old.items ++ first_value_faults file path.now of.now of.now.value) }
{
    let [_, ..] = of.value.as_slice() else {
        return Ok(());
    };
    if begins_with_zero(of) {
        return Ok(());
    }
    let value = path_to(alloc, path, enum_::VALUE, 0)?;
    let kind = LinkFaultKind::FirstNotZero;
    add_fault(
        alloc,
        file,
        value.as_slice(),
        enum_value::NUMBER,
        kind,
        faults,
    )
}

// Adds a fault if a message has an extension range.
fn check_extension_ranges(
    alloc: Global,
    file: usize,
    path: &[i32],
    ranges: &[ExtensionRange],
    faults: &mut Vec<LinkFault>,
) -> Result<(), AllocError>
    ensures { OnOk result (faults.new.items
        ≡ faults.old.items ++ extension_faults file path.now ranges.now) }
{
    if ranges.is_empty() {
        return Ok(());
    }
    let path = path_to(alloc, path, message::EXTENSION_RANGE, 0)?;
    let kind = LinkFaultKind::ExtensionsInProto3;
    if faults.push(LinkFault { file, path, kind }).is_err() {
        return Err(AllocError);
    }
    Ok(())
}

// Adds the fault of a part whose name is like that of an earlier one.
fn add_alike(
    alloc: Global,
    place: &Siblings<'_>,
    clash: Clash,
    faults: &mut Vec<LinkFault>,
) -> Result<(), AllocError>
    ensures { OnOk result (faults.new.items ≡ faults.old.items
        ++ alike_fault place.now.file place.now.path.now place.now.tag clash ∷ []) }
{
    let path = path_to(alloc, place.path, place.tag, clash.part)?;
    let kind = LinkFaultKind::Alike(clash.with);
    add_fault(
        alloc,
        place.file,
        path.as_slice(),
        message::NAME,
        kind,
        faults,
    )
}

// Adds the faults of all such parts.
fn add_all_alike(
    alloc: Global,
    place: &Siblings<'_>,
    clashes: &[Clash],
    faults: &mut Vec<LinkFault>,
) -> Result<(), AllocError>
    ensures { OnOk result (faults.new.items ≡ faults.old.items
        ++ alike_faults place.now.file place.now.path.now place.now.tag clashes.now) }
{
    for clash in clashes {
        add_alike(alloc, place, *clash, faults)?;
    }
    Ok(())
}

// Adds what is wrong with an enum.
fn check_enum(
    alloc: Global,
    file: usize,
    path: &[i32],
    of: &EnumDescriptorProto,
    faults: &mut Vec<LinkFault>,
) -> Result<(), AllocError>
    ensures { OnOk result (faults.new.items ≡ faults.old.items ++ enum_in_proto3 file path.now of.now) }
{
    check_first_value(alloc, file, path, of, faults)?;
    let tag = enum_::VALUE;
    let place = Siblings { file, path, tag };
    let alike = values_alike(alloc, of)?;
    add_all_alike(alloc, &place, alike.as_slice(), faults)
}

// Adds what is wrong with a message, but for what is in it.
fn check_message(
    alloc: Global,
    file: usize,
    path: &[i32],
    of: &DescriptorProto,
    faults: &mut Vec<LinkFault>,
) -> Result<(), AllocError>
    ensures { OnOk result (faults.new.items ≡ faults.old.items ++ message_in_proto3 file path.now of.now) }
{
    check_extension_ranges(alloc, file, path, of.extension_range.as_slice(), faults)?;
    let tag = message::FIELD;
    let place = Siblings { file, path, tag };
    let alike = fields_alike(alloc, of)?;
    add_all_alike(alloc, &place, alike.as_slice(), faults)
}

impl InProto3 for EnumDescriptorProto {
    ghost use Rattle.protox_walk.specs.Declarations.{enum_at};

    ghost declares = { enum_at };

    fn check_in_proto3(
        &self,
        alloc: Global,
        file: usize,
        path: &[i32],
        faults: &mut Vec<LinkFault>,
    ) -> Result<(), AllocError> {
        check_enum(alloc, file, path, self, faults)
    }
}

impl InProto3 for DescriptorProto {
    ghost use Rattle.protox_walk.specs.Declarations.{message_at};

    ghost declares = { message_at };

    fn check_in_proto3(
        &self,
        alloc: Global,
        file: usize,
        path: &[i32],
        faults: &mut Vec<LinkFault>,
    ) -> Result<(), AllocError> {
        let (messages, enums) = (&self.nested_type, &self.enum_type);
        check_message(alloc, file, path, self, faults)?;
        check_siblings(alloc, file, path, message::NESTED_TYPE, messages, faults)?;
        check_siblings(alloc, file, path, message::ENUM_TYPE, enums, faults)
    }
}

pub(crate) fn is_proto3(file: &FileDescriptorProto) -> bool
    ensures { result ≡ is_proto3 file.now }
{
    match &file.syntax {
        Some(syntax) => syntax.as_str() == "proto3",
        None => false,
    }
}

/// Adds what is wrong in a file of proto3 alone: an enum whose first value has another number than 0,
/// a message that has an extension range, and fields and values whose names are alike.
///
/// # Errors
/// `AllocError` where memory runs out. Some faults may have been added then.
pub(crate) fn check_proto3(
    alloc: Global,
    number: usize,
    of: &FileDescriptorProto,
    faults: &mut Vec<LinkFault>,
) -> Result<(), AllocError>
    ensures { OnOk result (faults.new.items ≡ faults.old.items ++ proto3_faults number of.now) }
{
    if !is_proto3(of) {
        return Ok(());
    }
    let (messages, enums) = (&of.message_type, &of.enum_type);
    check_siblings(alloc, number, &[], file::MESSAGE_TYPE, messages, faults)?;
    check_siblings(alloc, number, &[], file::ENUM_TYPE, enums, faults)
}
