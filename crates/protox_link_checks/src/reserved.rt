//! Names that are reserved.

ghost use Rattle.std.specs.Prelude.{◌≡◌, ◌++◌, ◌||◌, ◌∷◌, [], ℕ, List, map, bytes_eq, if◌then◌else◌, IfOk, OnOk};
ghost use Rattle.std.specs.Option.{option_copied};
ghost use Rattle.protox_link_checks.specs.Reserved.{again_fault, again_faults, is_among, name_faults};
ghost use Rattle.protox_link_checks.specs.Reserved.{enum_name_faults, message_name_faults};
ghost use Rattle.protox_link_checks.specs.Reserved.{reserved_fault, reserved_faults};
ghost use Rattle.protox_link_checks.specs.inner.Sets.{has};
ghost use Rattle.protox_walk.specs.Declarations.{text_of};

use crate::each::path_to;
use crate::empty::Siblings;
use crate::name::text_of;
use crate::uses::add_fault;
use protox_descriptor::descriptor::{
    DescriptorProto, EnumDescriptorProto, EnumValueDescriptorProto, FieldDescriptorProto,
};
use protox_descriptor::tag::{enum_, message};
use protox_descriptor::values::Text;
use protox_link_fault::{LinkFault, LinkFaultKind};
use std::alloc::{AllocError, Global};
use std::collections::BTreeSet;

/// What may have a name that is reserved.
pub(crate) trait Named {
    /// Its name; the empty one where it is not set.
    ghost own_name: { Self → List ℕ };

    /// Its name; the empty one where it is not set.
    fn own_name(&self) -> &str
        ensures { result.now ≡ own_name self.now };
}

impl Named for FieldDescriptorProto {
    ghost use Rattle.protox_link_checks.specs.Reserved.{name_of_field};

    ghost own_name = { name_of_field };

    fn own_name(&self) -> &str {
        text_of(self.name.as_ref())
    }
}

impl Named for EnumValueDescriptorProto {
    ghost use Rattle.protox_link_checks.specs.Reserved.{name_of_value};

    ghost own_name = { name_of_value };

    fn own_name(&self) -> &str {
        text_of(self.name.as_ref())
    }
}

// Adds a name to a set. Answers whether it was there before.
fn add_name<'a>(names: &mut BTreeSet<&'a str>, name: &'a str) -> Result<bool, AllocError>
    ensures was { IfOk result (λ was. was ≡ has names.old name.now) }
    ensures names { OnOk result ((q : List ℕ) →
        has names.new q ≡ (has names.old q || bytes_eq q name.now)) }
{
    let new = names.insert(name)?;
    Ok(!new)
}

// Adds the reserved name with an index to a set, and a fault if it was there before.
fn reserve<'a>(
    alloc: Global,
    place: &Siblings<'_>,
    names: &mut BTreeSet<&'a str>,
    name: &'a str,
    index: usize,
    faults: &mut Vec<LinkFault>,
) -> Result<(), AllocError>
    ensures names { OnOk result ((q : List ℕ) →
        has names.new q ≡ (has names.old q || bytes_eq q name.now)) }
    ensures faults { OnOk result (faults.new.items ≡ faults.old.items ++ (if has names.old name.now
        then again_fault place.now.file place.now.path.now index ∷ [] else [])) }
{
    if !add_name(names, name)? {
        return Ok(());
    }
    let kind = LinkFaultKind::ReservedAgain(index);
    add_fault(alloc, place.file, place.path, message::NAME, kind, faults)
}

// The set of all reserved names. Adds a fault for each that is reserved again.
fn reserve_all<'a>(
    alloc: Global,
    place: &Siblings<'_>,
    reserved: &'a [Text],
    faults: &mut Vec<LinkFault>,
) -> Result<BTreeSet<&'a str>, AllocError>
    ensures names { IfOk result (λ names. (q : List ℕ) →
        has names q ≡ is_among reserved.entry.now q) }
    ensures faults { OnOk result (faults.new.items ≡ faults.old.items
        ++ again_faults place.now.file place.now.path.now [] 0 reserved.entry.now) }
{
    let mut names = BTreeSet::new(alloc);
    for (index, name) in reserved.iter().enumerate() {
        reserve(alloc, place, &mut names, name.as_str(), index, faults)?;
    }
    Ok(names)
}

// Adds a fault if the name of the sibling with an index is reserved.
fn check_own_name(
    alloc: Global,
    place: &Siblings<'_>,
    names: &BTreeSet<&str>,
    name: &str,
    index: usize,
    faults: &mut Vec<LinkFault>,
) -> Result<(), AllocError>
    ensures { OnOk result (faults.new.items ≡ faults.old.items ++ (if has names.now name.now then
        reserved_fault place.now.file place.now.path.now place.now.tag index ∷ [] else [])) }
{
    if !names.contains(name) {
        return Ok(());
    }
    let path = path_to(alloc, place.path, place.tag, index)?;
    let kind = LinkFaultKind::ReservedName;
    add_fault(
        alloc,
        place.file,
        path.as_slice(),
        message::NAME,
        kind,
        faults,
    )
}

// Adds a fault for each sibling whose name is reserved.
fn check_own_names<N: Named>(
    alloc: Global,
    place: &Siblings<'_>,
    names: &BTreeSet<&str>,
    siblings: &[N],
    faults: &mut Vec<LinkFault>,
) -> Result<(), AllocError>
    ensures { OnOk result (faults.new.items ≡ faults.old.items ++ reserved_faults place.now.file
        place.now.path.now place.now.tag (has names.now) 0 (map N.own_name siblings.now)) }
{
    for (index, sibling) in siblings.iter().enumerate() {
        check_own_name(alloc, place, names, sibling.own_name(), index, faults)?;
    }
    Ok(())
}

// Adds a fault for each name that is reserved again, and for each sibling whose name is reserved.
fn check_names<N: Named>(
    alloc: Global,
    place: &Siblings<'_>,
    reserved: &[Text],
    siblings: &[N],
    faults: &mut Vec<LinkFault>,
) -> Result<(), AllocError>
    ensures { OnOk result (faults.new.items ≡ faults.old.items ++ name_faults place.now.file
        place.now.path.now place.now.tag reserved.now (map N.own_name siblings.now)) }
{
    if reserved.is_empty() {
        return Ok(());
    }
    let names = reserve_all(alloc, place, reserved, faults)?;
    check_own_names(alloc, place, &names, siblings, faults)
}

/// Adds what is wrong with the names that a message reserves.
pub(crate) fn check_message_names(
    alloc: Global,
    file: usize,
    path: &[i32],
    of: &DescriptorProto,
    faults: &mut Vec<LinkFault>,
) -> Result<(), AllocError>
    ensures { OnOk result (faults.new.items
        ≡ faults.old.items ++ message_name_faults file path.now of.now) }
{
    let tag = message::FIELD;
    let place = Siblings { file, path, tag };
    let reserved = of.reserved_name.as_slice();
    check_names(alloc, &place, reserved, of.field.as_slice(), faults)
}

/// Adds what is wrong with the names that an enum reserves.
pub(crate) fn check_enum_names(
    alloc: Global,
    file: usize,
    path: &[i32],
    of: &EnumDescriptorProto,
    faults: &mut Vec<LinkFault>,
) -> Result<(), AllocError>
    ensures { OnOk result (faults.new.items
        ≡ faults.old.items ++ enum_name_faults file path.now of.now) }
{
    let tag = enum_::VALUE;
    let place = Siblings { file, path, tag };
    let reserved = of.reserved_name.as_slice();
    check_names(alloc, &place, reserved, of.value.as_slice(), faults)
}
