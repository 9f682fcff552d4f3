//! Ranges without numbers.

ghost use Rattle.std.specs.Prelude.{◌≡◌, ◌++◌, Bool, OnOk, if◌then◌else◌, ◌∷◌, []};
ghost use Rattle.protox_link_checks.specs.Empty.{empty_fault, empty_faults};

use crate::each::path_to;
use protox_descriptor::descriptor::descriptor_proto::ExtensionRange;
use protox_descriptor::descriptor::enum_descriptor_proto::EnumReservedRange;
use protox_link_fault::{LinkFault, LinkFaultKind};
use protox_numbers::{is_backward_enum_range, is_empty_extension_range};
use std::alloc::{AllocError, Global};

/// What may be a range without numbers.
pub(crate) trait MayBeEmpty {
    /// Whether it has no number.
    ghost is_empty_range: { Self → Bool };

    /// Whether it has no number.
    fn is_empty_range(&self) -> bool
        ensures { result ≡ is_empty_range self.now };
}

impl MayBeEmpty for ExtensionRange {
    ghost use Rattle.protox_numbers.specs.Parts.{is_empty_extension_range};

    ghost is_empty_range = { is_empty_extension_range };

    fn is_empty_range(&self) -> bool {
        is_empty_extension_range(self)
    }
}

impl MayBeEmpty for EnumReservedRange {
    ghost use Rattle.protox_numbers.specs.Parts.{is_backward_enum_range};

    ghost is_empty_range = { is_backward_enum_range };

    fn is_empty_range(&self) -> bool {
        is_backward_enum_range(self)
    }
}

/// Where ranges are: like siblings of a file, in what has a path.
#[derive(Drop)]
pub(crate) struct Siblings<'a> {
    pub(crate) file: usize,
    pub(crate) path: &'a [i32],
    pub(crate) tag: i32,
}

// Adds the fault of the range with an index, if it has no number.
fn add_if_empty(
    alloc: Global,
    place: &Siblings<'_>,
    is_empty: bool,
    index: usize,
    faults: &mut Vec<LinkFault>,
) -> Result<(), AllocError>
    ensures { OnOk result (faults.new.items ≡ faults.old.items ++ (if is_empty then
        empty_fault place.now.file place.now.path.now place.now.tag index ∷ [] else [])) }
{
    if !is_empty {
        return Ok(());
    }
    let path = path_to(alloc, place.path, place.tag, index)?;
    let kind = LinkFaultKind::EmptyRange;
    let file = place.file;
    if faults.push(LinkFault { file, path, kind }).is_err() {
        return Err(AllocError);
    }
    Ok(())
}

/// Adds a fault for each range that has no number.
pub(crate) fn check_empty<R: MayBeEmpty>(
    alloc: Global,
    place: &Siblings<'_>,
    ranges: &[R],
    faults: &mut Vec<LinkFault>,
) -> Result<(), AllocError>
    ensures { OnOk result (faults.new.items ≡ faults.old.items ++ empty_faults place.now.file
        place.now.path.now place.now.tag R.is_empty_range 0 ranges.now) }
{
    for (index, range) in ranges.iter().enumerate() {
        add_if_empty(alloc, place, range.is_empty_range(), index, faults)?;
    }
    Ok(())
}
