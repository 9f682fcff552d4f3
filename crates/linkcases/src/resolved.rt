//! Names resolved one by one, beside what linking made of them.

use protox_descriptor::descriptor::FileDescriptorProto;
use protox_descriptor::values::Text;
use protox_link::{FileNames, LinkedSet, Resolver};
use protox_scopes::Wanted;
use protox_walk::{Declaration, Part, declarations};
use std::alloc::{AllocError, Global};
use std::io::{self, Write};

// How many names were resolved as linking did, and how many otherwise.
#[derive(Drop)]
struct Tally {
    alike: usize,
    otherwise: usize,
}

// Resolves a name as it was written, if there is one, and counts whether it is the linked one.
fn count_name(
    alloc: Global,
    names: &FileNames<'_>,
    wanted: Wanted,
    user: &Text,
    written: Option<&Text>,
    linked: Option<&Text>,
    tally: &mut Tally,
) -> Result<(), AllocError> {
    let (Some(written), Some(linked)) = (written, linked) else {
        return Ok(());
    };
    let alike = match names.resolve(wanted, written.as_str(), user.as_str()) {
        Some(number) => names.symbols.dotted(alloc, number)?.as_str() == linked.as_str(),
        None => false,
    };
    if alike {
        tally.alike = tally.alike.saturating_add(1);
    } else {
        tally.otherwise = tally.otherwise.saturating_add(1);
    }
    Ok(())
}

// The names that a declaration uses.
fn count_names(
    alloc: Global,
    names: &FileNames<'_>,
    before: &Declaration<'_>,
    after: &Declaration<'_>,
    tally: &mut Tally,
) -> Result<(), AllocError> {
    let user = &before.full_name;
    if let (Part::Field(field), Part::Field(linked)) = (before.part, after.part) {
        let (written, made) = (field.type_name.as_ref(), linked.type_name.as_ref());
        count_name(alloc, names, Wanted::AType, user, written, made, tally)?;
        let (written, made) = (field.extendee(), linked.extendee());
        count_name(alloc, names, Wanted::Anything, user, written, made, tally)?;
    }
    if let (Part::Method(method), Part::Method(linked)) = (before.part, after.part) {
        let (written, made) = (method.input_type.as_ref(), linked.input_type.as_ref());
        count_name(alloc, names, Wanted::Anything, user, written, made, tally)?;
        let (written, made) = (method.output_type.as_ref(), linked.output_type.as_ref());
        count_name(alloc, names, Wanted::Anything, user, written, made, tally)?;
    }
    Ok(())
}

fn count_file(
    alloc: Global,
    names: &FileNames<'_>,
    before: &FileDescriptorProto,
    after: &FileDescriptorProto,
    tally: &mut Tally,
) -> Result<(), AllocError> {
    let before = declarations(alloc, before)?;
    let after = declarations(alloc, after)?;
    for (before, after) in before.iter().zip(after.iter()) {
        count_names(alloc, names, before, after, tally)?;
    }
    Ok(())
}

/// Writes how many names of these files stand for what the linked set says, asked one by one.
pub(crate) fn write_resolved<W: Write>(
    alloc: Global,
    out: &mut W,
    resolver: &Resolver,
    files: &[FileDescriptorProto],
    set: &LinkedSet,
) -> io::Result<()> {
    let mut tally = Tally {
        alike: 0,
        otherwise: 0,
    };
    for (number, (before, after)) in files.iter().zip(set.files.iter()).enumerate() {
        if let Some(names) = resolver.file(alloc, number)? {
            count_file(alloc, &names, before, after, &mut tally)?;
        }
    }
    writeln!(
        out,
        "names: {} alike, {} otherwise",
        tally.alike, tally.otherwise
    )
}
