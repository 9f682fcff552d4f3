//! The search for the place at which a fault is told.

ghost use Rattle.std.specs.Prelude.{◌≡◌, List, length, All, Contains, IfOk};
ghost use Rattle.std.specs.Option.{option_copied};
ghost use Rattle.protox_link_records.specs.LinkPlaces as found;
ghost use Rattle.protox_link_records.specs.LinkPlaces.{IsSorted};
ghost use Rattle.protox_places.specs.Order.{AreByPath};

use crate::lines::SourceLines;
use crate::places::{Place, no_place, place_of};
use protox_descriptor::descriptor::source_code_info::Location;
use protox_descriptor::descriptor::{FileDescriptorProto, SourceCodeInfo};
use protox_descriptor::tag::file::DEPENDENCY;
use protox_link_fault::{LinkFault, LinkFaultKind};
use protox_places::find::location;
use std::alloc::AllocError;

// The location of the innermost part on the way of a path.
fn nearest<'a>(info: &'a SourceCodeInfo, path: &[i32]) -> Option<&'a Location>
    requires { AreByPath info.now.location }
    ensures { option_copied result ≡ found.nearest path.now (length path.now) info.now.location }
{
    for shorter in 0..path.len() {
        let front = &path[..path.len() - shorter];
        if let Some(found) = location(info, front) {
            return Some(found);
        }
    }
    None
}

// The location of the part of a file that a path leads to, or of the innermost part around it.
fn location_of<'a>(file: &'a FileDescriptorProto, path: &[i32]) -> Option<&'a Location>
    requires { IsSorted file.now }
    ensures { option_copied result ≡ found.location_of file.now path.now }
{
    match &file.source_code_info {
        Some(info) => nearest(info, path),
        None => None,
    }
}

/// The place of the part of a file that a path leads to, or of the innermost part around it that the
/// source writes; four zeros, if it writes none of these. The locations of the file are sorted by
/// path, as those that `parse` answers are.
pub fn place_in(lines: &SourceLines<'_>, file: &FileDescriptorProto, path: &[i32]) -> Place
    requires { IsSorted file.now }
    ensures { result ≡ found.place_in lines.now file.now path.now }
{
    place_of(lines, location_of(file, path))
}

// The index of the import of this name.
fn index_of(file: &FileDescriptorProto, name: &str) -> Option<usize>
    ensures { result ≡ found.index_of file.now name.now }
{
    file.dependency
        .as_slice()
        .iter()
        .position(|import| import.as_str() == name)
}

// The second file of a circle; the first if there is no other.
fn next_of(circle: &[usize]) -> Option<usize>
    ensures { result ≡ found.next_of circle.now }
{
    match circle {
        [] => None,
        [file] => Some(*file),
        [_, next, ..] => Some(*next),
    }
}

// The name of the next file of a circle.
fn next_name<'a>(files: &'a [FileDescriptorProto], circle: &[usize]) -> Option<&'a str>
    ensures { option_copied result ≡ found.next_name files.now circle.now }
{
    let next = next_of(circle)?;
    let name = files.get(next)?.name.as_ref()?;
    Some(name.as_str())
}

// The index of the import by which the file imports the next one of a circle.
fn import_index(
    files: &[FileDescriptorProto],
    file: &FileDescriptorProto,
    circle: &[usize],
) -> Option<usize>
    ensures { result ≡ found.import_index files.now file.now circle.now }
{
    let name = next_name(files, circle)?;
    index_of(file, name)
}

// The place of the import with an index. An index that no path can count is no index.
fn import_place(
    lines: &SourceLines<'_>,
    file: &FileDescriptorProto,
    index: Option<usize>,
) -> Result<Place, AllocError>
    requires { IsSorted file.now }
    ensures { IfOk result (λ place. place ≡ found.import_place lines.now file.now index) }
{
    let Some(index) = index else {
        return Ok(no_place());
    };
    if index > 2147483647 {
        return Err(AllocError);
    }
    Ok(place_in(lines, file, &[DEPENDENCY, index as i32]))
}

// The place at which a fault of a file is told.
fn place_told(
    files: &[FileDescriptorProto],
    lines: &SourceLines<'_>,
    file: &FileDescriptorProto,
    path: &[i32],
    kind: &LinkFaultKind,
) -> Result<Place, AllocError>
    requires { IsSorted file.now }
    ensures { IfOk result (λ place. place ≡ found.place_told files.now lines.now file.now path.now kind.now) }
{
    match kind {
        LinkFaultKind::ImportCycle(circle) => {
            let index = import_index(files, file, circle.as_slice());
            import_place(lines, file, index)
        }
        _ => Ok(place_in(lines, file, path)),
    }
}

/// The number of the file at which a fault is told.
pub(crate) fn file_told(fault: &LinkFault) -> usize
    ensures { result ≡ found.file_told fault.now.file fault.now.kind }
{
    match &fault.kind {
        LinkFaultKind::ImportCycle(circle) => match circle.as_slice().first() {
            Some(first) => *first,
            None => fault.file,
        },
        _ => fault.file,
    }
}

/// The place at which a fault is told.
///
/// # Errors
/// `AllocError` where a file has more imports than a path can count.
pub(crate) fn fault_place(
    lines: &[SourceLines<'_>],
    files: &[FileDescriptorProto],
    fault: &LinkFault,
) -> Result<Place, AllocError>
    requires { All IsSorted files.now }
    ensures { IfOk result (λ place. place ≡ found.fault_place lines.now files.now fault.now) }
{
    let number = file_told(fault);
    let (Some(source), Some(file)) = (lines.get(number), files.get(number)) else {
        return Ok(no_place());
    };
    place_told(files, source, file, fault.path.as_slice(), &fault.kind)
}
