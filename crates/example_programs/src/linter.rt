//! Finds names that are not written as is the custom, with the line and the column of each.

ghost use Rattle.protox_places.specs.Order.{AreByPath};

use protox_parse::descriptor::{FileDescriptorProto, SourceCodeInfo};
use protox_parse::find::location;
use protox_parse::tag::message::NAME;
use protox_parse::values::Numbers;
use protox_walk::declarations;
use std::alloc::Global;
use std::io::{self, Write};

pub fn lint<W: Write>(
    alloc: Global,
    out: &mut W,
    file: &FileDescriptorProto,
    info: &SourceCodeInfo,
) -> io::Result<()>
    requires { AreByPath info.now.location }
{
    for declaration in &declarations(alloc, file)? {
        let (kind, Some(name)) = (declaration.part.kind(), declaration.part.name()) else {
            continue;
        };
        let path = Numbers::joined(alloc, declaration.path.as_slice(), &[NAME])?;
        let place = location(info, path.as_slice()).and_then(|location| location.start());
        if let (Some((line, column)), false) = (place, is_customary(kind, name.as_str())) {
            writeln!(out, "{line}:{column}: {kind} {name}")?;
        }
    }
    Ok(())
}

fn is_customary(kind: &str, name: &str) -> bool {
    match kind {
        "field" | "extension" | "oneof" => name.bytes().all(|byte| !byte.is_ascii_uppercase()),
        "value" => name.bytes().all(|byte| !byte.is_ascii_lowercase()),
        _ => name.bytes().all(|byte| byte != b'_'),
    }
}
