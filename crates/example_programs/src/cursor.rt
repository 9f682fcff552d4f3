//! Finds the declaration under a cursor.

use protox_parse::descriptor::{FileDescriptorProto, SourceCodeInfo};
use protox_parse::find::declaration_at;
use protox_walk::declarations;
use std::alloc::Global;
use std::io::{self, Write};

pub fn under<W: Write>(
    alloc: Global,
    out: &mut W,
    file: &FileDescriptorProto,
    info: &SourceCodeInfo,
    cursor: &str,
) -> io::Result<()> {
    let Some((line, column)) = place(cursor) else {
        return writeln!(out, "what?");
    };
    let Some(found) = declaration_at(info, line, column) else {
        return writeln!(out, "nothing");
    };
    for declaration in &declarations(alloc, file)? {
        let path = declaration.path.as_slice();
        if found.path.as_slice().starts_with(path) {
            let (kind, name) = (declaration.part.kind(), &declaration.full_name);
            writeln!(out, "in {kind} {name}")?;
        }
    }
    Ok(())
}

// A line and a column with a colon between them.
fn place(text: &str) -> Option<(i32, i32)> {
    let (line, column) = text.split_once(":")?;
    Some((line.parse::<i32>().ok()?, column.parse::<i32>().ok()?))
}
