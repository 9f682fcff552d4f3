//! Locations as lines.

use protoscan_run::{LastPrinted, push_location};
use protox_parse::descriptor::FileDescriptorProto;
use protox_parse::descriptor::source_code_info::Location;
use protox_parse::values::Text;
use protox_text::lines::{Level, write_bytes};
use std::alloc::Global;
use std::io::{self, Write};

fn write_comment<W: Write>(
    out: &mut W,
    level: Level,
    name: &str,
    comment: Option<&Text>,
) -> io::Result<()> {
    match comment {
        Some(comment) => write_bytes(out, level, name, comment.as_str().as_bytes()),
        None => Ok(()),
    }
}

// The line of a location, and a line for each of its comments.
fn write_commented<W: Write>(alloc: Global, out: &mut W, location: &Location) -> io::Result<()> {
    let mut line = Vec::new(alloc);
    push_location(&mut LastPrinted::new(alloc), &mut line, location)?;
    out.write_all(line.as_slice())?;
    let level = Level { alloc, depth: 1 };
    write_comment(out, level, "leading_comments", location.leading_comments())?;
    write_comment(
        out,
        level,
        "trailing_comments",
        location.trailing_comments(),
    )?;
    for comment in location.leading_detached_comments() {
        write_comment(out, level, "leading_detached_comments", Some(comment))?;
    }
    Ok(())
}

/// Writes a line for each location, and below it a line for each of its comments.
pub fn write_locations<W: Write>(
    alloc: Global,
    out: &mut W,
    file: &FileDescriptorProto,
) -> io::Result<()> {
    if let Some(info) = &file.source_code_info {
        for location in info.location.iter() {
            write_commented(alloc, out, location)?;
        }
    }
    Ok(())
}
