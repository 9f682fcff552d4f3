//! Prints the options of a file and of what it declares, as a source has them.

use protox_parse::descriptor::FileDescriptorProto;
use protox_walk::declarations;
use std::alloc::Global;
use std::io::{self, Write};

pub fn options<W: Write>(alloc: Global, out: &mut W, file: &FileDescriptorProto) -> io::Result<()> {
    if let Some(options) = &file.options {
        for option in &options.uninterpreted_option {
            writeln!(out, "{option}")?;
        }
    }
    for declaration in &declarations(alloc, file)? {
        for option in declaration.part.options() {
            writeln!(out, "{}: {option}", declaration.full_name)?;
        }
    }
    Ok(())
}
