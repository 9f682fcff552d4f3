//! Finds what is left to do: the comments that say TODO, with their places.

use protox_comments::remarks::remarks;
use protox_parse::faults::line_column;
use std::alloc::Global;
use std::io::{self, Write};

pub fn todos<W: Write>(alloc: Global, out: &mut W, name: &str, source: &str) -> io::Result<()> {
    for remark in &remarks(alloc, source)? {
        let text = remark.text.as_str();
        if text.contains("TODO") {
            let (line, column) = line_column(source, remark.span.start);
            writeln!(out, "{name}:{line}:{column}:{}", text.trim_ascii_end())?;
        }
    }
    Ok(())
}
