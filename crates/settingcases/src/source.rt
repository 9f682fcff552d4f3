//! The sources of a set.

use std::alloc::{AllocError, Global};

/// A file.
#[derive(Drop)]
pub(crate) struct Source {
    pub(crate) name: String,
    pub(crate) text: String,
}

/// The files that all sets have, and those of one set.
#[derive(Drop)]
pub(crate) struct Sources {
    pub(crate) base: Vec<Source>,
    pub(crate) files: Vec<Source>,
    /// Whether only the bytes of the last file are printed.
    pub(crate) whole: bool,
    /// Whether the file that was begun last is one of all sets.
    is_base: bool,
}

impl Sources {
    pub(crate) fn new(alloc: Global) -> Sources {
        Sources {
            base: Vec::new(alloc),
            files: Vec::new(alloc),
            whole: false,
            is_base: false,
        }
    }
}

fn begin(alloc: Global, files: &mut Vec<Source>, name: &str) -> Result<(), AllocError> {
    let name = String::from_str(alloc, name)?;
    let text = String::new(alloc);
    files.push(Source { name, text })?;
    Ok(())
}

fn add_line(files: &mut Vec<Source>, line: &str) -> Result<(), AllocError> {
    if let Some(source) = files.last_mut() {
        source.text.push_str(line)?;
        source.text.push('\n')?;
    }
    Ok(())
}

/// Begins a file, or adds a line to the last one.
pub(crate) fn note(alloc: Global, sources: &mut Sources, line: &str) -> Result<(), AllocError> {
    if let Some(name) = line.strip_prefix("== base ") {
        sources.is_base = true;
        return begin(alloc, &mut sources.base, name);
    }
    if let Some(name) = line.strip_prefix("== file ") {
        sources.is_base = false;
        return begin(alloc, &mut sources.files, name);
    }
    if sources.is_base {
        return add_line(&mut sources.base, line);
    }
    add_line(&mut sources.files, line)
}
