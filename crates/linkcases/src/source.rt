//! Sources, from lines.

use std::alloc::{AllocError, Global};

/// A file of a set.
#[derive(Drop)]
pub(crate) struct Source {
    pub(crate) name: String,
    pub(crate) text: String,
}

/// Begins a file, or adds a line to the last one.
pub(crate) fn note(alloc: Global, sources: &mut Vec<Source>, line: &str) -> Result<(), AllocError> {
    if let Some(name) = line.strip_prefix("== file ") {
        let name = String::from_str(alloc, name)?;
        let text = String::new(alloc);
        sources.push(Source { name, text })?;
        return Ok(());
    }
    if let Some(source) = sources.last_mut() {
        source.text.push_str(line)?;
        source.text.push('\n')?;
    }
    Ok(())
}
