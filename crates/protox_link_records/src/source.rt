//! The files that a caller gives.

/// A file: its name, under which others import it, and its source.
#[derive(Clone, Copy)]
pub struct SourceFile<'a> {
    pub name: &'a str,
    pub source: &'a str,
}
