//! A file, and what it sees.

use protox_views::View;

/// A file of a set, and what it sees.
#[derive(Drop)]
pub(crate) struct FileView<'a> {
    /// What it sees.
    pub(crate) view: &'a View<'a>,
    /// Its number in the set.
    pub(crate) number: usize,
}
