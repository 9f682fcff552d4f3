//! Where something stands.

use protox_descriptor::values::Numbers;

/// Where a declaration stands: the number of its file, and the path from the file's descriptor to
/// its own. Of a package, the path is empty.
#[derive(Drop)]
pub struct Thing {
    /// The number of the file in the list of files.
    pub file: usize,
    /// The path, as locations have it.
    pub path: Numbers,
}
