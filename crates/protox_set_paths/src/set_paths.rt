//! The paths that were set, in an ordered set.

ghost use Rattle.std.specs.Prelude.{◌≡◌, ℕ, [], List, map, ◌||◌, OnOk, OnErr};
ghost use Rattle.protox_set_paths.specs.Paths.{begins_with, is_set};

use std::alloc::{AllocError, Global};
use std::collections::BTreeSet;
use std::marker::Model;

/// Paths of field numbers that were set.
///
/// Contracts see a list of the different paths. Its order is not that in which they were added.
///
/// ```
/// if paths.has(&path) {
///     // The field was set already, or one inside of it.
/// } else {
///     paths.add(path)?;
/// }
/// ```
#[derive(Drop)]
pub struct SetPaths {
    paths: BTreeSet<Vec<u32>>,
}

impl Model for SetPaths {
    ghost use Rattle.std.specs.Prelude.{ℕ, List, map};

    ghost Value = { List (List ℕ) };

    ghost view = { λ s. map (λ path. path.items) s.paths.keys };
}

// Whether a path begins with these numbers.
fn begins_with(front: &[u32], path: &[u32]) -> bool
    ensures { result ≡ begins_with front.now path.now }
{
    path.starts_with(front)
}

// The paths that begin with one stand together, and it would stand right before them. So if the
// first path that is not less doesn't begin with it, none does.
fn has(paths: &BTreeSet<Vec<u32>>, path: &Vec<u32>) -> bool
    ensures { result ≡ is_set (map (λ path. path.items) paths.now.keys) path.now.items }
{
    match paths.range(path..).next() {
        Some(first) => begins_with(path.as_slice(), first.as_slice()),
        None => false,
    }
}

impl SetPaths {
    /// No path. It takes no memory.
    pub fn new(alloc: Global) -> SetPaths
        ensures { result ≡ [] }
    {
        SetPaths {
            paths: BTreeSet::new(alloc),
        }
    }

    /// Whether a path is set: whether one that was added is equal to it or begins with it.
    ///
    /// It takes no memory. Of n paths it compares some log n with this one, and of each no more
    /// numbers than this one has. The path is a `Vec`, since an ordered set is searched with a
    /// value of the kind that it holds.
    pub fn has(&self, path: &Vec<u32>) -> bool
        ensures { result ≡ is_set self.now path.now.items }
    {
        has(&self.paths, path)
    }

    /// Adds a path. One that is there already is kept once.
    ///
    /// Of n paths it compares some log n with this one, and of each no more numbers than this one
    /// has. No path is copied.
    ///
    /// # Errors
    /// `AllocError` where memory runs out. Nothing is added then.
    pub fn add(&mut self, path: Vec<u32>) -> Result<(), AllocError>
        ensures ok { OnOk result ((q : List ℕ)
            → is_set self.new q ≡ (begins_with q path.items || is_set self.old q)) }
        ensures err { OnErr result (self.new ≡ self.old) }
    {
        self.paths.insert(path)?;
        Ok(())
    }
}
