//! The bytes that the statements of options set.

ghost use Rattle.std.specs.Prelude.{◌≡◌, ℕ, [], List, if◌then◌else◌, OnOk, OnErr};
ghost use Rattle.protox_encode_linked.specs.Setting.{Path, same_path, set_at};

use std::alloc::{AllocError, Global};
use std::collections::BTreeMap;
use std::marker::Model;

/// What the statements of options set in a file: paths of options messages, each with bytes.
///
/// A path is as in `SourceCodeInfo`: numbers of fields, and indices in lists. So `[4, 0, 7]` are
/// the options (7) of the first (0) message (4) of a file. The bytes are fields of the options
/// message on the wire.
///
/// Contracts see a list of pairs of a path and bytes. Its order is not that in which they were
/// put in.
#[derive(Drop)]
pub struct OptionBytes {
    bytes: BTreeMap<Vec<usize>, Vec<u8>>,
}

impl Model for OptionBytes {
    ghost use Rattle.std.specs.Prelude.{ℕ, List, map};

    ghost Value = { List (List ℕ × List ℕ) };

    ghost view = { λ set. map (λ entry. (entry.0.items, entry.1.items)) set.bytes.entries };
}

impl OptionBytes {
    /// Nothing is set. It takes no memory; `insert` takes it from `alloc`.
    pub fn new(alloc: Global) -> OptionBytes
        ensures { result ≡ [] }
    {
        OptionBytes {
            bytes: BTreeMap::new(alloc),
        }
    }

    /// Sets the bytes of the options message at `path`, in place of those that it had. Nothing is
    /// copied.
    ///
    /// # Errors
    /// `AllocError` if memory runs out. Nothing is changed then.
    pub fn insert(&mut self, path: Vec<usize>, bytes: Vec<u8>) -> Result<(), AllocError>
        ensures ok { OnOk result ((q : Path)
            → set_at self.new q
            ≡ (if same_path q path.items then bytes.items else set_at self.old q)) }
        ensures err { OnErr result (self.new ≡ self.old) }
    {
        self.bytes.insert(path, bytes)?;
        Ok(())
    }

    /// The bytes of the options message at `path`. It is empty where nothing is set.
    ///
    /// Of n paths it compares some log n with this one.
    pub fn get(&self, path: &[usize]) -> &[u8]
        ensures { result.now ≡ set_at self.now path.now }
    {
        match self.bytes.get(path) {
            Some(bytes) => bytes.as_slice(),
            None => &[],
        }
    }
}
