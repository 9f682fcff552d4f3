//! What is kept of the settings so far.

ghost use Rattle.std.specs.Prelude.{◌≡◌, ◌≢◌, false, ℕ, List, [], ◌∷◌, ◌++◌, ◌||◌, OnOk, if◌then◌else◌};
ghost use Rattle.protox_interpret.specs.Settings.{first_of, paths_from};
ghost use Rattle.protox_interpret.specs.inner.Kept.{AreKept, IsAdded};
ghost use Rattle.protox_set_paths.specs.Paths.{is_set};

use crate::inside::{add_inside, add_path};
use crate::setting::Setting;
use crate::site::SetPath;
use protox_message_bytes::{Entry, Field};
use protox_set_paths::SetTree;
use std::alloc::{AllocError, Global};

// What is kept of the settings so far: what they set, their bytes, and their paths.
#[derive(Drop)]
pub(crate) struct Work {
    pub(crate) set: SetTree,
    pub(crate) standard: Vec<Field>,
    pub(crate) custom: Vec<u8>,
    pub(crate) paths: Vec<SetPath>,
}

// The first of some numbers; 0 if there is none.
fn first_of(numbers: &[u32]) -> u32
    ensures { result ≡ first_of numbers.now }
{
    match numbers {
        [] => 0,
        [first, ..] => *first,
    }
}

// Adds the paths that a setting sets.
fn add_paths(
    alloc: Global,
    set: &mut SetTree,
    path: &[u32],
    inside: &[Entry],
) -> Result<(), AllocError>
    ensures { path.now ≢ [] → OnOk result ((q : List ℕ) → is_set set.new q
        ≡ (is_set (path.now ∷ paths_from (path.now ∷ []) inside.now) q || is_set set.old q)) }
{
    let place = add_path(set, path)?;
    add_inside(alloc, set, place, inside)
}

impl Work {
    /// Nothing is set.
    pub(crate) fn new(alloc: Global) -> Work
        ensures { AreKept result [] }
    {
        Work {
            set: SetTree::new(alloc),
            standard: Vec::new(alloc),
            custom: Vec::new(alloc),
            paths: Vec::new(alloc),
        }
    }

    // Adds the bytes of a setting.
    fn add_bytes(&mut self, number: u32, standard: bool, bytes: Vec<u8>) -> Result<(), AllocError>
        ensures standard { OnOk result (self.new.standard.items
            ≡ self.old.standard.items ++ (if standard
            then record { number = number; packed = false; bytes = bytes.items } ∷ [] else [])) }
        ensures custom { OnOk result (self.new.custom.items
            ≡ self.old.custom.items ++ (if standard then [] else bytes.items)) }
        ensures set { self.new.set ≡ self.old.set }
        ensures paths { self.new.paths ≡ self.old.paths }
    {
        if standard {
            self.standard.push(Field {
                number,
                packed: false,
                bytes,
            })?;
            return Ok(());
        }
        self.custom.extend_from_slice(bytes.as_slice())
    }

    // Adds the path of a setting.
    fn add_set_path(&mut self, path: Vec<u32>, repeated: bool) -> Result<(), AllocError>
        ensures paths { OnOk result (self.new.paths.items
            ≡ self.old.paths.items ++ record { path = path; repeated = repeated } ∷ []) }
        ensures set { self.new.set ≡ self.old.set }
        ensures standard { self.new.standard ≡ self.old.standard }
        ensures custom { self.new.custom ≡ self.old.custom }
    {
        self.paths.push(SetPath { path, repeated })?;
        Ok(())
    }

    /// Adds a setting. On `AllocError` a part of it may be added.
    pub(crate) fn add(&mut self, alloc: Global, setting: Setting) -> Result<(), AllocError>
        ensures { setting.path ≢ [] → OnOk result (IsAdded self.old setting self.new) }
    {
        match add_paths(
            alloc,
            &mut self.set,
            setting.path.as_slice(),
            setting.inside.as_slice(),
        ) {
            Ok(()) => {}
            Err(error) => return Err(error),
        }
        let number = first_of(setting.path.as_slice());
        match self.add_bytes(number, setting.standard, setting.bytes) {
            Ok(()) => self.add_set_path(setting.path, setting.repeated),
            Err(error) => Err(error),
        }
    }
}
