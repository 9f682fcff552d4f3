//! What a statement sets.

use protox_message_bytes::Entry;
use std::marker::Model;

// What a statement sets: the numbers of the fields that its name goes through; whether the first of
// them is no extension; whether the last of them is repeated; the steps through what stands in
// braces; and the bytes of all that.
#[derive(Drop)]
pub(crate) struct Setting {
    pub(crate) path: Vec<u32>,
    pub(crate) standard: bool,
    pub(crate) repeated: bool,
    pub(crate) inside: Vec<Entry>,
    pub(crate) bytes: Vec<u8>,
}

impl Model for Setting {
    ghost use Rattle.protox_interpret.specs.Settings as seen;

    ghost Value = { seen.Setting };

    ghost view = { λ s. record {
      path = s.path.items;
      standard = s.standard;
      repeated = s.repeated;
      inside = s.inside.items;
      bytes = s.bytes.items;
    } };
}
