//! What a message holds, one after the other.

use protox_values::SettingValue;

/// A step through what a message holds.
#[derive(PartialEq, Debug, Drop)]
pub enum Entry {
    /// The field with this number has this value. If it is packed, the values of the field stand
    /// behind one header.
    Value(u32, bool, SettingValue),
    /// A message begins that is the value of the field with this number; or a group, which ends
    /// with a mark and has no length in front.
    Open(u32, bool),
    /// The message ends.
    Close,
}
