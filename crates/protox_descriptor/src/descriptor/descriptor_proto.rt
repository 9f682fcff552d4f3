//! The messages inside `DescriptorProto`.

ghost use Rattle.std.specs.Prelude.{◌≡◌, None};

use super::ExtensionRangeOptions;
use std::alloc::Global;

/// The message `DescriptorProto.ExtensionRange`: numbers that are free for extensions.
#[derive(PartialEq, Debug, Drop)]
pub struct ExtensionRange {
    /// The first number.
    pub start: Option<i32>,
    /// The number after the last one.
    pub end: Option<i32>,
    /// Its options, if it has any.
    pub options: Option<ExtensionRangeOptions>,
}

impl ExtensionRange {
    /// A message with nothing set. It takes no memory.
    pub fn new(_alloc: Global) -> ExtensionRange
        ensures { result ≡ record { start = None; end = None; options = None } }
    {
        ExtensionRange {
            start: None,
            end: None,
            options: None,
        }
    }
}

/// The message `DescriptorProto.ReservedRange`: numbers that no field may use.
#[derive(PartialEq, Debug, Drop)]
pub struct ReservedRange {
    /// The first number.
    pub start: Option<i32>,
    /// The number after the last one.
    pub end: Option<i32>,
}

impl ReservedRange {
    /// A message with nothing set. It takes no memory.
    pub fn new(_alloc: Global) -> ReservedRange
        ensures { result ≡ record { start = None; end = None } }
    {
        ReservedRange {
            start: None,
            end: None,
        }
    }
}
