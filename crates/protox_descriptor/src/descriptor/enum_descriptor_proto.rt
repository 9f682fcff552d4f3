//! The message inside `EnumDescriptorProto`.

ghost use Rattle.std.specs.Prelude.{◌≡◌, None};

use std::alloc::Global;

/// The message `EnumDescriptorProto.EnumReservedRange`: numbers that no value may use.
#[derive(PartialEq, Debug, Drop)]
pub struct EnumReservedRange {
    /// The first number.
    pub start: Option<i32>,
    /// The last number.
    pub end: Option<i32>,
}

impl EnumReservedRange {
    /// A message with nothing set. It takes no memory.
    pub fn new(_alloc: Global) -> EnumReservedRange
        ensures { result ≡ record { start = None; end = None } }
    {
        EnumReservedRange {
            start: None,
            end: None,
        }
    }
}
