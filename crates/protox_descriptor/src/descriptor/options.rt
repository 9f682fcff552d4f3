//! The options messages of descriptor.proto. A parser doesn't interpret options: each message holds
//! them as they stand in the source. Of the known options it sets only `map_entry`, for a map
//! field.

ghost use Rattle.std.specs.Prelude.{◌≡◌, [], None};

use super::uninterpreted_option;
use crate::values::{Items, Text};
use std::alloc::Global;

/// The message `FileOptions`: the options of a file.
#[derive(PartialEq, Debug, Drop)]
pub struct FileOptions {
    /// The options, as they are written.
    pub uninterpreted_option: Items<UninterpretedOption>,
}

impl FileOptions {
    /// A message with nothing set. It takes no memory; later growth takes it from `alloc`.
    pub fn new(alloc: Global) -> FileOptions
        ensures { result ≡ record { uninterpreted_option = [] } }
    {
        FileOptions {
            uninterpreted_option: Items::new(alloc),
        }
    }
}

/// The message `MessageOptions`: the options of a message type.
#[derive(PartialEq, Debug, Drop)]
pub struct MessageOptions {
    /// True in the entry message of a map field.
    pub map_entry: Option<bool>,
    /// The options, as they are written.
    pub uninterpreted_option: Items<UninterpretedOption>,
}

impl MessageOptions {
    /// A message with nothing set. It takes no memory; later growth takes it from `alloc`.
    pub fn new(alloc: Global) -> MessageOptions
        ensures { result ≡ record { map_entry = None; uninterpreted_option = [] } }
    {
        MessageOptions {
            map_entry: None,
            uninterpreted_option: Items::new(alloc),
        }
    }
}

/// The message `FieldOptions`: the options of a field.
#[derive(PartialEq, Debug, Drop)]
pub struct FieldOptions {
    /// The options, as they are written.
    pub uninterpreted_option: Items<UninterpretedOption>,
}

impl FieldOptions {
    /// A message with nothing set. It takes no memory; later growth takes it from `alloc`.
    pub fn new(alloc: Global) -> FieldOptions
        ensures { result ≡ record { uninterpreted_option = [] } }
    {
        FieldOptions {
            uninterpreted_option: Items::new(alloc),
        }
    }
}

/// The message `OneofOptions`: the options of a oneof.
#[derive(PartialEq, Debug, Drop)]
pub struct OneofOptions {
    /// The options, as they are written.
    pub uninterpreted_option: Items<UninterpretedOption>,
}

impl OneofOptions {
    /// A message with nothing set. It takes no memory; later growth takes it from `alloc`.
    pub fn new(alloc: Global) -> OneofOptions
        ensures { result ≡ record { uninterpreted_option = [] } }
    {
        OneofOptions {
            uninterpreted_option: Items::new(alloc),
        }
    }
}

/// The message `EnumOptions`: the options of an enum.
#[derive(PartialEq, Debug, Drop)]
pub struct EnumOptions {
    /// The options, as they are written.
    pub uninterpreted_option: Items<UninterpretedOption>,
}

impl EnumOptions {
    /// A message with nothing set. It takes no memory; later growth takes it from `alloc`.
    pub fn new(alloc: Global) -> EnumOptions
        ensures { result ≡ record { uninterpreted_option = [] } }
    {
        EnumOptions {
            uninterpreted_option: Items::new(alloc),
        }
    }
}

/// The message `EnumValueOptions`: the options of a value of an enum.
#[derive(PartialEq, Debug, Drop)]
pub struct EnumValueOptions {
    /// The options, as they are written.
    pub uninterpreted_option: Items<UninterpretedOption>,
}

impl EnumValueOptions {
    /// A message with nothing set. It takes no memory; later growth takes it from `alloc`.
    pub fn new(alloc: Global) -> EnumValueOptions
        ensures { result ≡ record { uninterpreted_option = [] } }
    {
        EnumValueOptions {
            uninterpreted_option: Items::new(alloc),
        }
    }
}

/// The message `ServiceOptions`: the options of a service.
#[derive(PartialEq, Debug, Drop)]
pub struct ServiceOptions {
    /// The options, as they are written.
    pub uninterpreted_option: Items<UninterpretedOption>,
}

impl ServiceOptions {
    /// A message with nothing set. It takes no memory; later growth takes it from `alloc`.
    pub fn new(alloc: Global) -> ServiceOptions
        ensures { result ≡ record { uninterpreted_option = [] } }
    {
        ServiceOptions {
            uninterpreted_option: Items::new(alloc),
        }
    }
}

/// The message `MethodOptions`: the options of a method.
#[derive(PartialEq, Debug, Drop)]
pub struct MethodOptions {
    /// The options, as they are written.
    pub uninterpreted_option: Items<UninterpretedOption>,
}

impl MethodOptions {
    /// A message with nothing set. It takes no memory; later growth takes it from `alloc`.
    pub fn new(alloc: Global) -> MethodOptions
        ensures { result ≡ record { uninterpreted_option = [] } }
    {
        MethodOptions {
            uninterpreted_option: Items::new(alloc),
        }
    }
}

/// The message `ExtensionRangeOptions`: the options of a range of extension numbers.
#[derive(PartialEq, Debug, Drop)]
pub struct ExtensionRangeOptions {
    /// The options, as they are written.
    pub uninterpreted_option: Items<UninterpretedOption>,
}

impl ExtensionRangeOptions {
    /// A message with nothing set. It takes no memory; later growth takes it from `alloc`.
    pub fn new(alloc: Global) -> ExtensionRangeOptions
        ensures { result ≡ record { uninterpreted_option = [] } }
    {
        ExtensionRangeOptions {
            uninterpreted_option: Items::new(alloc),
        }
    }
}

/// The message `UninterpretedOption`: an option as it stands in the source. It has a name, and one
/// value by its kind.
#[derive(PartialEq, Debug, Drop)]
pub struct UninterpretedOption {
    /// The parts of the name, in order. In the source dots stand between them.
    pub name: Items<uninterpreted_option::NamePart>,
    /// An identifier.
    pub identifier_value: Option<Text>,
    /// An integer without a sign.
    pub positive_int_value: Option<u64>,
    /// An integer with a minus sign, `-0` too.
    pub negative_int_value: Option<i64>,
    /// The text of a float literal, with its sign.
    pub double_value: Option<Text>,
    /// The bytes of a string.
    pub string_value: Option<Items<u8>>,
    /// The tokens between the braces, with a space between each two.
    pub aggregate_value: Option<Text>,
}

impl UninterpretedOption {
    /// A message with nothing set. It takes no memory; later growth takes it from `alloc`.
    pub fn new(alloc: Global) -> UninterpretedOption
        ensures { result ≡ record { name = []; identifier_value = None; positive_int_value = None; negative_int_value = None; double_value = None; string_value = None; aggregate_value = None } }
    {
        UninterpretedOption {
            name: Items::new(alloc),
            identifier_value: None,
            positive_int_value: None,
            negative_int_value: None,
            double_value: None,
            string_value: None,
            aggregate_value: None,
        }
    }
}
