//! The text of a double that is no float's, where a descriptor has one.

use protox_parse::descriptor::descriptor_proto::ExtensionRange;
use protox_parse::descriptor::{
    DescriptorProto, EnumDescriptorProto, EnumValueDescriptorProto, FieldDescriptorProto,
    FileDescriptorProto, MethodDescriptorProto, OneofDescriptorProto, ServiceDescriptorProto,
    UninterpretedOption,
};
use protox_parse::values::Items;

/// What holds options.
pub trait HasDoubles {
    /// The first of the texts of its doubles that are no floats'.
    fn odd_double(&self) -> Option<&str>;
}

// The first such text in the list.
fn odd_among<M: HasDoubles>(values: &Items<M>) -> Option<&str> {
    for value in values.as_slice() {
        if let Some(text) = value.odd_double() {
            return Some(text);
        }
    }
    None
}

impl HasDoubles for UninterpretedOption {
    fn odd_double(&self) -> Option<&str> {
        let text = self.double_value.as_ref()?.as_str();
        if fast_float::parse::<f64, _>(text).is_ok() {
            None
        } else {
            Some(text)
        }
    }
}

impl HasDoubles for FieldDescriptorProto {
    fn odd_double(&self) -> Option<&str> {
        odd_among(&self.options()?.uninterpreted_option)
    }
}

impl HasDoubles for OneofDescriptorProto {
    fn odd_double(&self) -> Option<&str> {
        odd_among(&self.options.as_ref()?.uninterpreted_option)
    }
}

impl HasDoubles for EnumValueDescriptorProto {
    fn odd_double(&self) -> Option<&str> {
        odd_among(&self.options.as_ref()?.uninterpreted_option)
    }
}

impl HasDoubles for EnumDescriptorProto {
    fn odd_double(&self) -> Option<&str> {
        if let Some(text) = odd_among(&self.value) {
            return Some(text);
        }
        odd_among(&self.options.as_ref()?.uninterpreted_option)
    }
}

impl HasDoubles for MethodDescriptorProto {
    fn odd_double(&self) -> Option<&str> {
        odd_among(&self.options.as_ref()?.uninterpreted_option)
    }
}

impl HasDoubles for ServiceDescriptorProto {
    fn odd_double(&self) -> Option<&str> {
        if let Some(text) = odd_among(&self.method) {
            return Some(text);
        }
        odd_among(&self.options.as_ref()?.uninterpreted_option)
    }
}

impl HasDoubles for ExtensionRange {
    fn odd_double(&self) -> Option<&str> {
        odd_among(&self.options.as_ref()?.uninterpreted_option)
    }
}

// The first such text in the parts of a message, apart from the messages in it and its options.
fn odd_in_parts(message: &DescriptorProto) -> Option<&str> {
    odd_among(&message.field)
        .or(odd_among(&message.enum_type))
        .or(odd_among(&message.extension_range))
        .or(odd_among(&message.extension))
        .or(odd_among(&message.oneof_decl))
}

impl HasDoubles for DescriptorProto {
    fn odd_double(&self) -> Option<&str> {
        if let Some(text) = odd_among(&self.nested_type).or(odd_in_parts(self)) {
            return Some(text);
        }
        odd_among(&self.options.as_ref()?.uninterpreted_option)
    }
}

// The first such text in the parts of a file, apart from its options.
fn odd_in_file(file: &FileDescriptorProto) -> Option<&str> {
    odd_among(&file.message_type)
        .or(odd_among(&file.enum_type))
        .or(odd_among(&file.service))
        .or(odd_among(&file.extension))
}

impl HasDoubles for FileDescriptorProto {
    fn odd_double(&self) -> Option<&str> {
        if let Some(text) = odd_in_file(self) {
            return Some(text);
        }
        odd_among(&self.options.as_ref()?.uninterpreted_option)
    }
}
