//! Whether each `double_value` of a descriptor is the text of a float.

ghost use Rattle.std.specs.Prelude.{◌≡◌, Bool, List};
ghost use Rattle.std.specs.List.{list_all};
ghost use Rattle.std.specs.Option.{option_copied};
ghost use Rattle.protox_descriptor.specs.declared.descriptor.DescriptorProto.{out-DescriptorProto};
ghost use Rattle.protox_encode.specs.Floats as words;

use protox_descriptor::descriptor::descriptor_proto::ExtensionRange;
use protox_descriptor::descriptor::{
    DescriptorProto, EnumDescriptorProto, EnumValueDescriptorProto, FieldDescriptorProto,
    FileDescriptorProto, MethodDescriptorProto, OneofDescriptorProto, ServiceDescriptorProto,
    UninterpretedOption,
};
use protox_descriptor::values::Items;

/// A message with options in it.
pub trait HasFloats {
    /// Whether each `double_value` in it is the text of a float.
    ghost floats: { Self → Bool };

    /// Whether each `double_value` in it is the text of a float.
    fn has_floats(&self) -> bool
        ensures { result ≡ floats self.now };
}

/// Whether each `double_value` in these messages is the text of a float.
fn each_has_floats<M: HasFloats>(values: &Items<M>) -> bool
    ensures { result ≡ list_all M.floats values.now }
{
    let items = values.as_slice();
    let mut i = items.len();
    while i > 0 {
        i -= 1;
        if !items[i].has_floats() {
            return false;
        }
    }
    true
}

impl HasFloats for UninterpretedOption {
    ghost floats = { words.uninterpreted_option };

    #[tactic(auto, unfolding(crate::specs::Floats::uninterpreted_option))]
    fn has_floats(&self) -> bool {
        match &self.double_value {
            Some(text) => fast_float::parse::<f64, _>(text.as_str()).is_ok(),
            None => true,
        }
    }
}

impl HasFloats for FieldDescriptorProto {
    ghost floats = { words.field_descriptor };

    #[tactic(auto, unfolding(crate::specs::Floats::field_descriptor))]
    fn has_floats(&self) -> bool {
        match self.options() {
            Some(options) => each_has_floats(&options.uninterpreted_option),
            None => true,
        }
    }
}

impl HasFloats for OneofDescriptorProto {
    ghost floats = { words.oneof_descriptor };

    #[tactic(auto, unfolding(crate::specs::Floats::oneof_descriptor))]
    fn has_floats(&self) -> bool {
        match &self.options {
            Some(options) => each_has_floats(&options.uninterpreted_option),
            None => true,
        }
    }
}

impl HasFloats for EnumValueDescriptorProto {
    ghost floats = { words.enum_value_descriptor };

    #[tactic(auto, unfolding(crate::specs::Floats::enum_value_descriptor))]
    fn has_floats(&self) -> bool {
        match &self.options {
            Some(options) => each_has_floats(&options.uninterpreted_option),
            None => true,
        }
    }
}

impl HasFloats for EnumDescriptorProto {
    ghost floats = { words.enum_descriptor };

    #[tactic(auto, unfolding(crate::specs::Floats::enum_descriptor))]
    fn has_floats(&self) -> bool {
        let values = each_has_floats(&self.value);
        match &self.options {
            Some(options) => values && each_has_floats(&options.uninterpreted_option),
            None => values,
        }
    }
}

impl HasFloats for MethodDescriptorProto {
    ghost floats = { words.method_descriptor };

    #[tactic(auto, unfolding(crate::specs::Floats::method_descriptor))]
    fn has_floats(&self) -> bool {
        match &self.options {
            Some(options) => each_has_floats(&options.uninterpreted_option),
            None => true,
        }
    }
}

impl HasFloats for ServiceDescriptorProto {
    ghost floats = { words.service_descriptor };

    #[tactic(auto, unfolding(crate::specs::Floats::service_descriptor))]
    fn has_floats(&self) -> bool {
        let methods = each_has_floats(&self.method);
        match &self.options {
            Some(options) => methods && each_has_floats(&options.uninterpreted_option),
            None => methods,
        }
    }
}

impl HasFloats for ExtensionRange {
    ghost floats = { words.extension_range };

    #[tactic(auto, unfolding(crate::specs::Floats::extension_range))]
    fn has_floats(&self) -> bool {
        match &self.options {
            Some(options) => each_has_floats(&options.uninterpreted_option),
            None => true,
        }
    }
}

// Whether each `double_value` in a message is the text of a float, without the messages nested in
// it.
#[tactic(auto, unfolding(crate::specs::Floats::message_own))]
fn parts_have_floats(message: &DescriptorProto) -> bool
    ensures { result ≡ words.message_own (out-DescriptorProto message.now) }
{
    each_has_floats(&message.field)
        && each_has_floats(&message.enum_type)
        && each_has_floats(&message.extension_range)
        && each_has_floats(&message.extension)
        && each_has_floats(&message.oneof_decl)
        && match &message.options {
            Some(options) => each_has_floats(&options.uninterpreted_option),
            None => true,
        }
}

impl HasFloats for DescriptorProto {
    ghost floats = { words.message_descriptor };

    #[tactic(auto, using(crate::proofs::Levels::message_floats))]
    fn has_floats(&self) -> bool {
        each_has_floats(&self.nested_type) && parts_have_floats(self)
    }
}

impl HasFloats for FileDescriptorProto {
    ghost floats = { words.has_floats };

    #[tactic(auto, unfolding(crate::specs::Floats::has_floats))]
    fn has_floats(&self) -> bool {
        each_has_floats(&self.message_type)
            && each_has_floats(&self.enum_type)
            && each_has_floats(&self.service)
            && each_has_floats(&self.extension)
            && match &self.options {
                Some(options) => each_has_floats(&options.uninterpreted_option),
                None => true,
            }
    }
}
