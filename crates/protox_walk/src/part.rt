//! The descriptor of a declaration, by its kind.

ghost use Rattle.std.specs.Prelude.{◌≡◌};
ghost use Rattle.std.specs.Option.{option_copied};
ghost use Rattle.protox_walk.specs.Parts.{part_of};
ghost use Rattle.protox_walk.specs.Words.{kind_of, name_of, options_in, options_of};

use protox_descriptor::descriptor::{
    DescriptorProto, EnumDescriptorProto, EnumValueDescriptorProto, FieldDescriptorProto,
    MethodDescriptorProto, OneofDescriptorProto, ServiceDescriptorProto, UninterpretedOption,
};
use protox_descriptor::uninterpreted::HasUninterpreted;
use protox_descriptor::values::Text;

/// The descriptor of a declaration, by its kind.
#[derive(Clone, Copy)]
pub enum Part<'a> {
    /// A message.
    Message(&'a DescriptorProto),
    /// A field of a message, or an extension: that has an extendee.
    Field(&'a FieldDescriptorProto),
    /// A oneof of a message.
    Oneof(&'a OneofDescriptorProto),
    /// An enum.
    Enum(&'a EnumDescriptorProto),
    /// A value of an enum.
    Value(&'a EnumValueDescriptorProto),
    /// A service.
    Service(&'a ServiceDescriptorProto),
    /// A method of a service.
    Method(&'a MethodDescriptorProto),
}

// The options of a part, if it has any.
fn options_in<O: HasUninterpreted>(options: Option<&O>) -> &[UninterpretedOption]
    ensures { result.now ≡ options_in O.options (option_copied options.entry) }
{
    match options {
        Some(options) => options.uninterpreted(),
        None => &[],
    }
}

impl Part<'_> {
    /// What it is, in a word: `message`, `field`, `extension`, `oneof`, `enum`, `value`, `service`
    /// or `method`.
    pub fn kind(&self) -> &'static str
        ensures { result.now ≡ kind_of (part_of self.now) }
    {
        match self {
            Part::Message(_) => "message",
            Part::Field(field) if field.extendee().is_some() => "extension",
            Part::Field(_) => "field",
            Part::Oneof(_) => "oneof",
            Part::Enum(_) => "enum",
            Part::Value(_) => "value",
            Part::Service(_) => "service",
            Part::Method(_) => "method",
        }
    }

    /// Its own name.
    pub fn name(&self) -> Option<&Text>
        ensures { option_copied result ≡ name_of (part_of self.now) }
    {
        match self {
            Part::Message(message) => message.name.as_ref(),
            Part::Field(field) => field.name.as_ref(),
            Part::Oneof(oneof) => oneof.name.as_ref(),
            Part::Enum(described) => described.name.as_ref(),
            Part::Value(value) => value.name.as_ref(),
            Part::Service(service) => service.name.as_ref(),
            Part::Method(method) => method.name.as_ref(),
        }
    }

    /// Its options as they are written, in their order.
    pub fn options(&self) -> &[UninterpretedOption]
        ensures { result.now ≡ options_of (part_of self.now) }
    {
        match self {
            Part::Message(message) => options_in(message.options.as_ref()),
            Part::Field(field) => options_in(field.options()),
            Part::Oneof(oneof) => options_in(oneof.options.as_ref()),
            Part::Enum(described) => options_in(described.options.as_ref()),
            Part::Value(value) => options_in(value.options.as_ref()),
            Part::Service(service) => options_in(service.options.as_ref()),
            Part::Method(method) => options_in(method.options.as_ref()),
        }
    }
}
