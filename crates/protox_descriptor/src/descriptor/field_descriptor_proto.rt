//! The enums inside `FieldDescriptorProto`. `as i32` gives the number of a case, and `from_number`
//! the case of a number. Display writes the word of a case.

ghost use Rattle.std.specs.Prelude.{◌≡◌, ◌≢◌, Some, IfSome, IfNone};

use std::fmt;

/// The enum `FieldDescriptorProto.Label`.
#[derive(Clone, Copy, PartialEq, Debug)]
pub enum Label {
    /// The word `optional`, or no label.
    Optional = 1,
    /// The word `required`.
    Required = 2,
    /// The word `repeated`, or a map.
    Repeated = 3,
}

impl Label {
    ghost use Rattle.protox_descriptor.specs.declared.descriptor.field_descriptor_proto.Label.{Label};
    ghost use Rattle.protox_descriptor.specs.FieldWords.{label_number, label_word};

    /// The label with this number, as `FieldDescriptorProto::label` holds it. None for another
    /// number.
    ///
    /// ```
    /// field.label.and_then(Label::from_number) == Some(Label::Repeated)
    /// ```
    pub fn from_number(number: i32) -> Option<Label>
        ensures found { IfSome result (λ label. label_number label ≡ number) }
        ensures none { IfNone result ((label : Label) → label_number label ≢ number) }
    {
        match number {
            1 => Some(Label::Optional),
            2 => Some(Label::Required),
            3 => Some(Label::Repeated),
            _ => None,
        }
    }

    /// The word in a source: `optional`, `required` or `repeated`.
    pub fn as_str(&self) -> &'static str
        ensures { result.now ≡ label_word self.now }
    {
        match self {
            Label::Optional => "optional",
            Label::Required => "required",
            Label::Repeated => "repeated",
        }
    }
}

impl fmt::Display for Label {
    ghost use Rattle.protox_descriptor.specs.FieldWords.{label_word};

    ghost output = { λ label. Some (label_word label) };

    fn fmt<W: fmt::Write>(&self, f: &mut fmt::Formatter<W>) -> fmt::Result {
        f.write_str(self.as_str())
    }
}

/// The enum `FieldDescriptorProto.Type`.
#[derive(Clone, Copy, PartialEq, Debug)]
pub enum FieldType {
    /// The type `double`.
    Double = 1,
    /// The type `float`.
    Float = 2,
    /// The type `int64`.
    Int64 = 3,
    /// The type `uint64`.
    Uint64 = 4,
    /// The type `int32`.
    Int32 = 5,
    /// The type `fixed64`.
    Fixed64 = 6,
    /// The type `fixed32`.
    Fixed32 = 7,
    /// The type `bool`.
    Bool = 8,
    /// The type `string`.
    String = 9,
    /// A group.
    Group = 10,
    /// A message. The parser sets it only for maps, since it doesn't resolve the names of types.
    Message = 11,
    /// The type `bytes`.
    Bytes = 12,
    /// The type `uint32`.
    Uint32 = 13,
    /// An enum. The parser never sets it, since it doesn't resolve the names of types.
    Enum = 14,
    /// The type `sfixed32`.
    Sfixed32 = 15,
    /// The type `sfixed64`.
    Sfixed64 = 16,
    /// The type `sint32`.
    Sint32 = 17,
    /// The type `sint64`.
    Sint64 = 18,
}

impl FieldType {
    ghost use Rattle.protox_descriptor.specs.declared.descriptor.field_descriptor_proto.FieldType.{FieldType};
    ghost use Rattle.protox_descriptor.specs.FieldWords.{type_number, type_word};

    /// The type with this number, as `FieldDescriptorProto::field_type` holds it. None for another
    /// number.
    ///
    /// ```
    /// if let Some(field_type) = field.field_type.and_then(FieldType::from_number) {
    ///     println!(rt; "{field_type}")?;
    /// }
    /// ```
    pub fn from_number(number: i32) -> Option<FieldType>
        ensures found { IfSome result (λ field_type. type_number field_type ≡ number) }
        ensures none { IfNone result ((field_type : FieldType) → type_number field_type ≢ number) }
    {
        match number {
            1 => Some(FieldType::Double),
            2 => Some(FieldType::Float),
            3 => Some(FieldType::Int64),
            4 => Some(FieldType::Uint64),
            5 => Some(FieldType::Int32),
            6 => Some(FieldType::Fixed64),
            7 => Some(FieldType::Fixed32),
            8 => Some(FieldType::Bool),
            9 => Some(FieldType::String),
            10 => Some(FieldType::Group),
            11 => Some(FieldType::Message),
            12 => Some(FieldType::Bytes),
            13 => Some(FieldType::Uint32),
            14 => Some(FieldType::Enum),
            15 => Some(FieldType::Sfixed32),
            16 => Some(FieldType::Sfixed64),
            17 => Some(FieldType::Sint32),
            18 => Some(FieldType::Sint64),
            _ => None,
        }
    }

    /// The word in a source, such as `int32`. A group gives `group`, and a named type gives
    /// `message` or `enum`.
    pub fn as_str(&self) -> &'static str
        ensures { result.now ≡ type_word self.now }
    {
        match self {
            FieldType::Double => "double",
            FieldType::Float => "float",
            FieldType::Int64 => "int64",
            FieldType::Uint64 => "uint64",
            FieldType::Int32 => "int32",
            FieldType::Fixed64 => "fixed64",
            FieldType::Fixed32 => "fixed32",
            FieldType::Bool => "bool",
            FieldType::String => "string",
            FieldType::Group => "group",
            FieldType::Message => "message",
            FieldType::Bytes => "bytes",
            FieldType::Uint32 => "uint32",
            FieldType::Enum => "enum",
            FieldType::Sfixed32 => "sfixed32",
            FieldType::Sfixed64 => "sfixed64",
            FieldType::Sint32 => "sint32",
            FieldType::Sint64 => "sint64",
        }
    }
}

impl fmt::Display for FieldType {
    ghost use Rattle.protox_descriptor.specs.FieldWords.{type_word};

    ghost output = { λ field_type. Some (type_word field_type) };

    fn fmt<W: fmt::Write>(&self, f: &mut fmt::Formatter<W>) -> fmt::Result {
        f.write_str(self.as_str())
    }
}
