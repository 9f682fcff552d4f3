//! The scalar types of fields, and what their fields hold.

ghost use Rattle.std.specs.Prelude.{◌≡◌};

use protox_descriptor::descriptor::field_descriptor_proto::FieldType;

/// A type of fields that is no message, no group and no enum.
#[derive(Clone, Copy, PartialEq, Debug)]
pub enum ScalarType {
    /// The type `double`.
    Double,
    /// The type `float`.
    Float,
    /// The type `int64`.
    Int64,
    /// The type `uint64`.
    Uint64,
    /// The type `int32`.
    Int32,
    /// The type `fixed64`.
    Fixed64,
    /// The type `fixed32`.
    Fixed32,
    /// The type `bool`.
    Bool,
    /// The type `string`.
    String,
    /// The type `bytes`.
    Bytes,
    /// The type `uint32`.
    Uint32,
    /// The type `sfixed32`.
    Sfixed32,
    /// The type `sfixed64`.
    Sfixed64,
    /// The type `sint32`.
    Sint32,
    /// The type `sint64`.
    Sint64,
}

/// What the fields of a scalar type hold. Types that hold the same differ on the wire alone.
#[derive(Clone, Copy, PartialEq, Debug)]
pub enum Held {
    /// Integers of 32 bits, with a sign.
    Int32,
    /// Integers of 64 bits, with a sign.
    Int64,
    /// Integers of 32 bits, without a sign.
    Uint32,
    /// Integers of 64 bits, without a sign.
    Uint64,
    /// Floats of 32 bits.
    Float,
    /// Floats of 64 bits.
    Double,
    /// Truth values.
    Bool,
    /// Texts or bytes.
    String,
}

impl ScalarType {
    ghost use Rattle.protox_values.specs.Types.{held_by, scalar_of};

    /// The scalar type that a field's type is. None for a message, a group or an enum.
    pub fn from_type(field_type: FieldType) -> Option<ScalarType>
        ensures { result ≡ scalar_of field_type }
    {
        match field_type {
            FieldType::Double => Some(ScalarType::Double),
            FieldType::Float => Some(ScalarType::Float),
            FieldType::Int64 => Some(ScalarType::Int64),
            FieldType::Uint64 => Some(ScalarType::Uint64),
            FieldType::Int32 => Some(ScalarType::Int32),
            FieldType::Fixed64 => Some(ScalarType::Fixed64),
            FieldType::Fixed32 => Some(ScalarType::Fixed32),
            FieldType::Bool => Some(ScalarType::Bool),
            FieldType::String => Some(ScalarType::String),
            FieldType::Bytes => Some(ScalarType::Bytes),
            FieldType::Uint32 => Some(ScalarType::Uint32),
            FieldType::Sfixed32 => Some(ScalarType::Sfixed32),
            FieldType::Sfixed64 => Some(ScalarType::Sfixed64),
            FieldType::Sint32 => Some(ScalarType::Sint32),
            FieldType::Sint64 => Some(ScalarType::Sint64),
            FieldType::Group => None,
            FieldType::Message => None,
            FieldType::Enum => None,
        }
    }

    /// What the fields of the type hold.
    pub fn held(self) -> Held
        ensures { result ≡ held_by self }
    {
        match self {
            ScalarType::Int32 => Held::Int32,
            ScalarType::Sint32 => Held::Int32,
            ScalarType::Sfixed32 => Held::Int32,
            ScalarType::Int64 => Held::Int64,
            ScalarType::Sint64 => Held::Int64,
            ScalarType::Sfixed64 => Held::Int64,
            ScalarType::Uint32 => Held::Uint32,
            ScalarType::Fixed32 => Held::Uint32,
            ScalarType::Uint64 => Held::Uint64,
            ScalarType::Fixed64 => Held::Uint64,
            ScalarType::Float => Held::Float,
            ScalarType::Double => Held::Double,
            ScalarType::Bool => Held::Bool,
            ScalarType::String => Held::String,
            ScalarType::Bytes => Held::String,
        }
    }
}

impl Held {
    ghost use Rattle.protox_values.specs.Texts.{held_word};

    /// The word that a fault's text has for what is held, such as `int32`.
    pub fn word(self) -> &'static str
        ensures { result.now ≡ held_word self }
    {
        match self {
            Held::Int32 => "int32",
            Held::Int64 => "int64",
            Held::Uint32 => "uint32",
            Held::Uint64 => "uint64",
            Held::Float => "float",
            Held::Double => "double",
            Held::Bool => "boolean",
            Held::String => "string",
        }
    }
}
