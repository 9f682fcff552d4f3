//! The types of fields.

ghost use Rattle.std.specs.Prelude.{◌≡◌, IfOk};
ghost use Rattle.protox_ast.specs.Types.{scalar_type, named_type};

use super::Ty;
use protox_descriptor::descriptor::field_descriptor_proto::FieldType;
use protox_descriptor::values::Text;
use std::alloc::{AllocError, Global};
use std::option::Option;

impl Ty {
    /// The type in descriptor.proto. None for a named type.
    pub fn proto_ty(&self) -> Option<FieldType>
        ensures { result ≡ scalar_type self.now }
    {
        match self {
            Ty::Double => Some(FieldType::Double),
            Ty::Float => Some(FieldType::Float),
            Ty::Int32 => Some(FieldType::Int32),
            Ty::Int64 => Some(FieldType::Int64),
            Ty::Uint32 => Some(FieldType::Uint32),
            Ty::Uint64 => Some(FieldType::Uint64),
            Ty::Sint32 => Some(FieldType::Sint32),
            Ty::Sint64 => Some(FieldType::Sint64),
            Ty::Fixed32 => Some(FieldType::Fixed32),
            Ty::Fixed64 => Some(FieldType::Fixed64),
            Ty::Sfixed32 => Some(FieldType::Sfixed32),
            Ty::Sfixed64 => Some(FieldType::Sfixed64),
            Ty::Bool => Some(FieldType::Bool),
            Ty::String => Some(FieldType::String),
            Ty::Bytes => Some(FieldType::Bytes),
            Ty::Named(_) => None,
        }
    }

    /// The text of a named type as it is written, None for a scalar type, or `AllocError`.
    pub fn ty_name(&self, alloc: Global) -> Result<Option<Text>, AllocError>
        ensures { IfOk result (λ name. name ≡ named_type self.now) }
    {
        match self {
            Ty::Named(name) => Ok(Some(name.text(alloc)?)),
            _ => Ok(None),
        }
    }
}
