//! Lists the declarations of a file with their types and comments.

ghost use Rattle.protox_places.specs.Order.{AreByPath};

use protox_parse::descriptor::field_descriptor_proto::FieldType;
use protox_parse::descriptor::{FieldDescriptorProto, FileDescriptorProto, SourceCodeInfo};
use protox_walk::{Part, declarations};
use std::alloc::Global;
use std::io::{self, Write};

pub fn list<W: Write>(
    alloc: Global,
    out: &mut W,
    file: &FileDescriptorProto,
    info: &SourceCodeInfo,
) -> io::Result<()>
    requires { AreByPath info.now.location }
{
    for declaration in &declarations(alloc, file)? {
        if let Some(comment) = declaration.comments(info).leading {
            for line in comment.as_str().lines() {
                writeln!(out, "//{line}")?;
            }
        }
        write!(out, "{} {}", declaration.part.kind(), declaration.full_name)?;
        if let Part::Field(field) = declaration.part {
            write_type(out, field)?;
        }
        writeln!(out, "")?;
    }
    Ok(())
}

fn write_type<W: Write>(out: &mut W, field: &FieldDescriptorProto) -> io::Result<()> {
    if let Some(name) = &field.type_name {
        write!(out, ": {name}")
    } else if let Some(scalar) = field.field_type.and_then(FieldType::from_number) {
        write!(out, ": {scalar}")
    } else {
        Ok(())
    }
}
