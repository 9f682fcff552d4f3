//! What linking makes of a set, as lines.

use protox_descriptor::descriptor::field_descriptor_proto::FieldType;
use protox_descriptor::descriptor::{
    FieldDescriptorProto, FileDescriptorProto, MethodDescriptorProto,
};
use protox_descriptor::values::Text;
use protox_link::LinkedSet;
use protox_walk::{Declaration, Part, declarations};
use std::alloc::Global;
use std::io::{self, Write};

// A text behind a word, if there is one.
fn write_text<W: Write>(out: &mut W, word: &str, text: Option<&Text>) -> io::Result<()> {
    match text {
        Some(text) => write!(out, "{word}{text}"),
        None => Ok(()),
    }
}

fn write_type<W: Write>(out: &mut W, field: &FieldDescriptorProto) -> io::Result<()> {
    match field.field_type.and_then(FieldType::from_number) {
        Some(field_type) => write!(out, " {field_type}"),
        None => write!(out, " no type"),
    }
}

fn write_field<W: Write>(out: &mut W, field: &FieldDescriptorProto) -> io::Result<()> {
    write_type(out, field)?;
    write_text(out, " ", field.type_name.as_ref())?;
    write_text(out, " extends ", field.extendee())?;
    write_text(out, " json ", field.json_name())?;
    writeln!(out)
}

fn write_method<W: Write>(out: &mut W, method: &MethodDescriptorProto) -> io::Result<()> {
    write_text(out, " ", method.input_type.as_ref())?;
    write_text(out, " to ", method.output_type.as_ref())?;
    writeln!(out)
}

// Fields, extensions and methods have a line. Nothing else changes by linking.
fn write_declaration<W: Write>(out: &mut W, declaration: &Declaration<'_>) -> io::Result<()> {
    let (kind, name) = (declaration.part.kind(), &declaration.full_name);
    match declaration.part {
        Part::Field(field) => {
            write!(out, "{kind} {name}:")?;
            write_field(out, field)
        }
        Part::Method(method) => {
            write!(out, "{kind} {name}:")?;
            write_method(out, method)
        }
        _ => Ok(()),
    }
}

fn write_file<W: Write>(alloc: Global, out: &mut W, file: &FileDescriptorProto) -> io::Result<()> {
    write_text(out, "file ", file.name.as_ref())?;
    writeln!(out)?;
    for declaration in &declarations(alloc, file)? {
        write_declaration(out, declaration)?;
    }
    Ok(())
}

// The names of the files, importers behind what they import.
fn write_order<W: Write>(out: &mut W, set: &LinkedSet) -> io::Result<()> {
    write!(out, "order:")?;
    for number in &set.order {
        if let Some(file) = set.files.get(*number) {
            write_text(out, " ", file.name.as_ref())?;
        }
    }
    writeln!(out)
}

/// Writes the order of a linked set, and then each of its files.
pub(crate) fn write_linked<W: Write>(
    alloc: Global,
    out: &mut W,
    set: &LinkedSet,
) -> io::Result<()> {
    write_order(out, set)?;
    for file in &set.files {
        write_file(alloc, out, file)?;
    }
    Ok(())
}
