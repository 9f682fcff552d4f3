//! The text format of fields and oneofs.

ghost use Rattle.std.specs.Prelude.{◌≡◌, OnOk};
ghost use Rattle.std.specs.Io.KnownBytes.{Appends};
ghost use Rattle.protox_text.specs.TextFormat.{field_type_text, field_end_text, label_line, type_line};
ghost use Rattle.protox_text.specs.TextLines.{if_any};
ghost use Rattle.protox_text.specs.TextNames.{label_name, type_name};

use crate::each::{InText, write_any, write_lent};
use crate::lines::{Level, write_close, write_open, write_value};
use protox_descriptor::descriptor::{FieldDescriptorProto, OneofDescriptorProto};
use std::io::{self, Write};

// The names of labels in descriptor.proto.
#[tactic(auto, unfolding(crate::specs::TextNames::label_name))]
fn label_name(number: i32) -> &'static str
    ensures { result.now ≡ label_name number }
{
    match number {
        1 => "LABEL_OPTIONAL",
        2 => "LABEL_REQUIRED",
        3 => "LABEL_REPEATED",
        _ => "none",
    }
}

// The names of types in descriptor.proto.
#[tactic(auto, unfolding(crate::specs::TextNames::type_name))]
fn type_name(number: i32) -> &'static str
    ensures { result.now ≡ type_name number }
{
    match number {
        1 => "TYPE_DOUBLE",
        2 => "TYPE_FLOAT",
        3 => "TYPE_INT64",
        4 => "TYPE_UINT64",
        5 => "TYPE_INT32",
        6 => "TYPE_FIXED64",
        7 => "TYPE_FIXED32",
        8 => "TYPE_BOOL",
        9 => "TYPE_STRING",
        10 => "TYPE_GROUP",
        11 => "TYPE_MESSAGE",
        12 => "TYPE_BYTES",
        13 => "TYPE_UINT32",
        14 => "TYPE_ENUM",
        15 => "TYPE_SFIXED32",
        16 => "TYPE_SFIXED64",
        17 => "TYPE_SINT32",
        18 => "TYPE_SINT64",
        _ => "none",
    }
}

fn write_label<W: Write>(
    out: &mut W,
    level: Level,
    name: &str,
    number: Option<i32>,
) -> io::Result<()>
    ensures { OnOk result (Appends (W.contents out.old) (W.contents out.new) (if_any label_line number level.depth name.now)) }
{
    match number {
        Some(number) => write_value(out, level, name, label_name(number)),
        None => Ok(()),
    }
}

fn write_type<W: Write>(
    out: &mut W,
    level: Level,
    name: &str,
    number: Option<i32>,
) -> io::Result<()>
    ensures { OnOk result (Appends (W.contents out.old) (W.contents out.new) (if_any type_line number level.depth name.now)) }
{
    match number {
        Some(number) => write_value(out, level, name, type_name(number)),
        None => Ok(()),
    }
}

// Writes a field from its label on.
fn write_field_type<W: Write>(
    out: &mut W,
    inner: Level,
    field: &FieldDescriptorProto,
) -> io::Result<()>
    ensures { OnOk result (Appends (W.contents out.old) (W.contents out.new) (field_type_text field.now inner.depth)) }
{
    write_label(out, inner, "label", field.label)?;
    write_type(out, inner, "type", field.field_type)?;
    write_any(out, inner, "type_name", &field.type_name)
}

// Writes a field from its default value on.
fn write_field_end<W: Write>(
    out: &mut W,
    inner: Level,
    field: &FieldDescriptorProto,
) -> io::Result<()>
    ensures { OnOk result (Appends (W.contents out.old) (W.contents out.new) (field_end_text field.now inner.depth)) }
{
    write_lent(out, inner, "default_value", field.default_value())?;
    write_lent(out, inner, "options", field.options())?;
    write_any(out, inner, "oneof_index", &field.oneof_index())?;
    write_lent(out, inner, "json_name", field.json_name())?;
    write_any(out, inner, "proto3_optional", &field.proto3_optional())
}

impl InText for FieldDescriptorProto {
    ghost use Rattle.protox_text.specs.TextFormat.{field_text};

    ghost text = { field_text };

    fn write_to<W: Write>(&self, out: &mut W, level: Level, name: &str) -> io::Result<()> {
        write_open(out, level, name)?;
        let inner = level.inner();
        write_any(out, inner, "name", &self.name)?;
        write_lent(out, inner, "extendee", self.extendee())?;
        write_any(out, inner, "number", &self.number)?;
        write_field_type(out, inner, self)?;
        write_field_end(out, inner, self)?;
        write_close(out, level)
    }
}

impl InText for OneofDescriptorProto {
    ghost use Rattle.protox_text.specs.TextFormat.{oneof_text};

    ghost text = { oneof_text };

    fn write_to<W: Write>(&self, out: &mut W, level: Level, name: &str) -> io::Result<()> {
        write_open(out, level, name)?;
        let inner = level.inner();
        write_any(out, inner, "name", &self.name)?;
        write_any(out, inner, "options", &self.options)?;
        write_close(out, level)
    }
}
