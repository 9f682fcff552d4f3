//! The text format of messages.

ghost use Rattle.std.specs.Prelude.{◌≡◌, OnOk};
ghost use Rattle.std.specs.Io.KnownBytes.{Appends};
ghost use Rattle.protox_descriptor.specs.declared.descriptor.DescriptorProto.{out-DescriptorProto};
ghost use Rattle.protox_text.specs.TextFormat.{message_middle_text, message_end_text};

use crate::each::{InText, write_any, write_items};
use crate::lines::{Level, write_close, write_open};
use protox_descriptor::descriptor::DescriptorProto;
use protox_descriptor::descriptor::descriptor_proto::{ExtensionRange, ReservedRange};
use std::io::{self, Write};

impl InText for ExtensionRange {
    ghost use Rattle.protox_text.specs.TextFormat.{extension_range_text};

    ghost text = { extension_range_text };

    fn write_to<W: Write>(&self, out: &mut W, level: Level, name: &str) -> io::Result<()> {
        write_open(out, level, name)?;
        let inner = level.inner();
        write_any(out, inner, "start", &self.start)?;
        write_any(out, inner, "end", &self.end)?;
        write_any(out, inner, "options", &self.options)?;
        write_close(out, level)
    }
}

impl InText for ReservedRange {
    ghost use Rattle.protox_text.specs.TextFormat.{reserved_range_text};

    ghost text = { reserved_range_text };

    fn write_to<W: Write>(&self, out: &mut W, level: Level, name: &str) -> io::Result<()> {
        write_open(out, level, name)?;
        let inner = level.inner();
        write_any(out, inner, "start", &self.start)?;
        write_any(out, inner, "end", &self.end)?;
        write_close(out, level)
    }
}

// Writes what stands behind the nested messages.
fn write_middle<W: Write>(out: &mut W, inner: Level, message: &DescriptorProto) -> io::Result<()>
    ensures { OnOk result (Appends (W.contents out.old) (W.contents out.new) (message_middle_text (out-DescriptorProto message.now) inner.depth)) }
{
    write_items(out, inner, "enum_type", &message.enum_type)?;
    write_items(out, inner, "extension_range", &message.extension_range)?;
    write_items(out, inner, "extension", &message.extension)
}

// Writes what stands behind the extensions.
fn write_end<W: Write>(out: &mut W, inner: Level, message: &DescriptorProto) -> io::Result<()>
    ensures { OnOk result (Appends (W.contents out.old) (W.contents out.new) (message_end_text (out-DescriptorProto message.now) inner.depth)) }
{
    write_any(out, inner, "options", &message.options)?;
    write_items(out, inner, "oneof_decl", &message.oneof_decl)?;
    write_items(out, inner, "reserved_range", &message.reserved_range)?;
    write_items(out, inner, "reserved_name", &message.reserved_name)
}

impl InText for DescriptorProto {
    ghost use Rattle.protox_text.specs.TextFormat.{message_text};

    ghost text = { message_text };

    fn write_to<W: Write>(&self, out: &mut W, level: Level, name: &str) -> io::Result<()> {
        write_open(out, level, name)?;
        let inner = level.inner();
        write_any(out, inner, "name", &self.name)?;
        write_items(out, inner, "field", &self.field)?;
        write_items(out, inner, "nested_type", &self.nested_type)?;
        write_middle(out, inner, self)?;
        write_end(out, inner, self)?;
        write_close(out, level)
    }
}
