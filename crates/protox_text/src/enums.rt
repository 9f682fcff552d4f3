//! The text format of enums.

use crate::each::{InText, write_any, write_items};
use crate::lines::{Level, write_close, write_open};
use protox_descriptor::descriptor::enum_descriptor_proto::EnumReservedRange;
use protox_descriptor::descriptor::{EnumDescriptorProto, EnumValueDescriptorProto};
use std::io::{self, Write};

impl InText for EnumValueDescriptorProto {
    ghost use Rattle.protox_text.specs.TextFormat.{enum_value_text};

    ghost text = { enum_value_text };

    fn write_to<W: Write>(&self, out: &mut W, level: Level, name: &str) -> io::Result<()> {
        write_open(out, level, name)?;
        let inner = level.inner();
        write_any(out, inner, "name", &self.name)?;
        write_any(out, inner, "number", &self.number)?;
        write_any(out, inner, "options", &self.options)?;
        write_close(out, level)
    }
}

impl InText for EnumReservedRange {
    ghost use Rattle.protox_text.specs.TextFormat.{enum_reserved_text};

    ghost text = { enum_reserved_text };

    fn write_to<W: Write>(&self, out: &mut W, level: Level, name: &str) -> io::Result<()> {
        write_open(out, level, name)?;
        let inner = level.inner();
        write_any(out, inner, "start", &self.start)?;
        write_any(out, inner, "end", &self.end)?;
        write_close(out, level)
    }
}

impl InText for EnumDescriptorProto {
    ghost use Rattle.protox_text.specs.TextFormat.{enum_text};

    ghost text = { enum_text };

    fn write_to<W: Write>(&self, out: &mut W, level: Level, name: &str) -> io::Result<()> {
        write_open(out, level, name)?;
        let inner = level.inner();
        write_any(out, inner, "name", &self.name)?;
        write_items(out, inner, "value", &self.value)?;
        write_any(out, inner, "options", &self.options)?;
        write_items(out, inner, "reserved_range", &self.reserved_range)?;
        write_items(out, inner, "reserved_name", &self.reserved_name)?;
        write_close(out, level)
    }
}
