//! The text format of options.

ghost use Rattle.std.specs.Prelude.{◌≡◌, OnOk};
ghost use Rattle.std.specs.Io.KnownBytes.{Appends};
ghost use Rattle.protox_text.specs.TextFormat.{value_text, options_text, listed_text};
ghost use Rattle.protox_text.specs.TextLines.{value_line, if_any};

use crate::each::{InText, write_any, write_items};
use crate::lines::{Level, write_close, write_open, write_value};
use protox_descriptor::descriptor::uninterpreted_option::NamePart;
use protox_descriptor::descriptor::{
    EnumOptions, EnumValueOptions, ExtensionRangeOptions, FieldOptions, FileOptions,
    MessageOptions, MethodOptions, OneofOptions, ServiceOptions, UninterpretedOption,
};
use protox_descriptor::values::{Items, Text};
use std::io::{self, Write};

impl InText for NamePart {
    ghost use Rattle.protox_text.specs.TextFormat.{name_part_text};

    ghost text = { name_part_text };

    fn write_to<W: Write>(&self, out: &mut W, level: Level, name: &str) -> io::Result<()> {
        write_open(out, level, name)?;
        let inner = level.inner();
        self.name_part.write_to(out, inner, "name_part")?;
        self.is_extension.write_to(out, inner, "is_extension")?;
        write_close(out, level)
    }
}

// Writes the double as it stands in the source.
fn write_double<W: Write>(
    out: &mut W,
    level: Level,
    name: &str,
    double: &Option<Text>,
) -> io::Result<()>
    ensures { OnOk result (Appends (W.contents out.old) (W.contents out.new) (if_any value_line double.now level.depth name.now)) }
{
    match double {
        Some(double) => write_value(out, level, name, double.as_str()),
        None => Ok(()),
    }
}

// Writes the value of an option: one of six kinds.
fn write_option_value<W: Write>(
    out: &mut W,
    inner: Level,
    option: &UninterpretedOption,
) -> io::Result<()>
    ensures { OnOk result (Appends (W.contents out.old) (W.contents out.new) (value_text option.now inner.depth)) }
{
    write_any(out, inner, "identifier_value", &option.identifier_value)?;
    write_any(out, inner, "positive_int_value", &option.positive_int_value)?;
    write_any(out, inner, "negative_int_value", &option.negative_int_value)?;
    write_double(out, inner, "double_value", &option.double_value)?;
    write_any(out, inner, "string_value", &option.string_value)?;
    write_any(out, inner, "aggregate_value", &option.aggregate_value)
}

impl InText for UninterpretedOption {
    ghost use Rattle.protox_text.specs.TextFormat.{option_text};

    ghost text = { option_text };

    fn write_to<W: Write>(&self, out: &mut W, level: Level, name: &str) -> io::Result<()> {
        write_open(out, level, name)?;
        let inner = level.inner();
        write_items(out, inner, "name", &self.name)?;
        write_option_value(out, inner, self)?;
        write_close(out, level)
    }
}

// Writes uninterpreted options.
fn write_listed<W: Write>(
    out: &mut W,
    level: Level,
    options: &Items<UninterpretedOption>,
) -> io::Result<()>
    ensures { OnOk result (Appends (W.contents out.old) (W.contents out.new) (listed_text options.now level.depth)) }
{
    write_items(out, level, "uninterpreted_option", options)
}

// Writes a message of options that has no other field.
fn write_options<W: Write>(
    out: &mut W,
    level: Level,
    name: &str,
    options: &Items<UninterpretedOption>,
) -> io::Result<()>
    ensures { OnOk result (Appends (W.contents out.old) (W.contents out.new) (options_text options.now level.depth name.now)) }
{
    write_open(out, level, name)?;
    let inner = level.inner();
    write_listed(out, inner, options)?;
    write_close(out, level)
}

impl InText for MessageOptions {
    ghost use Rattle.protox_text.specs.TextFormat.{message_options_text};

    ghost text = { message_options_text };

    fn write_to<W: Write>(&self, out: &mut W, level: Level, name: &str) -> io::Result<()> {
        write_open(out, level, name)?;
        let inner = level.inner();
        write_any(out, inner, "map_entry", &self.map_entry)?;
        write_listed(out, inner, &self.uninterpreted_option)?;
        write_close(out, level)
    }
}

impl InText for EnumOptions {
    ghost use Rattle.protox_text.specs.TextFormat.{enum_options_text};

    ghost text = { enum_options_text };

    fn write_to<W: Write>(&self, out: &mut W, level: Level, name: &str) -> io::Result<()> {
        write_options(out, level, name, &self.uninterpreted_option)
    }
}

impl InText for EnumValueOptions {
    ghost use Rattle.protox_text.specs.TextFormat.{enum_value_options_text};

    ghost text = { enum_value_options_text };

    fn write_to<W: Write>(&self, out: &mut W, level: Level, name: &str) -> io::Result<()> {
        write_options(out, level, name, &self.uninterpreted_option)
    }
}

impl InText for ExtensionRangeOptions {
    ghost use Rattle.protox_text.specs.TextFormat.{range_options_text};

    ghost text = { range_options_text };

    fn write_to<W: Write>(&self, out: &mut W, level: Level, name: &str) -> io::Result<()> {
        write_options(out, level, name, &self.uninterpreted_option)
    }
}

impl InText for FieldOptions {
    ghost use Rattle.protox_text.specs.TextFormat.{field_options_text};

    ghost text = { field_options_text };

    fn write_to<W: Write>(&self, out: &mut W, level: Level, name: &str) -> io::Result<()> {
        write_options(out, level, name, &self.uninterpreted_option)
    }
}

impl InText for FileOptions {
    ghost use Rattle.protox_text.specs.TextFormat.{file_options_text};

    ghost text = { file_options_text };

    fn write_to<W: Write>(&self, out: &mut W, level: Level, name: &str) -> io::Result<()> {
        write_options(out, level, name, &self.uninterpreted_option)
    }
}

impl InText for MethodOptions {
    ghost use Rattle.protox_text.specs.TextFormat.{method_options_text};

    ghost text = { method_options_text };

    fn write_to<W: Write>(&self, out: &mut W, level: Level, name: &str) -> io::Result<()> {
        write_options(out, level, name, &self.uninterpreted_option)
    }
}

impl InText for OneofOptions {
    ghost use Rattle.protox_text.specs.TextFormat.{oneof_options_text};

    ghost text = { oneof_options_text };

    fn write_to<W: Write>(&self, out: &mut W, level: Level, name: &str) -> io::Result<()> {
        write_options(out, level, name, &self.uninterpreted_option)
    }
}

impl InText for ServiceOptions {
    ghost use Rattle.protox_text.specs.TextFormat.{service_options_text};

    ghost text = { service_options_text };

    fn write_to<W: Write>(&self, out: &mut W, level: Level, name: &str) -> io::Result<()> {
        write_options(out, level, name, &self.uninterpreted_option)
    }
}
