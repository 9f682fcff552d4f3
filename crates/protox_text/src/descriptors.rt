//! The text format of a file's descriptor.

ghost use Rattle.std.specs.Prelude.{◌≡◌, OnOk};
ghost use Rattle.std.specs.Io.KnownBytes.{Appends};
ghost use Rattle.std.specs.Option.{option_copied};
ghost use Rattle.protox_text.specs.TextFormat.{asked, file_text, file_end_text, types_text};

use crate::each::{write_any, write_items, write_lent};
use crate::lines::Level;
use protox_descriptor::descriptor::{FileDescriptorProto, SourceCodeInfo};
use std::alloc::Global;
use std::io::{self, Write};

fn write_types<W: Write>(alloc: Global, out: &mut W, file: &FileDescriptorProto) -> io::Result<()>
    ensures { OnOk result (Appends (W.contents out.old) (W.contents out.new) (types_text file.now)) }
{
    let level = Level { alloc, depth: 0 };
    write_items(out, level, "message_type", &file.message_type)?;
    write_items(out, level, "enum_type", &file.enum_type)?;
    write_items(out, level, "service", &file.service)?;
    write_items(out, level, "extension", &file.extension)
}

// The locations, if they are asked for.
fn asked(is_asked: bool, info: &Option<SourceCodeInfo>) -> Option<&SourceCodeInfo>
    ensures { option_copied result ≡ asked is_asked info.now }
{
    match info {
        Some(info) if is_asked => Some(info),
        _ => None,
    }
}

// Writes what stands behind the definitions.
fn write_end<W: Write>(
    alloc: Global,
    out: &mut W,
    file: &FileDescriptorProto,
    source_info: bool,
) -> io::Result<()>
    ensures { OnOk result (Appends (W.contents out.old) (W.contents out.new) (file_end_text source_info file.now)) }
{
    let level = Level { alloc, depth: 0 };
    write_any(out, level, "options", &file.options)?;
    let info = asked(source_info, &file.source_code_info);
    write_lent(out, level, "source_code_info", info)?;
    write_items(out, level, "public_dependency", &file.public_dependency)?;
    write_items(out, level, "weak_dependency", &file.weak_dependency)?;
    write_any(out, level, "syntax", &file.syntax)
}

/// Writes the fields of a file's descriptor in the order of their numbers; `source_code_info` only
/// if `source_info` is true. It fails if the writer fails, and takes no memory of its own.
pub fn write_file<W: Write>(
    alloc: Global,
    out: &mut W,
    file: &FileDescriptorProto,
    source_info: bool,
) -> io::Result<()>
    ensures { OnOk result (Appends (W.contents out.old) (W.contents out.new) (file_text source_info file.now)) }
{
    let level = Level { alloc, depth: 0 };
    write_any(out, level, "name", &file.name)?;
    write_any(out, level, "package", &file.package)?;
    write_items(out, level, "dependency", &file.dependency)?;
    write_types(alloc, out, file)?;
    write_end(alloc, out, file, source_info)
}
