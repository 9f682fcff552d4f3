//! The bytes of descriptors, in hex.

use protox_bytes::parse_to_bytes;
use protox_encode::backward::Backward;
use protox_encode::{encode_entry, encode_over, encode_set};
use protox_parse::descriptor::FileDescriptorProto;
use protox_parse::parse;
use std::alloc::Global;
use std::fs;
use std::io::{self, Write};

/// Writes bytes in hex, 40 in a line.
pub fn write_hex<W: Write>(out: &mut W, bytes: &[u8]) -> io::Result<()> {
    for line in bytes.chunks(40) {
        for byte in line {
            write!(out, "{byte:02x}")?;
        }
        writeln!(out)?;
    }
    Ok(())
}

fn write_one<W: Write>(alloc: Global, out: &mut W, name: &str, source: &str) -> io::Result<()> {
    writeln!(out, "== bytes of {name}")?;
    match parse_to_bytes(alloc, name, source) {
        Ok(bytes) => write_hex(out, bytes.as_slice()),
        Err(_) => writeln!(out, "none"),
    }
}

fn write_set<W: Write>(
    alloc: Global,
    out: &mut W,
    files: &[FileDescriptorProto],
) -> io::Result<()> {
    writeln!(out, "== bytes of the set")?;
    match encode_set(alloc, files) {
        Ok(bytes) => write_hex(out, bytes.as_slice()),
        Err(_) => writeln!(out, "none"),
    }
}

fn write_entry<W: Write>(alloc: Global, out: &mut W, file: &FileDescriptorProto) -> io::Result<()> {
    writeln!(out, "entry:")?;
    match encode_entry(alloc, file) {
        Ok(bytes) => write_hex(out, bytes.as_slice()),
        Err(_) => writeln!(out, "none"),
    }
}

fn write_over<W: Write>(
    alloc: Global,
    out: &mut W,
    file: &FileDescriptorProto,
    buffer: &mut Backward,
) -> io::Result<()> {
    writeln!(out, "from the buffer:")?;
    match encode_over(alloc, file, buffer) {
        Ok(()) => write_hex(out, buffer.as_slice()),
        Err(_) => writeln!(out, "none"),
    }
}

fn write_files<W: Write>(
    alloc: Global,
    out: &mut W,
    files: &[FileDescriptorProto],
) -> io::Result<()> {
    write_set(alloc, out, files)?;
    let mut buffer = Backward::new(alloc);
    for file in files {
        write_entry(alloc, out, file)?;
        write_over(alloc, out, file, &mut buffer)?;
    }
    Ok(())
}

// Writes the bytes of a file's descriptor, and adds the descriptor.
fn write_read<W: Write>(
    rt: &HostRuntime,
    out: &mut W,
    name: &str,
    files: &mut Vec<FileDescriptorProto>,
) -> io::Result<()> {
    let source = fs::read_to_string(rt, name)?;
    write_one(rt.alloc(), out, name, source.as_str())?;
    if let Ok(file) = parse(rt.alloc(), name, source.as_str()) {
        files.push(file)?;
    }
    Ok(())
}

fn write_each<W: Write>(
    rt: &HostRuntime,
    out: &mut W,
    list: &str,
    files: &mut Vec<FileDescriptorProto>,
) -> io::Result<()> {
    for name in list.lines() {
        write_read(rt, out, name, files)?;
    }
    Ok(())
}

/// Writes bytes for the files that the lines of a list name: those of each file's descriptor; those
/// of the set of all files; and those of each file as an entry of a set, made at once, and made in
/// a buffer that is used again.
pub fn write_bytes<W: Write>(rt: &HostRuntime, out: &mut W, list: &str) -> io::Result<()> {
    let mut files = Vec::new(rt.alloc());
    write_each(rt, out, list, &mut files)?;
    write_files(rt.alloc(), out, files.as_slice())
}
