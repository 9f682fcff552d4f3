//! The jobs over one source, with digests of what the calls answer.

ghost use Rattle.protox_places.specs.Order.{AreByPath};

use crate::digest::Digest;
use protox_encode::encode;
use protox_outline::write_outline;
use protox_parse::descriptor::{FileDescriptorProto, SourceCodeInfo};
use protox_parse::values::Text;
use protox_parse::{ParseError, ParseFailure, parse};
use protox_report::paint::Paint;
use protox_report::report::Source;
use protox_text::descriptors::write_file;
use protox_walk::{Declaration, declarations};
use std::alloc::{AllocError, Global};
use std::io::{self, BufWriter, Write};

// Mixes in the reports of all faults, as a linter shows them.
fn mix_faults(alloc: Global, digest: &mut Digest, error: &ParseError) -> Result<(), AllocError> {
    let source = error.source();
    if source.len() > 2_147_483_647 {
        return Ok(());
    }
    let shown = Source::new(alloc, error.file(), source, Paint::NONE)?;
    for fault in error.errors() {
        let mut report = String::new(alloc);
        shown.push_fault(alloc, &mut report, fault)?;
        digest.mix_text(report.as_str());
        digest.count_fault();
    }
    Ok(())
}

fn mix_failure(
    alloc: Global,
    digest: &mut Digest,
    failure: &ParseFailure,
) -> Result<(), AllocError> {
    match failure {
        ParseFailure::Refused(error) => mix_faults(alloc, digest, error),
        ParseFailure::OutOfMemory => Err(AllocError),
    }
}

fn mix_encoded(
    alloc: Global,
    digest: &mut Digest,
    file: &FileDescriptorProto,
) -> Result<(), AllocError> {
    digest.count_accepted();
    match encode(alloc, file) {
        Ok(bytes) => digest.mix_bytes(bytes.as_slice()),
        Err(_) => digest.mix_text("not encoded"),
    }
    Ok(())
}

/// As a compiler: the encoded descriptor, or the reports of all faults.
pub fn mix_bytes(
    alloc: Global,
    digest: &mut Digest,
    name: &str,
    source: &str,
) -> Result<(), AllocError> {
    match parse(alloc, name, source) {
        Ok(file) => mix_encoded(alloc, digest, &file),
        Err(failure) => mix_failure(alloc, digest, &failure),
    }
}

fn mix_comment(digest: &mut Digest, comment: Option<&Text>) {
    match comment {
        Some(text) => digest.mix_text(text.as_str()),
        None => digest.mix(1),
    }
}

fn mix_declaration(digest: &mut Digest, declaration: &Declaration<'_>, info: &SourceCodeInfo)
    requires { AreByPath info.now.location }
{
    digest.mix_text(declaration.part.kind());
    digest.mix_text(declaration.full_name.as_str());
    if let Some(location) = declaration.location(info) {
        for number in location.span.as_slice() {
            digest.mix(u64::from(number.unsigned_abs()));
        }
    }
    let comments = declaration.comments(info);
    mix_comment(digest, comments.leading);
    mix_comment(digest, comments.trailing);
    for comment in comments.leading_detached {
        digest.mix_text(comment.as_str());
    }
}

/// As a documentation generator: each declaration with its place and its comments.
pub fn mix_docs(
    alloc: Global,
    digest: &mut Digest,
    name: &str,
    source: &str,
) -> Result<(), AllocError> {
    let file = match parse(alloc, name, source) {
        Ok(file) => file,
        Err(failure) => return mix_failure(alloc, digest, &failure),
    };
    let Some(info) = &file.source_code_info else {
        return Ok(());
    };
    digest.count_accepted();
    for declaration in &declarations(alloc, &file)? {
        mix_declaration(digest, declaration, info);
    }
    Ok(())
}

// Writes the descriptor and the outline through a buffer, as `protoparse` does.
fn write_all_of(alloc: Global, name: &str, file: &FileDescriptorProto) -> io::Result<Vec<u8>> {
    let mut text = Vec::new(alloc);
    let mut out = BufWriter::new(alloc, &mut text)?;
    write_file(alloc, &mut out, file, true)?;
    write_outline(alloc, &mut out, name, file)?;
    out.flush()?;
    drop(out);
    Ok(text)
}

/// As `protoparse`: the descriptor as text, and an outline of the file.
pub fn mix_printed(
    alloc: Global,
    digest: &mut Digest,
    name: &str,
    source: &str,
) -> Result<(), AllocError> {
    let file = match parse(alloc, name, source) {
        Ok(file) => file,
        Err(failure) => return mix_failure(alloc, digest, &failure),
    };
    digest.count_accepted();
    match write_all_of(alloc, name, &file) {
        Ok(text) => digest.mix_bytes(text.as_slice()),
        Err(_) => return Err(AllocError),
    }
    Ok(())
}
