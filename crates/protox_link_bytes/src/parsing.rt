//! Parses the files of a list.

ghost use Rattle.std.specs.Prelude.{◌≡◌, ◌≤◌, ◌++◌, ◌∷◌, [], List, length, IfOk};
ghost use Rattle.protox_generate.specs.File.{AreSorted};
ghost use Rattle.protox_link_bytes.specs.Given.{GivenFile, given, given_file};
ghost use Rattle.protox_link_bytes.specs.Parsed.{IsParsedOf, IsRefusal};
ghost use Rattle.protox_parse.specs.Files.{IsTranslation};

use protox_descriptor::descriptor::FileDescriptorProto;
use protox_link_records::{SourceFile, push_syntax_records};
use protox_parse::{ParseError, ParseFailure, parse};
use std::alloc::{AllocError, Global};

/// What parsing makes of files.
#[derive(Drop)]
pub(crate) enum Parsed {
    /// Their descriptors, in order, if none of them is refused.
    Files(Vec<FileDescriptorProto>),
    /// The records of the faults of those that are.
    Refused(Vec<u8>),
}

// Adds the descriptor of one file more, if none is refused.
fn with_file(parsed: Parsed, file: FileDescriptorProto) -> Result<Parsed, AllocError>
    requires { AreSorted file }
    ensures { (before : List GivenFile) (source : GivenFile) → IsParsedOf before parsed → IsTranslation source.name source.source file
        → IfOk result (IsParsedOf (before ++ source ∷ [])) }
{
    match parsed {
        Parsed::Files(files) => {
            let mut files = files;
            files.push(file)?;
            Ok(Parsed::Files(files))
        }
        Parsed::Refused(told) => Ok(Parsed::Refused(told)),
    }
}

// Adds the records of the faults of one file more, which has this number.
fn with_refusal(
    alloc: Global,
    parsed: Parsed,
    number: usize,
    error: &ParseError,
) -> Result<Parsed, AllocError>
    requires { length error.now.source ≤ 2147483647 }
    ensures { (before : List GivenFile) (source : GivenFile) → length before ≡ number → IsParsedOf before parsed
        → IsRefusal source.name source.source error.now → IfOk result (IsParsedOf (before ++ source ∷ [])) }
{
    let mut told = match parsed {
        Parsed::Files(_) => Vec::new(alloc),
        Parsed::Refused(told) => told,
    };
    push_syntax_records(alloc, &mut told, number, error.source(), error.errors())?;
    Ok(Parsed::Refused(told))
}

// Adds one file more, which has this number.
fn with_source(
    alloc: Global,
    parsed: Parsed,
    number: usize,
    source: &SourceFile<'_>,
) -> Result<Parsed, AllocError>
    ensures { (before : List GivenFile) → length before ≡ number → IsParsedOf before parsed
        → IfOk result (IsParsedOf (before ++ given_file source.now ∷ [])) }
{
    match parse(alloc, source.name, source.source) {
        Ok(file) => with_file(parsed, file),
        Err(ParseFailure::Refused(error)) => with_refusal(alloc, parsed, number, &error),
        Err(ParseFailure::OutOfMemory) => Err(AllocError),
    }
}

/// Parses all files.
///
/// # Errors
/// `AllocError` where memory runs out.
pub(crate) fn parse_all(alloc: Global, sources: &[SourceFile<'_>]) -> Result<Parsed, AllocError>
    ensures { IfOk result (IsParsedOf (given sources.now)) }
{
    let mut parsed = Parsed::Files(Vec::new(alloc));
    for (number, source) in sources.iter().enumerate() {
        parsed = with_source(alloc, parsed, number, source)?;
    }
    Ok(parsed)
}
