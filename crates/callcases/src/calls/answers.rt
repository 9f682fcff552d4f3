//! Calls of the parser's answers: refusals, what was expected, and places.

ghost use Rattle.protox_places.specs.Order.{AreByPath};

use protox_parse::descriptor::{FileDescriptorProto, SourceCodeInfo};
use protox_parse::error::ParseErrorKind;
use protox_parse::find::{comments, declaration_at, location};
use protox_parse::generate::LineResolver;
use protox_parse::lex::{STREAM, Token};
use protox_parse::syntax::{ExpectedToken, MAX_MESSAGE_NESTING_DEPTH};
use protox_parse::{ParseError, ParseFailure, locate, parse, source_fits};
use protox_walk::{Part, Visit, name_at, walk};
use std::alloc::{AllocError, Global};
use std::fmt::Write;

pub fn helps(alloc: Global) -> Result<String, AllocError> {
    let help = ParseErrorKind::InvalidGroupName { span: 0..1 }.help(alloc)?;
    format!(in alloc; "{help:?}")
}

pub fn limits(alloc: Global) -> Result<String, AllocError> {
    let (least, most, more) = (
        source_fits(0),
        source_fits(2147483647),
        source_fits(2147483648),
    );
    format!(in alloc; "{least} {most} {more} {MAX_MESSAGE_NESTING_DEPTH}")
}

// The answer of each reader of a refusal.
fn read(alloc: Global, error: &ParseError) -> Result<String, AllocError> {
    let (file, source) = (error.file(), error.source());
    let (span, place) = (error.span(), error.first_place());
    let (line, column) = error.line_column(8);
    let (kind, faults) = (error.kind(), error.errors().len());
    format!(in alloc;
        "{file} {source:?} {error}; {span:?} {place:?}; {line} {column}; {kind:?}; {faults}"
    )
}

pub fn refusals(alloc: Global) -> Result<String, AllocError> {
    match parse(alloc, "foo.proto", "message {}") {
        Ok(_) => String::from_str(alloc, "accepted"),
        Err(ParseFailure::Refused(error)) => read(alloc, &error),
        Err(ParseFailure::OutOfMemory) => Err(AllocError),
    }
}

pub fn faults(alloc: Global) -> Result<String, AllocError> {
    match parse(alloc, "foo.proto", "message {}") {
        Err(ParseFailure::Refused(error)) => format!(in alloc; "{}", error.into_inner().len()),
        _ => Err(AllocError),
    }
}

// Whether the token is the word, and whether it is an identifier.
fn matched(alloc: Global, token: &Token<'_>) -> Result<String, AllocError> {
    let is_word = ExpectedToken::Token(Token::keyword(STREAM)).matches(token);
    let is_identifier = ExpectedToken::Ident.matches(token);
    format!(in alloc; "; {is_word} {is_identifier}")
}

pub fn expected_tokens(alloc: Global) -> Result<String, AllocError> {
    let word = matched(alloc, &Token::Ident("stream"))?;
    let longer = matched(alloc, &Token::Ident("streams"))?;
    let number = matched(alloc, &Token::IntLiteral(1))?;
    let mark = matched(alloc, &Token::Semicolon)?;
    format!(in alloc; "{}{word}{longer}{number}{mark}", ExpectedToken::Ident)
}

// Where the locations with each of four paths stand in the list.
fn indices(alloc: Global, info: &SourceCodeInfo) -> Result<String, AllocError>
    requires { AreByPath info.now.location }
{
    let (root, options) = (locate(info, &[]), locate(info, &[8]));
    let (later, none) = (locate(info, &[8, 999]), locate(info, &[9]));
    format!(in alloc; "{root:?} {options:?} {later:?} {none:?}")
}

// The span of the first field, the comment of its message, and the path around each of seven
// places.
fn around(alloc: Global, info: &SourceCodeInfo) -> Result<String, AllocError>
    requires { AreByPath info.now.location }
{
    let mut out = String::new(alloc);
    if let Some(field) = location(info, &[4, 0, 2, 0]) {
        write!(out, "{:?}", field.span)?;
    }
    write!(out, " {:?}", comments(info, &[4, 0]).leading)?;
    for (line, column) in [(3, 0), (4, 0), (4, 8), (5, 10), (5, 11), (5, 17), (6, 1)] {
        match declaration_at(info, line, column) {
            Some(found) => write!(out, "; {:?}", found.path)?,
            None => out.push_str("; none")?,
        }
    }
    Ok(out)
}

// Looks up the names at two paths: that of a field, and one at which no declaration is.
fn two_names(alloc: Global, file: &FileDescriptorProto) -> Result<String, AllocError> {
    let field = name_at(alloc, file, &[4, 0, 2, 0])?;
    let none = name_at(alloc, file, &[4, 0, 1])?;
    format!(in alloc; "{field:?} {none:?}")
}

// Writes the kind, the full name and the path of each declaration that it visits.
#[derive(Drop)]
struct Listing {
    out: String,
}

impl<'a> Visit<'a> for Listing {
    type Error = AllocError;

    fn visit(&mut self, path: &[i32], full_name: &str, part: Part<'a>) -> Result<(), AllocError> {
        Ok(write!(self.out, "; {} {full_name} {path:?}", part.kind())?)
    }
}

fn listed(alloc: Global, file: &FileDescriptorProto) -> Result<String, AllocError> {
    let out = String::new(alloc);
    let mut listing = Listing { out };
    walk(alloc, file, &mut listing)?;
    Ok(listing.out)
}

fn found_in(
    alloc: Global,
    file: &FileDescriptorProto,
    info: &SourceCodeInfo,
) -> Result<String, AllocError>
    requires { AreByPath info.now.location }
{
    let (indices, around) = (indices(alloc, info)?, around(alloc, info)?);
    let (names, listed) = (two_names(alloc, file)?, listed(alloc, file)?);
    format!(in alloc; "{indices}; {around}; {names}{listed}")
}

pub fn finds(alloc: Global) -> Result<String, AllocError> {
    let source =
        "package p;\noption a = 1; /* x */\noption b = 2;\n// of A\nmessage A {\n  optional int32 b = 1;\n}\n";
    match parse(alloc, "a.proto", source) {
        Ok(file) => match &file.source_code_info {
            Some(info) => found_in(alloc, &file, info),
            None => String::from_str(alloc, "no locations"),
        },
        Err(_) => Err(AllocError),
    }
}

pub fn lines(alloc: Global) -> Result<String, AllocError> {
    let lines = LineResolver::new(alloc, "a\nbc\n")?;
    let (first, second, third) = (lines.resolve(1), lines.resolve(4), lines.resolve(5));
    let within = lines.resolve_span(alloc, 2..4)?;
    let across = lines.resolve_span(alloc, 1..4)?;
    format!(in alloc; "{first:?} {second:?} {third:?} {within:?} {across:?}")
}
