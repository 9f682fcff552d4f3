//! Where the parts of a file stand in its source.

use crate::told::Told;
use protox_descriptor::descriptor::FileDescriptorProto;
use protox_descriptor::descriptor::source_code_info::Location;
use protox_descriptor::tag::file::DEPENDENCY;
use protox_fault::error::Span;
use protox_lexeme::token::Token;
use std::alloc::{AllocError, Global};

// How many of these locations, which are in the order of their paths, come before this path.
fn count_before(locations: &[Location], path: &[i32]) -> usize {
    locations.partition_point(|location| location.path.as_slice().cmp(&path).is_lt())
}

// The part of the source that the location with this path has.
fn at(told: &Told<'_>, locations: &[Location], path: &[i32]) -> Option<Span> {
    let location = locations.get(count_before(locations, path))?;
    if location.path.as_slice() != path {
        return None;
    }
    match location.span.as_slice() {
        [line, column, end] => told.span((*line, *column), (*line, *end)),
        [line, column, last, end] => told.span((*line, *column), (*last, *end)),
        _ => None,
    }
}

/// Where a part of a file stands; where that is in which it is, if the source doesn't write the part.
pub(crate) fn span_of(told: &Told<'_>, file: &FileDescriptorProto, path: &[i32]) -> Option<Span> {
    let info = file.source_code_info.as_ref()?;
    let locations = info.location.as_slice();
    for shorter in 0..path.len() {
        if let Some(span) = at(told, locations, &path[..path.len() - shorter]) {
            return Some(span);
        }
    }
    None
}

// Whether it is a comment or the end of a line.
fn is_gap(token: &Token<'_>) -> bool {
    match token {
        Token::LineComment(_) | Token::BlockComment(_) | Token::Newline => true,
        _ => false,
    }
}

// The places of the tokens of a statement in its text: those in front of the first `=`, and the first
// behind it. Comments are passed by.
fn tokens_of(alloc: Global, statement: &str) -> Result<(Vec<Span>, Option<Span>), AllocError> {
    let mut lexer = Token::lexer(alloc, statement);
    let mut front = Vec::new(alloc);
    let mut behind = false;
    // there is no more than a token for each byte
    for _ in 0..statement.len() {
        let Some(Ok(token)) = lexer.next()? else {
            return Ok((front, None));
        };
        if is_gap(&token) {
            continue;
        }
        if behind {
            return Ok((front, Some(lexer.span())));
        }
        match token {
            Token::Equals => behind = true,
            _ => front.push(lexer.span())?,
        }
    }
    Ok((front, None))
}

fn is_text(statement: &str, span: &Span, text: &str) -> bool {
    statement.get(span.start..span.end) == Some(text)
}

// The place of the name among the tokens in front of the `=`: all of them but the word `option`, unless
// that is the name.
fn name_of(statement: &str, front: &[Span]) -> Option<Span> {
    let (first, last) = (front.first()?, front.last()?);
    match front.get(1) {
        Some(second) if is_text(statement, first, "option") && !is_text(statement, second, ".") => {
            Some(second.start..last.end)
        }
        _ => Some(first.start..last.end),
    }
}

/// The place of the name of an option's statement, in the text of the statement.
///
/// # Errors
/// `AllocError` where memory runs out.
pub(crate) fn name_in(alloc: Global, statement: &str) -> Result<Option<Span>, AllocError> {
    let (front, _) = tokens_of(alloc, statement)?;
    Ok(name_of(statement, front.as_slice()))
}

/// The place of the first token of the value of an option's statement, in the text of the statement.
///
/// # Errors
/// `AllocError` where memory runs out.
pub(crate) fn value_in(alloc: Global, statement: &str) -> Result<Option<Span>, AllocError> {
    let (_, value) = tokens_of(alloc, statement)?;
    Ok(value)
}

// The index of the import of this name.
fn import_of(file: &FileDescriptorProto, name: &str) -> Option<i32> {
    let index = file
        .dependency
        .iter()
        .position(|import| import.as_str() == name)?;
    i32::try_from(index).ok()
}

/// Where a file imports the next one of a circle, which the file begins.
pub(crate) fn import_span(
    told: &Told<'_>,
    files: &[FileDescriptorProto],
    file: &FileDescriptorProto,
    circle: &[usize],
) -> Option<Span> {
    let next = circle.get(1).or(circle.first())?;
    let name = files.get(*next)?.name.as_ref()?;
    let index = import_of(file, name.as_str())?;
    span_of(told, file, &[DEPENDENCY, index])
}
