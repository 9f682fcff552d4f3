//! Statements from words.

use protox_descriptor::descriptor::UninterpretedOption;
use protox_descriptor::descriptor::uninterpreted_option::NamePart;
use protox_descriptor::values::{Items, Text};
use std::alloc::{AllocError, Global};

fn part_of(alloc: Global, word: &str) -> Result<NamePart, AllocError> {
    let inside = word
        .strip_prefix('(')
        .and_then(|rest| rest.strip_suffix(')'));
    let name_part = Text::copy(alloc, inside.unwrap_or(word))?;
    Ok(NamePart {
        name_part,
        is_extension: inside.is_some(),
    })
}

fn name_of(alloc: Global, words: &str) -> Result<Items<NamePart>, AllocError> {
    let mut name = Items::new(alloc);
    for word in words.split('/') {
        name.push(part_of(alloc, word)?)?;
    }
    Ok(name)
}

// A copy of a text, if that is what is wanted.
fn text_if(alloc: Global, wanted: bool, text: &str) -> Result<Option<Text>, AllocError> {
    if !wanted {
        return Ok(None);
    }
    Ok(Some(Text::copy(alloc, text)?))
}

// The bytes in quotes, if there are some.
fn bytes_of(alloc: Global, value: &str) -> Result<Option<Items<u8>>, AllocError> {
    match value
        .strip_prefix('"')
        .and_then(|rest| rest.strip_suffix('"'))
    {
        Some(inside) => Ok(Some(Items::from_slice(alloc, inside.as_bytes())?)),
        None => Ok(None),
    }
}

// The text in braces, if there is one.
fn braces_of(alloc: Global, value: &str) -> Result<Option<Text>, AllocError> {
    match value
        .strip_prefix('{')
        .and_then(|rest| rest.strip_suffix('}'))
    {
        Some(inside) => Ok(Some(Text::copy(alloc, inside)?)),
        None => Ok(None),
    }
}

// A statement, as `NAME = VALUE`.
fn statement(alloc: Global, words: &str) -> Result<UninterpretedOption, AllocError> {
    let (name, value) = words.split_once(" = ").unwrap_or((words, ""));
    let string_value = bytes_of(alloc, value)?;
    let aggregate_value = braces_of(alloc, value)?;
    let positive_int_value = value.parse::<u64>().ok();
    let is_word = string_value.is_none() && aggregate_value.is_none();
    let identifier_value = text_if(alloc, is_word && positive_int_value.is_none(), value)?;
    Ok(UninterpretedOption {
        name: name_of(alloc, name)?,
        identifier_value,
        positive_int_value,
        negative_int_value: None,
        double_value: None,
        string_value,
        aggregate_value,
    })
}

/// The statements of a line.
pub(crate) fn statements(
    alloc: Global,
    line: &str,
) -> Result<Items<UninterpretedOption>, AllocError> {
    let mut found = Items::new(alloc);
    for words in line.split('|') {
        found.push(statement(alloc, words.trim())?)?;
    }
    Ok(found)
}
