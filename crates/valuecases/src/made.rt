//! Statements and enums, from words.

use protox_descriptor::descriptor::{
    EnumDescriptorProto, EnumValueDescriptorProto, UninterpretedOption,
};
use protox_descriptor::values::{Items, Text};
use std::alloc::{AllocError, Global};

fn text_if(alloc: Global, wanted: bool, text: &str) -> Result<Option<Text>, AllocError> {
    if !wanted {
        return Ok(None);
    }
    Ok(Some(Text::copy(alloc, text)?))
}

// Bytes from their digits. Digits that are none give no bytes.
fn bytes_of(alloc: Global, digits: &str) -> Items<u8> {
    match hex::decode(alloc, digits) {
        Ok(bytes) => Items::from_vec(bytes),
        Err(_) => Items::new(alloc),
    }
}

fn bytes_if(alloc: Global, wanted: bool, digits: &str) -> Option<Items<u8>> {
    if wanted {
        Some(bytes_of(alloc, digits))
    } else {
        None
    }
}

fn positive_if(wanted: bool, text: &str) -> Option<u64> {
    if wanted {
        text.parse::<u64>().ok()
    } else {
        None
    }
}

fn negative_if(wanted: bool, text: &str) -> Option<i64> {
    if wanted {
        text.parse::<i64>().ok()
    } else {
        None
    }
}

/// A statement whose value is of this part.
pub(crate) fn statement(
    alloc: Global,
    part: &str,
    text: &str,
) -> Result<UninterpretedOption, AllocError> {
    let identifier_value = text_if(alloc, part == "identifier", text)?;
    let double_value = text_if(alloc, part == "double", text)?;
    let aggregate_value = text_if(alloc, part == "aggregate", text)?;
    Ok(UninterpretedOption {
        name: Items::new(alloc),
        identifier_value,
        positive_int_value: positive_if(part == "positive", text),
        negative_int_value: negative_if(part == "negative", text),
        double_value,
        string_value: bytes_if(alloc, part == "string", text),
        aggregate_value,
    })
}

fn value_of(alloc: Global, word: &str) -> Result<EnumValueDescriptorProto, AllocError> {
    let (name, number) = word.split_once('=').unwrap_or((word, ""));
    Ok(EnumValueDescriptorProto {
        name: Some(Text::copy(alloc, name)?),
        number: number.parse::<i32>().ok(),
        options: None,
    })
}

fn values_of(alloc: Global, words: &str) -> Result<Items<EnumValueDescriptorProto>, AllocError> {
    let mut values = Items::new(alloc);
    for word in words.split(' ') {
        values.push(value_of(alloc, word)?)?;
    }
    Ok(values)
}

/// An enum from its name and its values.
pub(crate) fn enum_of(alloc: Global, words: &str) -> Result<EnumDescriptorProto, AllocError> {
    let (name, rest) = words.split_once(' ').unwrap_or((words, ""));
    let name = Text::copy(alloc, name)?;
    let values = values_of(alloc, rest)?;
    let mut of = EnumDescriptorProto::new(alloc);
    of.name = Some(name);
    of.value = values;
    Ok(of)
}
