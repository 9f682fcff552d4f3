//! Calls of names, texts and lists, and of numbers that have names.

use protox_parse::case::{is_valid_group_name, is_valid_ident, to_pascal_case};
use protox_parse::descriptor::field_descriptor_proto::{FieldType, Label};
use protox_parse::values::{Items, Numbers, Text};
use std::alloc::{AllocError, Global};
use std::convert::AsStr;

// Whether each is the name of something, and of a group.
pub fn identifiers(alloc: Global) -> Result<String, AllocError> {
    let mut out = String::new(alloc);
    for name in [
        "", "0a", "_a", "_", "a", "a0_", "ab", "Ab", "A0_b", "a-b", "Aé",
    ] {
        let (ident, group) = (is_valid_ident(name), is_valid_group_name(name));
        let told = format!(in alloc; "{name:?} {ident} {group}; ")?;
        out.push_str(told.as_str())?;
    }
    Ok(out)
}

pub fn pascal_case(alloc: Global) -> Result<String, AllocError> {
    let mut out = String::new(alloc);
    for name in ["", "foo_bar", "_a__b", "my_map", "a0_1b", "é_éa"] {
        let made = to_pascal_case(alloc, name)?;
        out.push_str(made.as_str())?;
        out.push_str("; ")?;
    }
    Ok(out)
}

pub fn texts(alloc: Global) -> Result<String, AllocError> {
    let mut text = Text::joined(alloc, "abcdefghijklmno", "pqrstuvwxyzéAB")?;
    text.push_str(alloc, "C")?;
    let (len, is_empty) = (text.len(), text.is_empty());
    let copy = Text::copy(alloc, text.as_str())?;
    let (same, whole) = (copy == text, text.into_string(alloc)?);
    format!(in alloc; "{copy} {copy:?} {whole} {len} {is_empty} {same}")
}

pub fn short_texts(alloc: Global) -> Result<String, AllocError> {
    let mut text = Text::copy(alloc, "ab")?;
    text.push_str(alloc, "c")?;
    let (other, made) = (Text::copy(alloc, "b")?, String::from_str(alloc, "abc")?);
    let (is_less, is_equal) = (text < other, text.cmp(&text).is_eq());
    let same = text == Text::from_string(made);
    format!(in alloc; "{} {is_less} {is_equal} {same}", AsStr::as_str(&text))
}

pub fn lists(alloc: Global) -> Result<String, AllocError> {
    let mut list = Items::from_slice(alloc, &[1, 2])?;
    list.push(3)?;
    list.extend_from_slice(&[4, 5])?;
    list.truncate(4);
    let (third, past, len) = (list.get(2).copied(), list.get(4).is_none(), list.len());
    let found = format!(in alloc; "{list:?} {third:?} {past} {len}")?;
    format!(in alloc; "{found} {}", list.into_vec().len())
}

pub fn changed_lists(alloc: Global) -> Result<String, AllocError> {
    let mut list = Items::from_slice(alloc, &[1u8, 3])?;
    list.insert(1, 2)?;
    if let Some(number) = list.get_mut(0) {
        *number = 7;
    }
    for number in list.iter_mut() {
        *number += 1;
    }
    let mut sum: u8 = 0;
    for number in &list {
        sum = sum.saturating_add(*number);
    }
    let last = list.pop();
    format!(in alloc; "{list:?} {last:?} {sum}")
}

pub fn numbers(alloc: Global) -> Result<String, AllocError> {
    let few = Numbers::from_slice(alloc, &[1, 2])?;
    let many = Numbers::joined(alloc, few.as_slice(), &[3, 4, 5, 6, 7, 8])?;
    let (same, len, is_empty) = (few == many, few.len(), few.is_empty());
    let all = many.into_vec(alloc)?;
    format!(in alloc; "{few:?} {all:?} {same} {len} {is_empty}")
}

// The numbers of labels and types, and the words that a source has for numbers.
pub fn named_numbers(alloc: Global) -> Result<String, AllocError> {
    let (label, field_type) = (Label::Repeated as i32, FieldType::Sint64 as i32);
    let mut out = format!(in alloc; "{label} {field_type}")?;
    for number in 0..20 {
        if let Some(label) = Label::from_number(number) {
            out.push_str(format!(in alloc; " {number} {label}")?.as_str())?;
        }
        if let Some(field_type) = FieldType::from_number(number) {
            out.push_str(format!(in alloc; " {number} {field_type}")?.as_str())?;
        }
    }
    Ok(out)
}
