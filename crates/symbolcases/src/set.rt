//! Files, from lines.

use protox_descriptor::descriptor::{
    DescriptorProto, EnumDescriptorProto, EnumValueDescriptorProto, FieldDescriptorProto,
    FileDescriptorProto, MethodDescriptorProto, OneofDescriptorProto, ServiceDescriptorProto,
};
use protox_descriptor::values::Text;
use std::alloc::{AllocError, Global};

/// Files, and the messages that are begun in the last one and not ended, from the outside in.
#[derive(Drop)]
pub(crate) struct Set {
    pub(crate) files: Vec<FileDescriptorProto>,
    pub(crate) open: Vec<DescriptorProto>,
}

// Without a name the text is empty.
fn name_of(alloc: Global, text: &str) -> Result<Option<Text>, AllocError> {
    if text.is_empty() {
        return Ok(None);
    }
    Ok(Some(Text::copy(alloc, text)?))
}

fn field_of(alloc: Global, name: &str) -> Result<FieldDescriptorProto, AllocError> {
    let name = name_of(alloc, name)?;
    Ok(FieldDescriptorProto::plain(name, None, None, None, None, None, None))
}

fn enum_of(alloc: Global, words: &str) -> Result<EnumDescriptorProto, AllocError> {
    let (name, values) = words.split_once(' ').unwrap_or((words, ""));
    let mut made = EnumDescriptorProto::new(alloc);
    made.name = name_of(alloc, name)?;
    for value in values.split_whitespace() {
        made.value.push(EnumValueDescriptorProto {
            name: name_of(alloc, value)?,
            number: None,
            options: None,
        })?;
    }
    Ok(made)
}

fn service_of(alloc: Global, words: &str) -> Result<ServiceDescriptorProto, AllocError> {
    let (name, methods) = words.split_once(' ').unwrap_or((words, ""));
    let mut made = ServiceDescriptorProto::new(alloc);
    made.name = name_of(alloc, name)?;
    for method in methods.split_whitespace() {
        let mut one = MethodDescriptorProto::new(alloc);
        one.name = name_of(alloc, method)?;
        made.method.push(one)?;
    }
    Ok(made)
}

// Puts the last message that is begun into the one around it, or into the file.
fn close(set: &mut Set) -> Result<(), AllocError> {
    let Some(message) = set.open.pop() else {
        return Ok(());
    };
    if let Some(outer) = set.open.last_mut() {
        outer.nested_type.push(message)?;
        return Ok(());
    }
    if let Some(file) = set.files.last_mut() {
        file.message_type.push(message)?;
    }
    Ok(())
}

fn add_to_message(
    alloc: Global,
    message: &mut DescriptorProto,
    verb: &str,
    rest: &str,
) -> Result<(), AllocError> {
    match verb {
        "field" => message.field.push(field_of(alloc, rest)?)?,
        "extension" => message.extension.push(field_of(alloc, rest)?)?,
        "values" => message.enum_type.push(enum_of(alloc, rest)?)?,
        _ => {
            let name = name_of(alloc, rest)?;
            message.oneof_decl.push(OneofDescriptorProto {
                name,
                options: None,
            })?;
        }
    }
    Ok(())
}

fn add_to_file(
    alloc: Global,
    file: &mut FileDescriptorProto,
    verb: &str,
    rest: &str,
) -> Result<(), AllocError> {
    match verb {
        "extension" => file.extension.push(field_of(alloc, rest)?)?,
        "values" => file.enum_type.push(enum_of(alloc, rest)?)?,
        _ => file.service.push(service_of(alloc, rest)?)?,
    }
    Ok(())
}

/// Adds what a line says to the set.
pub(crate) fn note(alloc: Global, set: &mut Set, verb: &str, rest: &str) -> Result<(), AllocError> {
    if verb == "begin" {
        let mut file = FileDescriptorProto::new(alloc);
        file.package = name_of(alloc, rest)?;
        set.files.push(file)?;
        return Ok(());
    }
    if verb == "open" {
        let mut message = DescriptorProto::new(alloc);
        message.name = name_of(alloc, rest)?;
        set.open.push(message)?;
        return Ok(());
    }
    if verb == "close" {
        return close(set);
    }
    if let Some(message) = set.open.last_mut() {
        return add_to_message(alloc, message, verb, rest);
    }
    if let Some(file) = set.files.last_mut() {
        return add_to_file(alloc, file, verb, rest);
    }
    Ok(())
}
