//! What is known of the files of a set, and of their messages, before their parts are looked at.

ghost use Rattle.std.specs.Prelude.{◌≡◌, false, map, IfOk};
ghost use Rattle.std.specs.Option.{option_copied, option_map_or};
ghost use Rattle.protox_option_checks.specs.Marks as words;

use crate::statements::{is_true, says};
use protox_descriptor::descriptor::{DescriptorProto, FileDescriptorProto, UninterpretedOption};
use protox_descriptor::uninterpreted::HasUninterpreted;
use protox_settings::message_numbered;
use protox_symbols::Symbols;
use std::alloc::{AllocError, Global};
use std::marker::Model;

/// Marks of the files, by their numbers in the list, and of messages, by their numbers in the
/// table.
#[derive(Drop)]
pub(crate) struct Marks {
    // Files for the lite runtime.
    lite: Vec<bool>,
    // Files of proto3.
    proto3: Vec<bool>,
    // Files for the lite runtime that ask for generic services.
    without_services: Vec<bool>,
    // Messages that are message sets.
    message_sets: Vec<bool>,
}

impl Model for Marks {
    ghost use Rattle.protox_option_checks.specs.Marks as seen;

    ghost Value = { seen.Marks };

    ghost view = { λ m. record {
      lite = m.lite.items;
      proto3 = m.proto3.items;
      without_services = m.without_services.items;
      message_sets = m.message_sets.items;
    } };
}

fn statements_of_file(file: &FileDescriptorProto) -> &[UninterpretedOption]
    ensures { result.now ≡ words.statements_of_file file.now }
{
    match &file.options {
        Some(options) => options.uninterpreted(),
        None => &[],
    }
}

fn is_lite(file: &FileDescriptorProto) -> bool
    ensures { result ≡ words.is_lite file.now }
{
    says(statements_of_file(file), "optimize_for", "LITE_RUNTIME")
}

fn is_proto3(file: &FileDescriptorProto) -> bool
    ensures { result ≡ words.is_proto3 file.now }
{
    match &file.syntax {
        Some(syntax) => syntax.as_str() == "proto3",
        None => false,
    }
}

fn has_generic_services(file: &FileDescriptorProto) -> bool
    ensures { result ≡ words.has_generic_services file.now }
{
    let statements = statements_of_file(file);
    is_true(statements, "cc_generic_services") || is_true(statements, "java_generic_services")
}

fn bars_services(file: &FileDescriptorProto) -> bool
    ensures { result ≡ words.bars_services file.now }
{
    is_lite(file) && has_generic_services(file)
}

fn statements_of_message(message: &DescriptorProto) -> &[UninterpretedOption]
    ensures { result.now ≡ words.statements_of_message message.now }
{
    match &message.options {
        Some(options) => options.uninterpreted(),
        None => &[],
    }
}

/// Whether a message is a message set.
pub(crate) fn is_message_set(message: &DescriptorProto) -> bool
    ensures { result ≡ words.is_message_set message.now }
{
    is_true(statements_of_message(message), "message_set_wire_format")
}

// Whether it is a message set, if it is a message.
fn is_any_set(message: Option<&DescriptorProto>) -> bool
    ensures { result ≡ option_map_or words.is_message_set (option_copied message.entry) false }
{
    match message {
        Some(message) => is_message_set(message),
        None => false,
    }
}

fn lite_files(alloc: Global, files: &[FileDescriptorProto]) -> Result<Vec<bool>, AllocError>
    ensures { IfOk result (λ made. made.items ≡ map words.is_lite files.now) }
{
    let mut made = Vec::with_capacity(alloc, files.len())?;
    for file in files {
        made.push(is_lite(file))?;
    }
    Ok(made)
}

fn proto3_files(alloc: Global, files: &[FileDescriptorProto]) -> Result<Vec<bool>, AllocError>
    ensures { IfOk result (λ made. made.items ≡ map words.is_proto3 files.now) }
{
    let mut made = Vec::with_capacity(alloc, files.len())?;
    for file in files {
        made.push(is_proto3(file))?;
    }
    Ok(made)
}

fn without_services(alloc: Global, files: &[FileDescriptorProto]) -> Result<Vec<bool>, AllocError>
    ensures { IfOk result (λ made. made.items ≡ map words.bars_services files.now) }
{
    let mut made = Vec::with_capacity(alloc, files.len())?;
    for file in files {
        made.push(bars_services(file))?;
    }
    Ok(made)
}

fn message_sets(
    alloc: Global,
    symbols: &Symbols,
    files: &[FileDescriptorProto],
) -> Result<Vec<bool>, AllocError>
    ensures { IfOk result (λ made. made.items
        ≡ map (words.is_set_at files.now) symbols.now.things) }
{
    let count = symbols.len();
    let mut made = Vec::with_capacity(alloc, count)?;
    for number in 0..count {
        made.push(is_any_set(message_numbered(symbols, files, number)))?;
    }
    Ok(made)
}

/// Whether what has a number is marked.
fn is_marked(marks: &[bool], number: usize) -> bool
    ensures { result ≡ words.is_marked marks.now number }
{
    marks.get(number).copied().unwrap_or(false)
}

impl Marks {
    /// The marks of the files of a table.
    ///
    /// # Errors
    /// `AllocError` where memory runs out.
    pub(crate) fn of(
        alloc: Global,
        symbols: &Symbols,
        files: &[FileDescriptorProto],
    ) -> Result<Marks, AllocError>
        ensures { IfOk result (λ made. made ≡ words.marks_of symbols.now files.now) }
    {
        let lite = lite_files(alloc, files)?;
        let proto3 = proto3_files(alloc, files)?;
        let without_services = without_services(alloc, files)?;
        let message_sets = message_sets(alloc, symbols, files)?;
        Ok(Marks {
            lite,
            proto3,
            without_services,
            message_sets,
        })
    }

    /// Whether the file with a number is for the lite runtime.
    pub(crate) fn is_lite(&self, file: usize) -> bool
        ensures { result ≡ words.is_marked self.now.lite file }
    {
        is_marked(self.lite.as_slice(), file)
    }

    /// Whether it is of proto3.
    pub(crate) fn is_proto3(&self, file: usize) -> bool
        ensures { result ≡ words.is_marked self.now.proto3 file }
    {
        is_marked(self.proto3.as_slice(), file)
    }

    /// Whether it may have no services.
    pub(crate) fn bars_services(&self, file: usize) -> bool
        ensures { result ≡ words.is_marked self.now.without_services file }
    {
        is_marked(self.without_services.as_slice(), file)
    }

    /// Whether what has a number in the table is a message set.
    pub(crate) fn is_message_set(&self, number: usize) -> bool
        ensures { result ≡ words.is_marked self.now.message_sets number }
    {
        is_marked(self.message_sets.as_slice(), number)
    }
}
