//! What is wrong with the extensions of a file.

ghost use Rattle.std.specs.Prelude.{◌≡◌, ◌≤◌, ◌++◌, ◌∷◌, [], ℕ, List, map, slice_get, All, IfOk, OnOk};
ghost use Rattle.std.specs.List.{flat_map};
ghost use Rattle.std.specs.Option.{option_copied};
ghost use Rattle.protox_descriptor.specs.declared.descriptor.FileDescriptorProto.{FileDescriptorProto};
ghost use Rattle.protox_link_checks.specs.Extensions as words;
ghost use Rattle.protox_link_checks.specs.Ranges.{AreRangesOf, IsSmall, number_span};
ghost use Rattle.protox_numbers.specs.Numbers as numbers;
ghost use Rattle.protox_symbols.specs.Symbols.{Table};

use crate::extensions::{Extension, extensions_of};
use crate::proto3::is_proto3;
use crate::ranges::{Ranges, moved};
use crate::uses::add_fault;
use protox_descriptor::descriptor::FileDescriptorProto;
use protox_descriptor::tag::field::{EXTENDEE, NUMBER};
use protox_link_fault::{LinkFault, LinkFaultKind};
use protox_numbers::{Clash, single, with_earlier};
use protox_spans::{Span, first_met};
use protox_symbols::Symbols;
use protox_views::View;
use std::alloc::{AllocError, Global};

// Adds a fault where the number of an extension is in no range of the message that it extends.
fn check_range(
    alloc: Global,
    ranges: &Ranges,
    file: usize,
    extension: &Extension,
    faults: &mut Vec<LinkFault>,
) -> Result<(), AllocError>
    ensures { (files : List FileDescriptorProto) (table : Table) → AreRangesOf files table ranges.now
        → OnOk result (faults.new.items ≡ faults.old.items ++ words.range_faults file
        (words.ranges_numbered files table extension.now.message) extension.now) }
{
    if extension.message > 2147483647 {
        return Err(AllocError);
    }
    if ranges.has(extension.message, extension.number) {
        return Ok(());
    }
    let kind = LinkFaultKind::OutOfRanges(extension.message);
    add_fault(alloc, file, extension.path.as_slice(), NUMBER, kind, faults)
}

// Adds the faults of all extensions of a file whose numbers are in no range.
fn check_ranges(
    alloc: Global,
    ranges: &Ranges,
    file: usize,
    extensions: &[Extension],
    faults: &mut Vec<LinkFault>,
) -> Result<(), AllocError>
    ensures { (files : List FileDescriptorProto) (table : Table) → AreRangesOf files table ranges.now
        → OnOk result (faults.new.items ≡ faults.old.items ++ flat_map (λ e. words.range_faults file
        (words.ranges_numbered files table e.message) e) extensions.now) }
{
    for extension in extensions {
        check_range(alloc, ranges, file, extension, faults)?;
    }
    Ok(())
}

// The numbers of extensions, moved to where those of the messages are that they extend.
fn number_spans(alloc: Global, extensions: &[Extension]) -> Result<Vec<Span>, AllocError>
    ensures spans { IfOk result (λ made. made.items ≡ map number_span extensions.now) }
    ensures small { OnOk result (All (λ e. IsSmall (numbers.single e.number)) extensions.now) }
{
    let mut made = Vec::new(alloc);
    for extension in extensions {
        if extension.message > 2147483647 {
            return Err(AllocError);
        }
        made.push(moved(extension.message, single(extension.number)))?;
    }
    Ok(made)
}

// Each extension with an earlier one that has the same message and number.
fn reused_extensions(alloc: Global, extensions: &[Extension]) -> Result<Vec<Clash>, AllocError>
    ensures { IfOk result (λ made. made.items ≡ words.reused_extensions extensions.now) }
{
    let spans = number_spans(alloc, extensions)?;
    let met = first_met(alloc, spans.as_slice(), spans.as_slice())?;
    with_earlier(alloc, met.as_slice())
}

// The extension with an index.
fn nth(extensions: &[Extension], index: usize) -> Option<&Extension>
    ensures { option_copied result ≡ slice_get extensions.now index }
{
    extensions.get(index)
}

// Adds the fault of an extension whose message and number an earlier one has.
fn add_reused(
    alloc: Global,
    file: usize,
    extensions: &[Extension],
    clash: Clash,
    faults: &mut Vec<LinkFault>,
) -> Result<(), AllocError>
    ensures { OnOk result (faults.new.items ≡ faults.old.items ++ words.pair_faults file
        (slice_get extensions.now clash.part) (slice_get extensions.now clash.with)) }
{
    let Some(extension) = nth(extensions, clash.part) else {
        return Ok(());
    };
    let Some(earlier) = nth(extensions, clash.with) else {
        return Ok(());
    };
    let kind = LinkFaultKind::ExtensionReused(extension.message, earlier.own);
    add_fault(alloc, file, extension.path.as_slice(), NUMBER, kind, faults)
}

// Adds the faults of all such extensions.
fn check_reused(
    alloc: Global,
    file: usize,
    extensions: &[Extension],
    faults: &mut Vec<LinkFault>,
) -> Result<(), AllocError>
    ensures { OnOk result
        (faults.new.items ≡ faults.old.items ++ words.reused_faults file extensions.now) }
{
    let clashes = reused_extensions(alloc, extensions)?;
    for clash in &clashes {
        add_reused(alloc, file, extensions, *clash, faults)?;
    }
    Ok(())
}

// Whether this is a dot and the full name of a message of options.
fn is_options(name: &str) -> bool
    ensures { result ≡ words.is_options name.now }
{
    matches!(
        name,
        ".google.protobuf.FileOptions"
            | ".google.protobuf.MessageOptions"
            | ".google.protobuf.FieldOptions"
            | ".google.protobuf.OneofOptions"
            | ".google.protobuf.ExtensionRangeOptions"
            | ".google.protobuf.EnumOptions"
            | ".google.protobuf.EnumValueOptions"
            | ".google.protobuf.ServiceOptions"
            | ".google.protobuf.MethodOptions"
            | ".proto2.FileOptions"
            | ".proto2.MessageOptions"
            | ".proto2.FieldOptions"
            | ".proto2.OneofOptions"
            | ".proto2.ExtensionRangeOptions"
            | ".proto2.EnumOptions"
            | ".proto2.EnumValueOptions"
            | ".proto2.ServiceOptions"
            | ".proto2.MethodOptions"
    )
}

// Adds a fault where an extension in proto3 extends what is no message of options.
fn check_options(
    alloc: Global,
    symbols: &Symbols,
    file: usize,
    extension: &Extension,
    faults: &mut Vec<LinkFault>,
) -> Result<(), AllocError>
    ensures { OnOk result (faults.new.items
        ≡ faults.old.items ++ words.options_faults file symbols.now extension.now) }
{
    let name = symbols.dotted(alloc, extension.message)?;
    if is_options(name.as_str()) {
        return Ok(());
    }
    let kind = LinkFaultKind::NotOfOptions;
    add_fault(
        alloc,
        file,
        extension.path.as_slice(),
        EXTENDEE,
        kind,
        faults,
    )
}

// Adds the faults of all extensions of a file that extend no message of options.
fn check_all_options(
    alloc: Global,
    symbols: &Symbols,
    file: usize,
    extensions: &[Extension],
    faults: &mut Vec<LinkFault>,
) -> Result<(), AllocError>
    ensures { OnOk result (faults.new.items
        ≡ faults.old.items ++ flat_map (words.options_faults file symbols.now) extensions.now) }
{
    for extension in extensions {
        check_options(alloc, symbols, file, extension, faults)?;
    }
    Ok(())
}

/// Adds what is wrong with the extensions of a file: numbers that are in no extension range of the
/// message, then those that an earlier extension has, and in proto3 extensions of what is no message
/// of options.
///
/// # Errors
/// `AllocError` where memory runs out, or where a list has more than 2,147,483,648 parts: no path
/// can count them. Some faults may have been added then.
pub fn check_extensions(
    alloc: Global,
    view: &View<'_>,
    ranges: &Ranges,
    number: usize,
    file: &FileDescriptorProto,
    faults: &mut Vec<LinkFault>,
) -> Result<(), AllocError>
    ensures { (files : List FileDescriptorProto) → AreRangesOf files view.now.symbols.now ranges.now
        → OnOk result (faults.new.items ≡ faults.old.items ++ words.extended_faults files
        view.now.symbols.now number view.now.sees.now view.now.packages file.now) }
{
    let extensions = extensions_of(alloc, view, file)?;
    check_ranges(alloc, ranges, number, extensions.as_slice(), faults)?;
    check_reused(alloc, number, extensions.as_slice(), faults)?;
    if !is_proto3(file) {
        return Ok(());
    }
    check_all_options(alloc, view.symbols, number, extensions.as_slice(), faults)
}
