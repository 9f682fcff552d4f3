//! The parts of a record, each put behind what stands there.

ghost use Rattle.std.specs.Prelude.{◌≡◌, ◌≤◌, ◌++◌, length, min, IfOk, OnOk};
ghost use Rattle.std.specs.String.{string_bytes};
ghost use Rattle.protox_fault.specs.FaultTexts.{text_of};
ghost use Rattle.protox_fault.specs.FaultNotes.{second_label_of};
ghost use Rattle.protox_places.specs.Lines.{starts};
ghost use Rattle.protox_places.specs.Lines as places;
ghost use Rattle.protox_records.specs.Kinds.{kind_of};
ghost use Rattle.protox_records.specs.Records as spelled;

use crate::kinds::kind_number;
use protox_fault::error::{ParseErrorKind, Span};
use protox_places::faults::first_place;
use protox_places::lines::LineResolver;
use std::alloc::{AllocError, Global};

/// Adds a number: four bytes, the lowest first. Of one that four bytes cannot hold, the lowest four.
///
/// # Errors
/// `AllocError` where memory runs out. Then nothing is said of the bytes.
#[tactic(auto, unfolding(crate::specs::Records::number))]
pub fn push_number(out: &mut Vec<u8>, n: usize) -> Result<(), AllocError>
    ensures { OnOk result (out.new.items ≡ out.old.items ++ spelled.number n) }
{
    let bytes = [
        (n % 0x100) as u8,
        (n / 0x100 % 0x100) as u8,
        (n / 0x1_0000 % 0x100) as u8,
        (n / 0x100_0000 % 0x100) as u8,
    ];
    out.extend_from_slice(&bytes)
}

/// Adds a text behind its length in bytes.
///
/// # Errors
/// `AllocError` where memory runs out. Then nothing is said of the bytes.
pub fn push_text(out: &mut Vec<u8>, text: &str) -> Result<(), AllocError>
    ensures { OnOk result (out.new.items ≡ out.old.items ++ spelled.counted text.now) }
{
    push_number(out, text.len())?;
    out.extend_from_slice(text.as_bytes())
}

// Line and column of an offset, both from 0.
fn position(source: &str, lines: &LineResolver, offset: usize) -> (usize, usize)
    requires fits { length source.now ≤ 2147483647 }
    requires resolves { lines.now ≡ starts 0 source.now }
    ensures line { result.0 ≡ places.line source.now (min offset (length source.now)) }
    ensures column { result.1 ≡ places.column source.now (min offset (length source.now)) }
{
    let (line, column) = lines.resolve(offset.min(source.len()));
    let line = line.unsigned_abs() as usize;
    let column = column.unsigned_abs() as usize;
    (line, column)
}

// Adds the offsets of a span.
fn push_offsets(out: &mut Vec<u8>, span: &Span) -> Result<(), AllocError>
    ensures { OnOk result (out.new.items ≡ out.old.items ++ (spelled.number span.now.start ++ spelled.number span.now.end)) }
{
    push_number(out, span.start)?;
    push_number(out, span.end)
}

// Adds line and column of an offset.
fn push_position(
    out: &mut Vec<u8>,
    source: &str,
    lines: &LineResolver,
    offset: usize,
) -> Result<(), AllocError>
    requires fits { length source.now ≤ 2147483647 }
    requires resolves { lines.now ≡ starts 0 source.now }
    ensures { OnOk result (out.new.items ≡ out.old.items ++ spelled.position source.now offset) }
{
    let (line, column) = position(source, lines, offset);
    push_number(out, line)?;
    push_number(out, column)
}

// Adds a place.
fn push_place(
    out: &mut Vec<u8>,
    source: &str,
    lines: &LineResolver,
    span: &Span,
) -> Result<(), AllocError>
    requires fits { length source.now ≤ 2147483647 }
    requires resolves { lines.now ≡ starts 0 source.now }
    ensures { OnOk result (out.new.items ≡ out.old.items ++ spelled.place source.now span.now) }
{
    push_offsets(out, span)?;
    push_position(out, source, lines, span.start)
}

// The place of a fault, the first where it has two; of the whole source its start.
fn place_of(source: &str, fault: &ParseErrorKind) -> Span
    ensures { result ≡ spelled.place_of source.now fault.now }
{
    match first_place(source, fault) {
        Some(span) => span,
        None => 0..0,
    }
}

// Adds the number of a fault's kind.
fn push_kind(out: &mut Vec<u8>, fault: &ParseErrorKind) -> Result<(), AllocError>
    ensures { OnOk result (out.new.items ≡ out.old.items ++ spelled.number (kind_of fault.now)) }
{
    push_number(out, kind_number(fault))
}

// Adds the place of a fault.
fn push_fault_place(
    out: &mut Vec<u8>,
    source: &str,
    lines: &LineResolver,
    fault: &ParseErrorKind,
) -> Result<(), AllocError>
    requires fits { length source.now ≤ 2147483647 }
    requires resolves { lines.now ≡ starts 0 source.now }
    ensures { OnOk result (out.new.items ≡ out.old.items ++ spelled.place source.now (spelled.place_of source.now fault.now)) }
{
    let span = place_of(source, fault);
    push_place(out, source, lines, &span)
}

// Adds what is wrong.
fn push_message(alloc: Global, out: &mut Vec<u8>, fault: &ParseErrorKind) -> Result<(), AllocError>
    ensures { OnOk result (out.new.items ≡ out.old.items ++ spelled.counted (text_of fault.now)) }
{
    let text = format!(in alloc; "{fault}")?;
    push_text(out, text.as_str())
}

// The label at the place of a fault, or the empty text.
fn label_at(fault: &ParseErrorKind) -> &'static str
    ensures { result.now ≡ spelled.label_text fault.now }
{
    match fault.label() {
        Some(label) => label,
        None => "",
    }
}

// Adds that label.
fn push_label(out: &mut Vec<u8>, fault: &ParseErrorKind) -> Result<(), AllocError>
    ensures { OnOk result (out.new.items ≡ out.old.items ++ spelled.counted (spelled.label_text fault.now)) }
{
    push_text(out, label_at(fault))
}

// What may help, or the empty text.
fn help_at(alloc: Global, fault: &ParseErrorKind) -> Result<String, AllocError>
    ensures { IfOk result (λ text. string_bytes text ≡ spelled.help_text fault.now) }
{
    match fault.help(alloc)? {
        Some(help) => Ok(help),
        None => Ok(String::new(alloc)),
    }
}

// Adds what may help.
fn push_help(alloc: Global, out: &mut Vec<u8>, fault: &ParseErrorKind) -> Result<(), AllocError>
    ensures { OnOk result (out.new.items ≡ out.old.items ++ spelled.counted (spelled.help_text fault.now)) }
{
    let help = help_at(alloc, fault)?;
    push_text(out, help.as_str())
}

// Adds a second place, with its label.
fn push_second_place(
    out: &mut Vec<u8>,
    source: &str,
    lines: &LineResolver,
    span: &Span,
    label: &str,
) -> Result<(), AllocError>
    requires fits { length source.now ≤ 2147483647 }
    requires resolves { lines.now ≡ starts 0 source.now }
    ensures { OnOk result (out.new.items ≡ out.old.items
        ++ (spelled.number 1 ++ (spelled.place source.now span.now ++ spelled.counted label.now))) }
{
    push_number(out, 1)?;
    push_place(out, source, lines, span)?;
    push_text(out, label)?;
    Ok(())
}

// Adds whether there is a second place, and that place.
fn push_second(
    out: &mut Vec<u8>,
    source: &str,
    lines: &LineResolver,
    fault: &ParseErrorKind,
) -> Result<(), AllocError>
    requires fits { length source.now ≤ 2147483647 }
    requires resolves { lines.now ≡ starts 0 source.now }
    ensures { OnOk result (out.new.items ≡ out.old.items ++ spelled.second_part source.now (second_label_of fault.now)) }
{
    match fault.second_label() {
        Some((span, label)) => push_second_place(out, source, lines, &span, label),
        None => push_number(out, 0),
    }
}

/// Adds the record of a fault of a source, whose lines `lines` knows: what `records` puts there for
/// each fault.
///
/// # Errors
/// `AllocError` where memory runs out. Then nothing is said of the bytes.
pub fn push_record(
    alloc: Global,
    out: &mut Vec<u8>,
    source: &str,
    lines: &LineResolver,
    fault: &ParseErrorKind,
) -> Result<(), AllocError>
    requires fits { length source.now ≤ 2147483647 }
    requires resolves { lines.now ≡ starts 0 source.now }
    ensures { OnOk result (out.new.items ≡ out.old.items ++ spelled.record_of source.now fault.now) }
{
    push_kind(out, fault)?;
    push_fault_place(out, source, lines, fault)?;
    push_message(alloc, out, fault)?;
    push_label(out, fault)?;
    push_help(alloc, out, fault)?;
    push_second(out, source, lines, fault)?;
    Ok(())
}
