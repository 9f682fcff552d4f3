//! What is printed for a statement.

use crate::aggregate::aggregate_text;
use crate::answers::Known;
use protox_descriptor::descriptor::UninterpretedOption;
use protox_interpret::{Site, StatementFaultKind};
use protox_option_text::statement_text;
use protox_settings::{NameFailure, Said, SettingFailure, field_numbered, field_said, fields_of};
use protox_text_format::{TextFault, TextFaultKind};
use protox_values::SettingValue;
use std::alloc::{AllocError, Global};
use std::io::{self, Write};

fn shown(alloc: Global, value: &SettingValue) -> Result<String, AllocError> {
    match value {
        SettingValue::Varint(n) => format!(in alloc; "varint {n}"),
        SettingValue::Four(n) => format!(in alloc; "four {n}"),
        SettingValue::Eight(n) => format!(in alloc; "eight {n}"),
        SettingValue::Bytes(bytes) => {
            let digits = hex::encode(alloc, bytes.as_slice())?;
            format!(in alloc; "bytes {digits}")
        }
    }
}

fn said_text(
    alloc: Global,
    here: Site<'_>,
    said: &Said,
    statement: &UninterpretedOption,
) -> Result<Option<String>, AllocError> {
    match said {
        Said::Value(value) => Ok(Some(shown(alloc, value)?)),
        Said::Aggregate(message) => {
            let text = statement.aggregate_value.as_ref();
            let text = text.map(|text| text.as_str()).unwrap_or("");
            aggregate_text(alloc, here, *message, text)
        }
    }
}

// The numbers of the fields, as they stand in tags.
fn write_numbers<W: Write>(out: &mut W, here: Site<'_>, fields: &[usize]) -> io::Result<()> {
    let mut dot = "";
    for number in fields {
        if let Some(field) = field_numbered(here.view.symbols, here.files, *number) {
            write!(out, "{dot}{}", field.number.unwrap_or(0))?;
        }
        dot = ".";
    }
    Ok(())
}

// What is wrong with a statement, in protoc's words.
fn write_fault<W: Write>(
    alloc: Global,
    out: &mut W,
    here: Site<'_>,
    statement: &UninterpretedOption,
    kind: &StatementFaultKind,
) -> io::Result<()> {
    let text = statement_text(alloc, here, statement, kind)?;
    writeln!(out, "{text}")
}

// That a text in braces says nothing. protoc tells why behind this.
fn write_refused<W: Write>(
    alloc: Global,
    out: &mut W,
    here: Site<'_>,
    statement: &UninterpretedOption,
) -> io::Result<()> {
    let text = TextFault {
        piece: 0,
        kind: TextFaultKind::NoValue,
    };
    let kind = StatementFaultKind::Text(text);
    write_fault(alloc, out, here, statement, &kind)
}

fn write_said<W: Write>(
    alloc: Global,
    out: &mut W,
    here: Site<'_>,
    fields: &[usize],
    statement: &UninterpretedOption,
    answer: &Result<Said, SettingFailure>,
) -> io::Result<()> {
    match answer {
        Ok(said) => match said_text(alloc, here, said, statement)? {
            Some(text) => {
                write_numbers(out, here, fields)?;
                writeln!(out, " {text}")
            }
            None => write_refused(alloc, out, here, statement),
        },
        Err(SettingFailure::Fault(fault)) => {
            let kind = StatementFaultKind::Value(*fault);
            write_fault(alloc, out, here, statement, &kind)
        }
        Err(SettingFailure::OutOfMemory) => Err(AllocError)?,
    }
}

fn write_setting<W: Write>(
    alloc: Global,
    out: &mut W,
    here: Site<'_>,
    fields: &[usize],
    statement: &UninterpretedOption,
) -> io::Result<()> {
    let Some(last) = fields.last() else {
        return Ok(());
    };
    let Some(field) = field_numbered(here.view.symbols, here.files, *last) else {
        return Ok(());
    };
    let answer = field_said(alloc, here.view.symbols, here.files, field, statement);
    write_said(alloc, out, here, fields, statement, &answer)
}

/// What the statement sets, in the options of the message type with this full name. What has the
/// options stands in the scope.
pub(crate) fn write_statement<W: Write>(
    alloc: Global,
    out: &mut W,
    known: Known<'_>,
    scope: Option<usize>,
    options: &str,
    statement: &UninterpretedOption,
) -> io::Result<()> {
    let (view, files) = (known.view, known.files);
    let Some(message) = view.symbols.find(None, options) else {
        return writeln!(out, "no {options}");
    };
    let here = Site {
        view,
        files,
        scope,
        message,
    };
    let name = statement.name.as_slice();
    match fields_of(alloc, view, files, scope, message, name) {
        Ok(fields) => write_setting(alloc, out, here, fields.as_slice(), statement),
        Err(NameFailure::Fault(fault)) => {
            let kind = StatementFaultKind::Name(fault);
            write_fault(alloc, out, here, statement, &kind)
        }
        Err(NameFailure::OutOfMemory) => Err(AllocError)?,
    }
}
