//! What is told of files.

ghost use Rattle.std.specs.Prelude.{◌≤◌, length};

use crate::places::{name_in, value_in};
use protolink_words::Format;
use protox_fault::error::{ParseErrorKind, Span};
use protox_report::paint::Paint;
use protox_report::report::{Source, place_of};
use protox_report::shown::push_shown;
use protox_shown::shown::ShownFault;
use std::alloc::{AllocError, Global};
use std::io::{self, Write};

/// How grave it is what is told.
#[derive(Clone, Copy, PartialEq)]
pub(crate) enum Grade {
    Error,
    Warning,
}

impl Grade {
    // what stands in front of the text
    fn front(self) -> &'static str {
        match self {
            Grade::Error => "",
            Grade::Warning => "warning: ",
        }
    }

    // what it is called where each line has a word for it
    fn word(self) -> &'static str {
        match self {
            Grade::Error => "error",
            Grade::Warning => "warning",
        }
    }
}

/// A file that something is told of.
#[derive(Drop)]
pub(crate) struct Told<'a> {
    format: Format,
    // what the file is called
    name: &'a str,
    // where it lies
    path: &'a str,
    text: &'a str,
    source: Source<'a>,
}

// The source, if it isn't so long that its lines can't be counted.
fn countable(source: &str) -> &str
    ensures { length result.now ≤ 2147483647 }
{
    if source.len() > 2147483647 {
        ""
    } else {
        source
    }
}

// The place of a part of what has a place, if it has that part; else that of the whole.
fn within(whole: Span, part: Option<Span>) -> Span {
    match part {
        Some(part) => {
            let start = whole.start.saturating_add(part.start);
            start..whole.start.saturating_add(part.end)
        }
        None => whole,
    }
}

// Where a fault of syntax stands, if it stands anywhere.
fn place_in(source: &str, fault: &ParseErrorKind) -> Option<Span> {
    if let ParseErrorKind::FileTooLarge = fault {
        return None;
    }
    let place = place_of(source, fault);
    Some(place..place)
}

impl<'a> Told<'a> {
    /// A file, by its name, its path and its source.
    ///
    /// # Errors
    /// `AllocError` where memory runs out.
    pub(crate) fn new(
        alloc: Global,
        format: Format,
        name: &'a str,
        path: &'a str,
        text: &'a str,
    ) -> Result<Told<'a>, AllocError> {
        let source = Source::new(alloc, name, countable(text), Paint::NONE)?;
        Ok(Told {
            format,
            name,
            path,
            text,
            source,
        })
    }

    /// The part of the source from one place up to another, both by line and column from 0.
    pub(crate) fn span(&self, start: (i32, i32), end: (i32, i32)) -> Option<Span> {
        let from = self.source.offset_at(start.0, start.1)?;
        let to = self.source.offset_at(end.0, end.1)?;
        Some(from..to)
    }

    // What stands at a place.
    fn text_at(&self, span: &Span) -> &'a str {
        self.text.get(span.start..span.end).unwrap_or("")
    }

    /// The place of the name in the statement of an option that has this place.
    ///
    /// # Errors
    /// `AllocError` where memory runs out.
    pub(crate) fn name_span(&self, alloc: Global, statement: Span) -> Result<Span, AllocError> {
        let name = name_in(alloc, self.text_at(&statement))?;
        Ok(within(statement, name))
    }

    /// The place of the value in the statement of an option that has this place, by its first token.
    ///
    /// # Errors
    /// `AllocError` where memory runs out.
    pub(crate) fn value_span(&self, alloc: Global, statement: Span) -> Result<Span, AllocError> {
        let value = value_in(alloc, self.text_at(&statement))?;
        Ok(within(statement, value))
    }

    // Adds what stands in front of the text, in one of the formats of a line.
    fn push_front(
        &self,
        alloc: Global,
        line: &mut String,
        grade: Grade,
        span: Option<&Span>,
    ) -> Result<(), AllocError> {
        let is_msvs = self.format == Format::Msvs;
        push_shown(alloc, line, if is_msvs { self.path } else { self.name })?;
        if let Some(span) = span {
            let (row, column) = self.source.position(span.start);
            if is_msvs {
                let word = grade.word();
                write!(line, "({row}) : {word} in column={column}")?;
            } else {
                write!(line, ":{row}:{column}")?;
            }
        }
        line.push_str(": ")
    }

    fn push_line(
        &self,
        alloc: Global,
        line: &mut String,
        grade: Grade,
        span: Option<&Span>,
        text: &str,
    ) -> Result<(), AllocError> {
        self.push_front(alloc, line, grade, span)?;
        line.push_str(grade.front())?;
        push_shown(alloc, line, text)?;
        line.push_str("\n")
    }

    // Adds what is told: a line, or a report with the line of the source.
    fn push(
        &self,
        alloc: Global,
        out: &mut String,
        grade: Grade,
        span: Option<&Span>,
        text: &str,
    ) -> Result<(), AllocError> {
        match span {
            Some(span) if self.format == Format::Report => {
                let front = grade.front();
                let text = format!(in alloc; "{front}{text}")?;
                self.source.push_text(alloc, out, span, text.as_str())
            }
            _ => self.push_line(alloc, out, grade, span, text),
        }
    }

    /// Writes what is told of a place; of the file as a whole, if there is none.
    pub(crate) fn tell<E: Write>(
        &self,
        alloc: Global,
        err: &mut E,
        grade: Grade,
        span: Option<&Span>,
        text: &str,
    ) -> io::Result<()> {
        let mut out = String::new(alloc);
        self.push(alloc, &mut out, grade, span, text)?;
        err.write_all(out.as_bytes())
    }

    // Adds a fault of syntax, in one of the formats of a line.
    fn push_fault_line(
        &self,
        alloc: Global,
        out: &mut String,
        source: &str,
        fault: &ParseErrorKind,
    ) -> Result<(), AllocError> {
        let span = place_in(source, fault);
        let text = format!(in alloc; "{}", ShownFault(fault))?;
        self.push_line(alloc, out, Grade::Error, span.as_ref(), text.as_str())
    }

    /// Writes a fault of syntax in this source.
    pub(crate) fn tell_fault<E: Write>(
        &self,
        alloc: Global,
        err: &mut E,
        source: &str,
        fault: &ParseErrorKind,
    ) -> io::Result<()> {
        let mut out = String::new(alloc);
        if self.format == Format::Report {
            self.source.push_fault(alloc, &mut out, fault)?;
        } else {
            self.push_fault_line(alloc, &mut out, source, fault)?;
        }
        err.write_all(out.as_bytes())
    }
}

/// Writes what is wrong with words.
pub(crate) fn say_line<E: Write>(alloc: Global, err: &mut E, text: &str) -> io::Result<()> {
    let mut line = String::new(alloc);
    push_shown(alloc, &mut line, text)?;
    line.push_str("\n")?;
    err.write_all(line.as_bytes())
}

/// Writes what is wrong with a word or a file as a whole.
pub(crate) fn say<E: Write>(alloc: Global, err: &mut E, name: &str, text: &str) -> io::Result<()> {
    let mut line = String::new(alloc);
    push_shown(alloc, &mut line, name)?;
    line.push_str(": ")?;
    push_shown(alloc, &mut line, text)?;
    line.push_str("\n")?;
    err.write_all(line.as_bytes())
}

/// What the system says of an error, without its number.
pub(crate) fn cause(alloc: Global, error: &io::Error) -> Result<String, AllocError> {
    let text = format!(in alloc; "{error}")?;
    match text.as_str().rsplit_once(" (os error ") {
        Some((front, _)) => String::from_str(alloc, front),
        None => Ok(text),
    }
}
