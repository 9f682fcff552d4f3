//! The report of a fault as text.

ghost use Rattle.std.specs.Prelude.{◌≡◌, ◌≤◌, ◌<◌, ◌+◌, ◌++◌, min, ℕ, List, IfOk, IfSome, OnOk, codes, pos, false, true, length, replicate, string_capacity, string_len};
ghost use Rattle.std.specs.String.{string_bytes};
ghost use Rattle.protox_fault.specs.FaultTexts.{text_of};
ghost use Rattle.protox_report.specs.Shown.{shown};
ghost use Rattle.protox_places.specs.Lines.{line, column, starts};
ghost use Rattle.protox_report.specs.Excerpts.{IsExcerpt};
ghost use Rattle.protox_report.specs.Reports.{behind_blank, below, below_dots, carets, dots, excerpt_line, excerpt_lines, excerpt_marks, help_if, help_line, help_text, number_of, numbered, position_at, position_text, first_place, has_place, label_text, place_in, place_text, title, title_at, AreTold, IsReported, IsTextReported, Tells};

use crate::excerpt::{Excerpt, excerpt_of};
use crate::paint::Paint;
use crate::shown::{push_shown, push_times, push_under};
use protox_fault::error::{ParseErrorKind, Span};
use protox_places::faults::end_of;
use protox_places::lines::LineResolver;
use std::alloc::{AllocError, Global};

/// The least width of the column of line numbers.
const WIDTH: usize = 5;

/// How many bytes a report takes in most cases, without the name of the file.
const USUAL: usize = 192;

/// A source with its name and its lines, to report faults of.
#[derive(Drop)]
pub struct Source<'a> {
    name: &'a str,
    text: &'a str,
    lines: LineResolver,
    paint: Paint,
    ghost fits: { length text.now ≤ 2147483647 },
    ghost resolves: { lines ≡ starts 0 text.now },
}

/// The offset at which a fault is reported: the start of its span; of the second if it has two. For
/// an unexpected end of the source it is the offset of the last newline if the source ends with
/// one, otherwise the end. For a fault of the whole source it is 0.
pub fn place_of(source: &str, fault: &ParseErrorKind) -> usize
    ensures { result ≡ place_in source.now fault.now }
{
    match fault {
        ParseErrorKind::DuplicatePackage { second, .. } => second.start,
        ParseErrorKind::UnexpectedEof { .. } => end_of(source),
        fault => match fault.span() {
            Some(span) => span.start,
            None => 0,
        },
    }
}

// Whether a fault has a place in the source: each but that of the whole source.
fn is_placed(fault: &ParseErrorKind) -> bool
    ensures { result ≡ has_place fault.now }
{
    match fault {
        ParseErrorKind::FileTooLarge => false,
        _ => true,
    }
}

// The span of a fault; the first if it has two.
fn first_span(source: &str, fault: &ParseErrorKind) -> Span
    ensures { result ≡ first_place source.now fault.now }
{
    if let ParseErrorKind::DuplicatePackage { first, .. } = fault {
        return first.start..first.end;
    }
    let place = place_of(source, fault);
    match fault.span() {
        Some(span) => span,
        None => place..place,
    }
}

// The label at that span, or the empty text.
fn label_at(fault: &ParseErrorKind) -> &'static str
    ensures { result.now ≡ label_text fault.now }
{
    match fault.label() {
        Some(label) => label,
        None => "",
    }
}

// `:LINE:COLUMN:`
fn push_place(out: &mut String, line: u32, column: u32) -> Result<(), AllocError>
    ensures { OnOk result (string_bytes out.new ≡ string_bytes out.old ++ place_text line column) }
{
    write!(out, ":{line}:{column}:")
}

// Adds a number, to the right in five columns.
fn push_number(out: &mut String, number: &str) -> Result<(), AllocError>
    ensures { OnOk result (string_bytes out.new ≡ string_bytes out.old ++ numbered number.now) }
{
    push_times(out, b' ', WIDTH.saturating_sub(number.len()))?;
    out.push_str(number)
}

// Adds the blanks below a number.
fn push_below(out: &mut String, number: &str) -> Result<(), AllocError>
    ensures { OnOk result (string_bytes out.new ≡ string_bytes out.old ++ below number.now) }
{
    push_times(out, b' ', WIDTH.max(number.len()))
}

// Adds dots for a part that is left out, if one is.
fn push_dots(out: &mut String, cut: bool) -> Result<(), AllocError>
    ensures { OnOk result (string_bytes out.new ≡ string_bytes out.old ++ dots cut) }
{
    if cut { out.push_str("...") } else { Ok(()) }
}

// Adds the blanks below the dots.
fn push_below_dots(out: &mut String, cut: bool) -> Result<(), AllocError>
    ensures { OnOk result (string_bytes out.new ≡ string_bytes out.old ++ below_dots cut) }
{
    if cut { out.push_str("   ") } else { Ok(()) }
}

// Adds the line of the source that is shown, with its number.
fn push_line(
    alloc: Global,
    out: &mut String,
    number: &str,
    shown: &Excerpt<'_>,
) -> Result<(), AllocError>
    ensures { OnOk result (string_bytes out.new ≡ string_bytes out.old ++ excerpt_line number.now shown.now) }
{
    push_number(out, number)?;
    out.push_str(" | ")?;
    push_dots(out, shown.cut_before)?;
    push_shown(alloc, out, shown.before)?;
    push_shown(alloc, out, shown.marked)?;
    push_shown(alloc, out, shown.behind)?;
    push_dots(out, shown.cut_behind)?;
    out.push_str("\n")?;
    Ok(())
}

// Adds `^` under each column of a text; one `^` if the text is empty.
fn push_carets(alloc: Global, out: &mut String, text: &str) -> Result<(), AllocError>
    ensures { OnOk result (string_bytes out.new ≡ string_bytes out.old ++ carets text.now) }
{
    if text.is_empty() {
        return out.push_str("^");
    }
    push_under(alloc, out, text, b'^')
}

// Adds a label after a blank, if there is one.
fn push_label(out: &mut String, label: &str) -> Result<(), AllocError>
    ensures { OnOk result (string_bytes out.new ≡ string_bytes out.old ++ behind_blank label.now) }
{
    if label.is_empty() {
        return Ok(());
    }
    out.push_str(" ")?;
    out.push_str(label)
}

// Adds the text of a fault as it is shown.
fn push_text(alloc: Global, out: &mut String, fault: &ParseErrorKind) -> Result<(), AllocError>
    ensures { OnOk result (string_bytes out.new ≡ string_bytes out.old ++ shown (text_of fault.now)) }
{
    let text = format!(in alloc; "{fault}")?;
    push_shown(alloc, out, text.as_str())
}

// The help of a fault, or the empty text.
fn help_at(alloc: Global, fault: &ParseErrorKind) -> Result<String, AllocError>
    ensures { IfOk result (λ text. string_bytes text ≡ help_text fault.now) }
{
    match fault.help(alloc)? {
        Some(help) => Ok(help),
        None => Ok(String::new(alloc)),
    }
}

// Adds the line of a help.
fn push_help_line(alloc: Global, out: &mut String, help: &str) -> Result<(), AllocError>
    ensures { OnOk result (string_bytes out.new ≡ string_bytes out.old ++ help_line help.now) }
{
    push_times(out, b' ', WIDTH)?;
    out.push_str(" = help: ")?;
    push_shown(alloc, out, help)?;
    out.push_str("\n")?;
    Ok(())
}

// Adds the line of a help, if there is any.
fn push_help(alloc: Global, out: &mut String, help: &str) -> Result<(), AllocError>
    ensures { OnOk result (string_bytes out.new ≡ string_bytes out.old ++ help_if help.now) }
{
    if help.is_empty() {
        return Ok(());
    }
    push_help_line(alloc, out, help)
}

// Adds the line of the help of a fault, if it has any.
fn push_help_of(alloc: Global, out: &mut String, fault: &ParseErrorKind) -> Result<(), AllocError>
    ensures { OnOk result (string_bytes out.new ≡ string_bytes out.old ++ help_if (help_text fault.now)) }
{
    let help = help_at(alloc, fault)?;
    push_help(alloc, out, help.as_str())
}

// Gives back the room of a short report, if it was made for that report and half of it or more is
// free. Otherwise the text keeps its room.
fn give_back(out: &mut String, grew: bool)
    ensures bytes { string_bytes out.new ≡ string_bytes out.old }
    ensures kept { grew ≡ false → string_capacity out.new ≡ string_capacity out.old }
    ensures freed { grew ≡ true → string_len out.old ≡ 0 → string_capacity out.new ≡ 0 }
{
    if grew && out.len() <= out.capacity() / 2 {
        out.shrink_to_fit();
    }
}

impl<'a> Source<'a> {
    /// A source with the name that reports show. `AllocError` if memory runs out.
    pub fn new(
        alloc: Global,
        name: &'a str,
        text: &'a str,
        paint: Paint,
    ) -> Result<Source<'a>, AllocError>
        requires { length text.now ≤ 2147483647 }
    {
        let lines = LineResolver::new(alloc, text)?;
        Ok(Source {
            name,
            text,
            lines,
            paint,
        })
    }

    // Makes room for a report of usual length in a text that has no memory yet, if memory allows.
    // Answers whether it did. A text with room of its own, such as a cleared one, stays as it is.
    fn make_room(&self, out: &mut String) -> bool
        ensures bytes { string_bytes out.new ≡ string_bytes out.old }
        ensures made { result ≡ true → length self.now.name.now + 192 ≤ string_capacity out.new }
        ensures not_made { 0 < string_capacity out.old → result ≡ false }
        ensures kept { 0 < string_capacity out.old → string_capacity out.new ≡ string_capacity out.old }
    {
        if out.capacity() != 0 {
            return false;
        }
        out.reserve(self.name.len().saturating_add(USUAL)).is_ok()
    }

    /// Line and column of an offset, both from 1; columns count bytes. An offset behind the source
    /// counts as its end.
    pub fn position(&self, offset: usize) -> (u32, u32)
        ensures line { result.0 ≡ line self.now.text.now (min offset (length self.now.text.now)) + 1 }
        ensures column { result.1 ≡ column self.now.text.now (min offset (length self.now.text.now)) + 1 }
    {
        let (line, column) = self.lines.resolve(offset.min(self.text.len()));
        (line.unsigned_abs() + 1, column.unsigned_abs() + 1)
    }

    // Adds `:LINE:COLUMN:` of the place at which a fault is reported, both from 1.
    fn push_position(&self, out: &mut String, fault: &ParseErrorKind) -> Result<(), AllocError>
        ensures { OnOk result (string_bytes out.new ≡ string_bytes out.old ++ position_text self.now.text.now fault.now) }
    {
        let (line, column) = self.position(place_of(self.text, fault));
        push_place(out, line, column)
    }

    // Adds `FILE:LINE:COLUMN: text`.
    fn push_title(
        &self,
        alloc: Global,
        out: &mut String,
        fault: &ParseErrorKind,
    ) -> Result<(), AllocError>
        ensures { OnOk result (string_bytes out.new ≡ string_bytes out.old ++ title self.now.paint self.now.name.now self.now.text.now fault.now) }
    {
        out.push_str(self.paint.place)?;
        push_shown(alloc, out, self.name)?;
        self.push_position(out, fault)?;
        out.push_str(self.paint.end)?;
        out.push_str(" ")?;
        push_text(alloc, out, fault)?;
        out.push_str("\n")?;
        Ok(())
    }

    // Adds `^` under the span, at least one, and the label.
    fn push_marks(
        &self,
        alloc: Global,
        out: &mut String,
        number: &str,
        shown: &Excerpt<'_>,
        label: &str,
    ) -> Result<(), AllocError>
        ensures { OnOk result (string_bytes out.new ≡ string_bytes out.old ++ excerpt_marks self.now.paint number.now shown.now label.now) }
    {
        push_below(out, number)?;
        out.push_str(" | ")?;
        push_below_dots(out, shown.cut_before)?;
        push_under(alloc, out, shown.before, b' ')?;
        out.push_str(self.paint.mark)?;
        push_carets(alloc, out, shown.marked)?;
        push_label(out, label)?;
        out.push_str(self.paint.end)?;
        out.push_str("\n")?;
        Ok(())
    }

    // Adds both lines of an excerpt.
    fn push_lines(
        &self,
        alloc: Global,
        out: &mut String,
        number: &str,
        shown: &Excerpt<'_>,
        label: &str,
    ) -> Result<(), AllocError>
        ensures { OnOk result (string_bytes out.new ≡ string_bytes out.old ++ excerpt_lines self.now.paint number.now shown.now label.now) }
    {
        push_line(alloc, out, number, shown)?;
        self.push_marks(alloc, out, number, shown, label)?;
        Ok(())
    }

    // The number of the line in which a span starts.
    fn number_at(&self, alloc: Global, span: &Span) -> Result<String, AllocError>
        ensures { IfOk result (λ number. string_bytes number ≡ number_of self.now.text.now span.now) }
    {
        let (line, _) = self.position(span.start);
        format!(in alloc; "{line}")
    }

    // Adds the line in which a span starts, and the marks under it.
    fn push_excerpt(
        &self,
        alloc: Global,
        out: &mut String,
        span: &Span,
        label: &str,
    ) -> Result<(), AllocError>
        ensures { OnOk result (Tells self.now.text.now self.now.paint span.now label.now (string_bytes out.old) (string_bytes out.new)) }
    {
        let shown = excerpt_of(self.text, span);
        let number = self.number_at(alloc, span)?;
        self.push_lines(alloc, out, number.as_str(), &shown, label)?;
        Ok(())
    }

    // Adds the excerpts of a fault: one for each of its places, none for a fault of the whole
    // source.
    fn push_excerpts(
        &self,
        alloc: Global,
        out: &mut String,
        fault: &ParseErrorKind,
    ) -> Result<(), AllocError>
        ensures { OnOk result (AreTold self.now.text.now self.now.paint fault.now (string_bytes out.old) (string_bytes out.new)) }
    {
        if !is_placed(fault) {
            return Ok(());
        }
        self.push_excerpt(alloc, out, &first_span(self.text, fault), label_at(fault))?;
        if let Some((second, label)) = fault.second_label() {
            self.push_excerpt(alloc, out, &second, label)?;
        }
        Ok(())
    }

    // Adds the title, the excerpts and the help of a fault.
    fn push_parts(
        &self,
        alloc: Global,
        out: &mut String,
        fault: &ParseErrorKind,
    ) -> Result<(), AllocError>
        ensures { OnOk result (IsReported self.now.name.now self.now.text.now self.now.paint fault.now (string_bytes out.old) (string_bytes out.new)) }
    {
        self.push_title(alloc, out, fault)?;
        self.push_excerpts(alloc, out, fault)?;
        push_help_of(alloc, out, fault)?;
        Ok(())
    }

    /// Adds the report of a fault to `out`: its title, its excerpts and its help, each on its own
    /// lines. A text that has no memory yet gets room for a report of usual length at once. A text
    /// that has room keeps it. `AllocError` if memory runs out.
    pub fn push_fault(
        &self,
        alloc: Global,
        out: &mut String,
        fault: &ParseErrorKind,
    ) -> Result<(), AllocError>
        ensures { OnOk result (IsReported self.now.name.now self.now.text.now self.now.paint fault.now (string_bytes out.old) (string_bytes out.new)) }
    {
        let grew = self.make_room(out);
        let done = self.push_parts(alloc, out, fault);
        // The room is given back also if memory ran out.
        give_back(out, grew);
        done
    }

    // Adds `:LINE:COLUMN:` of an offset, both from 1.
    fn push_position_at(&self, out: &mut String, offset: usize) -> Result<(), AllocError>
        ensures { OnOk result (string_bytes out.new ≡ string_bytes out.old ++ position_at self.now.text.now offset) }
    {
        let (line, column) = self.position(offset);
        push_place(out, line, column)
    }

    // Adds `FILE:LINE:COLUMN: text`, of any text.
    fn push_title_at(
        &self,
        alloc: Global,
        out: &mut String,
        offset: usize,
        text: &str,
    ) -> Result<(), AllocError>
        ensures { OnOk result (string_bytes out.new ≡ string_bytes out.old ++ title_at self.now.paint self.now.name.now self.now.text.now offset text.now) }
    {
        out.push_str(self.paint.place)?;
        push_shown(alloc, out, self.name)?;
        self.push_position_at(out, offset)?;
        out.push_str(self.paint.end)?;
        out.push_str(" ")?;
        push_shown(alloc, out, text)?;
        out.push_str("\n")?;
        Ok(())
    }

    // The first offset that is in this line or behind it; the end of the source, if none is.
    fn line_start(&self, number: i32) -> usize
        ensures { result ≤ length self.now.text.now }
    {
        let mut low = 0;
        let mut high = self.text.len();
        'search: while low < high {
            let middle = low + (high - low) / 2;
            if self.lines.resolve(middle).0 < number {
                low = middle + 1;
            } else {
                high = middle;
            }
        }
        low
    }

    /// The offset of a place, given by line and column, both from 0; columns count bytes. None if the
    /// source has no such place. It is found by a search in the table of lines.
    pub fn offset_at(&self, in_line: i32, in_column: i32) -> Option<usize>
        ensures within { IfSome result (λ offset. offset ≤ length self.now.text.now) }
        ensures line { IfSome result (λ offset. pos (line self.now.text.now offset) ≡ in_line) }
        ensures column { IfSome result (λ offset. pos (column self.now.text.now offset) ≡ in_column) }
    {
        if in_column < 0 {
            return None;
        }
        let offset = self.line_start(in_line).saturating_add(in_column as usize);
        if offset > self.text.len() {
            return None;
        }
        let (found_line, found_column) = self.lines.resolve(offset);
        if found_line == in_line && found_column == in_column {
            Some(offset)
        } else {
            None
        }
    }

    /// Adds the report of any text at a span of the source: the title and the excerpt of a fault
    /// that has one place, without label and help. The span may be any; it is in bytes. `AllocError`
    /// if memory runs out. Then a part of the report may have been added.
    pub fn push_text(
        &self,
        alloc: Global,
        out: &mut String,
        span: &Span,
        text: &str,
    ) -> Result<(), AllocError>
        ensures { OnOk result (IsTextReported self.now.name.now self.now.text.now self.now.paint span.now text.now (string_bytes out.old) (string_bytes out.new)) }
    {
        self.push_title_at(alloc, out, span.start, text)?;
        self.push_excerpt(alloc, out, span, "")?;
        Ok(())
    }
}
