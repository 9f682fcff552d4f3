//! The record of what is wrong with an options message.

ghost use Rattle.std.specs.Prelude.{◌≡◌, ◌++◌, IfOk, List, OnOk, ℕ};
ghost use Rattle.protox_link_records.specs.LinkPlaces as found;
ghost use Rattle.protox_option_records.specs.OptionRecords as words;
ghost use Rattle.protox_option_records.specs.inner.Telling.{IsHere, IsRecordOf};

use crate::kinds::{NO_TYPE, statement_kind};
use crate::text::told_text;
use protox_descriptor::descriptor::{FileDescriptorProto, UninterpretedOption};
use protox_descriptor::tag::UNINTERPRETED_OPTION;
use protox_descriptor::values::Numbers;
use protox_file_options::{OptionsFault, PlaceFault};
use protox_interpret::{Site, StatementFault};
use protox_link_records::{SourceLines, place_in, push_record};
use protox_views::View;
use std::alloc::{AllocError, Global};
use std::marker::Model;

/// A file of a linked set, of which something is told. Its locations are sorted by path.
#[derive(Drop)]
pub(crate) struct Subject<'a> {
    /// Its number among the files.
    pub(crate) number: usize,
    pub(crate) file: &'a FileDescriptorProto,
    pub(crate) lines: &'a SourceLines<'a>,
    /// What it sees of the table.
    pub(crate) view: &'a View<'a>,
    /// The linked files, those of the table.
    pub(crate) files: &'a [FileDescriptorProto],
}

impl<'a> Model for Subject<'a> {
    ghost use Rattle.std.specs.Coded.{codes};
    ghost use Rattle.protox_descriptor.specs.contracts.descriptor.DescriptorProto as message;
    ghost use Rattle.protox_link_records.specs.LinkPlaces.{IsSorted};
    ghost use Rattle.protox_option_records.specs.OptionRecords as words;

    ghost Value = { words.FileAt };

    ghost coded = { Prim.hlevel (codes, message.the_row.coded) };

    ghost view = { λ s. record {
      number = s.number;
      source = s.lines.now;
      file = s.file.now;
      view = s.view.now;
      files = s.files.now;
    } };

    ghost invariant = { λ s. IsSorted s.file.now };
}

// The path of the statement with an index. An index that no path can count is an error.
fn statement_path(alloc: Global, options: &[i32], index: usize) -> Result<Numbers, AllocError>
    ensures { IfOk result (λ path. path ≡ words.path_of_statement options.now index) }
{
    if index > 2147483647 {
        return Err(AllocError);
    }
    Numbers::joined(alloc, options, &[UNINTERPRETED_OPTION, index as i32])
}

// Where the statements stand of which something is wrong.
fn site_of<'a>(subject: &'a Subject<'a>, fault: &OptionsFault) -> Site<'a>
    ensures { IsHere subject.now fault.now result }
{
    Site {
        view: subject.view,
        files: subject.files,
        scope: fault.scope,
        message: fault.message.unwrap_or(0),
    }
}

// Adds the record of a statement that is wrong, of the options message at a path.
fn push_statement(
    alloc: Global,
    out: &mut Vec<u8>,
    subject: &Subject<'_>,
    here: Site<'_>,
    path: &[i32],
    statement: &UninterpretedOption,
    wrong: &StatementFault,
) -> Result<(), AllocError>
    ensures { OnOk result ((text : List ℕ) × words.IsTextOf here.entry statement.now wrong.now.kind text
        × (out.new.items ≡ out.old.items ++ words.statement_record subject.now path.now wrong.now text)) }
{
    let path = statement_path(alloc, path, wrong.index)?;
    let place = place_in(subject.lines, subject.file, path.as_slice());
    let text = told_text(alloc, here, statement, &wrong.kind)?;
    let kind = statement_kind(&wrong.kind);
    push_record(out, subject.number, kind, &place, text.as_str())
}

/// Adds the record of what is wrong with the options message at a path, which has these statements.
///
/// # Errors
/// `AllocError` where memory runs out. Then some of the bytes may have been added.
pub(crate) fn push_fault(
    alloc: Global,
    out: &mut Vec<u8>,
    subject: &Subject<'_>,
    path: &[i32],
    statements: &[UninterpretedOption],
    fault: &OptionsFault,
) -> Result<(), AllocError>
    ensures { OnOk result ((told : List ℕ) × IsRecordOf subject.now path.now statements.now fault.now told
        × (out.new.items ≡ out.old.items ++ told)) }
{
    match &fault.fault {
        PlaceFault::NoType => {
            let place = place_in(subject.lines, subject.file, path);
            let text = "no file declares what options there are here";
            push_record(out, subject.number, NO_TYPE, &place, text)
        }
        PlaceFault::Statement(wrong) => {
            let Some(statement) = statements.get(wrong.index) else {
                return Ok(());
            };
            let here = site_of(subject, fault);
            push_statement(alloc, out, subject, here, path, statement, wrong)
        }
    }
}
