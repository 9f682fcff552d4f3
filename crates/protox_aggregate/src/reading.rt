//! Messages, step by step.

ghost use Rattle.std.specs.Prelude.{◌≡◌, ℕ, List, Err, IfErr, IfOk, Ok, OnOk, None, Some, map};
ghost use Rattle.protox_aggregate.specs.Aggregates as words;
ghost use Rattle.protox_aggregate.specs.Failure.{IfFault};
ghost use Rattle.protox_aggregate.specs.Levels as levels;
ghost use Rattle.protox_aggregate.specs.Reading.{IsRefused, Leads, reading_of};
ghost use Rattle.protox_aggregate.specs.Unsaid.{IfUnsaid};
ghost use Rattle.protox_settings.specs.Fields.{field_numbered as numbered};
ghost use Rattle.protox_settings.specs.Fields.{message_of_type as message_of};
ghost use Rattle.protox_text_format.specs.Spelling.{AMessage, Name, Spells, seen};
ghost use Rattle.protox_text_format.specs.declared.item.Piece.{Piece as APiece};
ghost use Rattle.protox_text_values.specs.Scalars.{shapes_of};
ghost use Rattle.protox_aggregate.specs.Whole.{IsWhole};

use crate::anys::{fields_for, type_in_text};
use crate::complete::{is_told, missing_at_end, say_at_end};
use crate::fault::{AggregateFailure, AggregateFault, AggregateFaultKind};
use crate::fields::is_in_proto3;
use crate::level::{AnyFields, Level, Named, Typed, wrong_with_naming};
use crate::names::field_in_text;
use crate::reader::Reader;
use crate::unsaid::Unsaid;
use crate::values::{no_message, value_of, wrong_with_list};
use protox_descriptor::descriptor::{FieldDescriptorProto, FileDescriptorProto};
use protox_message_bytes::Entry;
use protox_settings::{field_numbered, message_of_type};
use protox_symbols::Symbols;
use protox_text_format::{Item, Piece};
use protox_views::View;
use std::alloc::Global;

// The field that was named last, by its number in the table and as it is declared.
fn named_field<'a>(
    symbols: &Symbols,
    files: &'a [FileDescriptorProto],
    level: &Level,
) -> Result<(Named, &'a FieldDescriptorProto), AggregateFaultKind>
    ensures ok { IfOk result (λ f. words.named_field files.now symbols.now level.now ≡ Ok (f.0, f.1.now)) }
    ensures err { IfErr result (λ kind. words.named_field files.now symbols.now level.now ≡ Err kind) }
{
    let Some(named) = level.field else {
        return Err(AggregateFaultKind::Misplaced);
    };
    match field_numbered(symbols, files, named.number) {
        Some(field) => Ok((named, field)),
        None => Err(AggregateFaultKind::Misplaced),
    }
}

fn wrong_with_field(
    symbols: &Symbols,
    files: &[FileDescriptorProto],
    level: &Level,
    number: usize,
) -> Option<AggregateFaultKind>
    ensures { result ≡ words.wrong_with_field files.now symbols.now level.now number
        (numbered files.now symbols.now number) }
{
    match field_numbered(symbols, files, number) {
        Some(field) => wrong_with_naming(&level.told, number, field),
        None => Some(AggregateFaultKind::Misplaced),
    }
}

// Whether one of the two fields of a message `Any` has a value.
fn is_any_told(level: &Level, typed: Typed) -> bool
    ensures { result ≡ words.is_any_told level.now typed }
{
    is_told(&level.told, typed.fields.url) || is_told(&level.told, typed.fields.value)
}

impl Reader {
    // The name of a field.
    fn field_name(
        &mut self,
        alloc: Global,
        view: &View<'_>,
        files: &[FileDescriptorProto],
        name: &[Piece<'_>],
        colon: bool,
    ) -> Result<(), Unsaid>
        ensures ok { OnOk result (words.named_in files.now view.now.symbols.now view.now.sees.now
            view.now.packages (reading_of self.old) (shapes_of name.now) colon None
            ≡ Ok (reading_of self.new)) }
        ensures err { IfErr result (λ unsaid. IfUnsaid unsaid (λ kind. words.named_in files.now
            view.now.symbols.now view.now.sees.now view.now.packages (reading_of self.old)
            (shapes_of name.now) colon None ≡ Err kind)) }
    {
        match field_in_text(alloc, view, files, self.level.message, name) {
            Ok(Ok(number)) => match wrong_with_field(view.symbols, files, &self.level, number) {
                Some(kind) => Err(Unsaid::Fault(kind)),
                None => {
                    self.level.field = Some(Named {
                        number,
                        colon,
                        typed: None,
                    });
                    Ok(())
                }
            },
            Ok(Err(kind)) => Err(Unsaid::Fault(kind)),
            Err(_) => Err(Unsaid::OutOfMemory),
        }
    }

    // The name of a type, in a message `Any` with these fields.
    fn type_name(
        &mut self,
        alloc: Global,
        view: &View<'_>,
        files: &[FileDescriptorProto],
        name: &[Piece<'_>],
        colon: bool,
        fields: AnyFields,
    ) -> Result<(), Unsaid>
        ensures ok { OnOk result (words.named_in files.now view.now.symbols.now view.now.sees.now
            view.now.packages (reading_of self.old) (shapes_of name.now) colon (Some fields)
            ≡ Ok (reading_of self.new)) }
        ensures err { IfErr result (λ unsaid. IfUnsaid unsaid (λ kind. words.named_in files.now
            view.now.symbols.now view.now.sees.now view.now.packages (reading_of self.old)
            (shapes_of name.now) colon (Some fields) ≡ Err kind)) }
    {
        let (message, address) = match type_in_text(alloc, view, files, name) {
            Ok(found) => found,
            Err(unsaid) => return Err(unsaid),
        };
        match self.say_type(colon, fields, message, address) {
            Ok(()) => Ok(()),
            Err(_) => Err(Unsaid::OutOfMemory),
        }
    }

    fn name(
        &mut self,
        alloc: Global,
        view: &View<'_>,
        files: &[FileDescriptorProto],
        name: &[Piece<'_>],
        colon: bool,
    ) -> Result<(), Unsaid>
        ensures ok { OnOk result (Leads files.now view.now (Name name.now colon)
            (reading_of self.old) (reading_of self.new)) }
        ensures err { IfErr result (IsRefused files.now view.now (Name name.now colon)
            (reading_of self.old)) }
    {
        match fields_for(view.symbols, files, self.level.message, name) {
            Some(fields) => self.type_name(alloc, view, files, name, colon, fields),
            None => self.field_name(alloc, view, files, name, colon),
        }
    }

    fn value(
        &mut self,
        alloc: Global,
        symbols: &Symbols,
        files: &[FileDescriptorProto],
        pieces: &[Piece<'_>],
    ) -> Result<(), Unsaid>
        ensures ok { OnOk result (words.says_value files.now symbols.now (reading_of self.old)
            pieces.now ≡ Ok (reading_of self.new)) }
        ensures err { IfErr result (λ unsaid. IfUnsaid unsaid (λ kind. words.says_value files.now
            symbols.now (reading_of self.old) pieces.now ≡ Err kind)) }
    {
        let (named, field) = match named_field(symbols, files, &self.level) {
            Ok(found) => found,
            Err(kind) => return Err(Unsaid::Fault(kind)),
        };
        let message = self.level.message;
        let value = value_of(alloc, symbols, files, message, pieces, named, field)?;
        let in_proto3 = is_in_proto3(symbols, files, named.number);
        match self.say(named, in_proto3, field, value) {
            Ok(()) => Ok(()),
            Err(_) => Err(Unsaid::OutOfMemory),
        }
    }

    // A message begins as the value of the field that was named.
    fn enter_named(
        &mut self,
        alloc: Global,
        symbols: &Symbols,
        named: Named,
        field: &FieldDescriptorProto,
    ) -> Result<(), Unsaid>
        ensures ok { OnOk result (words.opened_typed (reading_of self.old) named field.now
            (message_of symbols.now field.now) named.typed ≡ Ok (reading_of self.new)) }
        ensures err { IfErr result (λ unsaid. IfUnsaid unsaid (λ kind. words.opened_typed
            (reading_of self.old) named field.now (message_of symbols.now field.now) named.typed
            ≡ Err kind)) }
    {
        let entered = match (named.typed, message_of_type(symbols, field)) {
            (Some(typed), _) => self.enter_typed(alloc, named, typed),
            (None, Some(message)) => self.enter(alloc, named, field, message),
            (None, None) => return Err(Unsaid::Fault(no_message(named))),
        };
        match entered {
            Ok(()) => Ok(()),
            Err(_) => Err(Unsaid::OutOfMemory),
        }
    }

    fn open(
        &mut self,
        alloc: Global,
        symbols: &Symbols,
        files: &[FileDescriptorProto],
    ) -> Result<(), Unsaid>
        ensures ok { OnOk result (words.opens files.now symbols.now (reading_of self.old)
            ≡ Ok (reading_of self.new)) }
        ensures err { IfErr result (λ unsaid. IfUnsaid unsaid (λ kind.
            words.opens files.now symbols.now (reading_of self.old) ≡ Err kind)) }
    {
        let (named, field) = match named_field(symbols, files, &self.level) {
            Ok(found) => found,
            Err(kind) => return Err(Unsaid::Fault(kind)),
        };
        self.enter_named(alloc, symbols, named, field)
    }

    // Goes back to a message `Any`, in which a type was named.
    fn leave_typed(
        &mut self,
        symbols: &Symbols,
        files: &[FileDescriptorProto],
        missing: Option<usize>,
        around: Level,
        typed: Typed,
    ) -> Result<(), Unsaid>
        ensures ok { OnOk result (words.goes_out files.now symbols.now missing
            (reading_of self.old) around (reading_of self.old).outer (Some typed)
            ≡ Ok (reading_of self.new)) }
        ensures err { IfErr result (λ unsaid. IfUnsaid unsaid (λ kind. words.goes_out files.now
            symbols.now missing (reading_of self.old) around (reading_of self.old).outer
            (Some typed) ≡ Err kind)) }
    {
        if missing.is_some() {
            return Err(Unsaid::Fault(AggregateFaultKind::MissingInAny(typed.message)));
        }
        if is_any_told(&around, typed) {
            return Err(Unsaid::Fault(AggregateFaultKind::AnyAgain));
        }
        let in_proto3 = is_in_proto3(symbols, files, around.message);
        match self.leave_value(in_proto3, around, typed) {
            Ok(()) => Ok(()),
            Err(_) => Err(Unsaid::OutOfMemory),
        }
    }

    // Goes back to the message around.
    fn leave_to(
        &mut self,
        symbols: &Symbols,
        files: &[FileDescriptorProto],
        missing: Option<usize>,
        around: Level,
    ) -> Result<(), Unsaid>
        ensures ok { OnOk result (words.goes_out files.now symbols.now missing
            (reading_of self.old) around (reading_of self.old).outer (levels.typed_in around)
            ≡ Ok (reading_of self.new)) }
        ensures err { IfErr result (λ unsaid. IfUnsaid unsaid (λ kind. words.goes_out files.now
            symbols.now missing (reading_of self.old) around (reading_of self.old).outer
            (levels.typed_in around) ≡ Err kind)) }
    {
        match around.typed() {
            Some(typed) => self.leave_typed(symbols, files, missing, around, typed),
            None => {
                self.level = around;
                self.level.lack(missing);
                self.entries.push(Entry::Close)?;
                Ok(())
            }
        }
    }

    fn leave(
        &mut self,
        symbols: &Symbols,
        files: &[FileDescriptorProto],
        missing: Option<usize>,
    ) -> Result<(), Unsaid>
        ensures ok { OnOk result (words.out_of files.now symbols.now missing (reading_of self.old)
            (reading_of self.old).outer ≡ Ok (reading_of self.new)) }
        ensures err { IfErr result (λ unsaid. IfUnsaid unsaid (λ kind. words.out_of files.now
            symbols.now missing (reading_of self.old) (reading_of self.old).outer ≡ Err kind)) }
    {
        match self.outer.pop() {
            Some(around) => self.leave_to(symbols, files, missing, around),
            None => Err(Unsaid::Fault(AggregateFaultKind::Misplaced)),
        }
    }

    fn close(
        &mut self,
        alloc: Global,
        symbols: &Symbols,
        files: &[FileDescriptorProto],
    ) -> Result<(), Unsaid>
        ensures ok { OnOk result (words.closes files.now symbols.now (reading_of self.old)
            ≡ Ok (reading_of self.new)) }
        ensures err { IfErr result (λ unsaid. IfUnsaid unsaid (λ kind.
            words.closes files.now symbols.now (reading_of self.old) ≡ Err kind)) }
    {
        let missing = missing_at_end(symbols, files, &self.level);
        say_at_end(alloc, symbols, files, &self.level, &mut self.entries)?;
        self.leave(symbols, files, missing)
    }

    fn list(&self, symbols: &Symbols, files: &[FileDescriptorProto]) -> Result<(), Unsaid>
        ensures ok { OnOk result (words.lists files.now symbols.now (reading_of self.now)
            ≡ Ok (reading_of self.now)) }
        ensures err { IfErr result (λ unsaid. IfUnsaid unsaid (λ kind.
            words.lists files.now symbols.now (reading_of self.now) ≡ Err kind)) }
    {
        match named_field(symbols, files, &self.level) {
            Ok((named, field)) => match wrong_with_list(symbols, named, field) {
                Some(kind) => Err(Unsaid::Fault(kind)),
                None => Ok(()),
            },
            Err(kind) => Err(Unsaid::Fault(kind)),
        }
    }

    fn take(
        &mut self,
        alloc: Global,
        view: &View<'_>,
        files: &[FileDescriptorProto],
        item: &Item<'_, '_>,
    ) -> Result<(), Unsaid>
        ensures ok { OnOk result (Leads files.now view.now (seen item.now) (reading_of self.old)
            (reading_of self.new)) }
        ensures err { IfErr result (IsRefused files.now view.now (seen item.now)
            (reading_of self.old)) }
    {
        match *item {
            Item::Name(name, colon) => self.name(alloc, view, files, name, colon),
            Item::Scalar(pieces) => self.value(alloc, view.symbols, files, pieces),
            Item::Open => self.open(alloc, view.symbols, files),
            Item::Close => self.close(alloc, view.symbols, files),
            Item::OpenList => self.list(view.symbols, files),
            Item::CloseList => Ok(()),
        }
    }
}

// Takes all steps.
fn take_all(
    alloc: Global,
    view: &View<'_>,
    files: &[FileDescriptorProto],
    items: &[Item<'_, '_>],
    reader: &mut Reader,
) -> Result<(), AggregateFailure>
    ensures ok { OnOk result (words.steps_from files.now view.now.symbols.now view.now.sees.now
        view.now.packages 0 (reading_of reader.old) (map seen items.now)
        ≡ Ok (reading_of reader.new)) }
    ensures err { IfErr result (λ failure. IfFault failure (λ fault. words.steps_from files.now
        view.now.symbols.now view.now.sees.now view.now.packages 0 (reading_of reader.old)
        (map seen items.now) ≡ Err fault)) }
{
    for (step, item) in items.iter().enumerate() {
        match reader.take(alloc, view, files, item) {
            Ok(()) => {}
            Err(Unsaid::Fault(kind)) => {
                return Err(AggregateFailure::Fault(AggregateFault { step, kind }));
            }
            Err(Unsaid::OutOfMemory) => return Err(AggregateFailure::OutOfMemory),
        }
    }
    Ok(())
}

// What was said of all, where the outermost message ends behind so many steps.
fn finish(
    alloc: Global,
    symbols: &Symbols,
    files: &[FileDescriptorProto],
    reader: Reader,
    step: usize,
) -> Result<Vec<Entry>, AggregateFailure>
    ensures said { IfOk result (λ entries. words.ends files.now symbols.now (reading_of reader)
        ≡ Ok entries.items) }
    ensures fault { IfErr result (λ failure. IfFault failure (λ fault. words.at_step step
        (words.ends files.now symbols.now (reading_of reader)) ≡ Err fault)) }
{
    if let Some(number) = missing_at_end(symbols, files, &reader.level) {
        let kind = AggregateFaultKind::Missing(number);
        return Err(AggregateFailure::Fault(AggregateFault { step, kind }));
    }
    let mut entries = reader.entries;
    match say_at_end(alloc, symbols, files, &reader.level, &mut entries) {
        Ok(()) => Ok(entries),
        Err(_) => Err(AggregateFailure::OutOfMemory),
    }
}

// What a message in text format says.
fn read_entries(
    alloc: Global,
    view: &View<'_>,
    files: &[FileDescriptorProto],
    message: usize,
    items: &[Item<'_, '_>],
) -> Result<Vec<Entry>, AggregateFailure>
    ensures said { IfOk result (λ entries. words.entries_of files.now view.now.symbols.now
        view.now.sees.now view.now.packages message (map seen items.now) ≡ Ok entries.items) }
    ensures fault { IfErr result (λ failure. IfFault failure (λ fault. words.entries_of files.now
        view.now.symbols.now view.now.sees.now view.now.packages message (map seen items.now)
        ≡ Err fault)) }
{
    let mut reader = Reader {
        level: Level::unread(alloc, message),
        outer: Vec::new(alloc),
        entries: Vec::new(alloc),
    };
    match take_all(alloc, view, files, items, &mut reader) {
        Ok(()) => finish(alloc, view.symbols, files, reader, items.len()),
        Err(failure) => Err(failure),
    }
}

/// What a message in text format says in a set of linked files, as steps through the fields that
/// are set. `message` is the number of its type in the table.
///
/// Each name is that of a field of the message in which it stands, or of an extension of it that the
/// file sees. Each value is one of the field's type. A field that isn't repeated is set once, one
/// field of a oneof is set, and no field is missing that its message needs. In proto3 a field that is
/// set to 0, `false` or an empty text isn't set. The entry of a map has both its key and its value.
///
/// In a message `google.protobuf.Any` a name in brackets is that of a type that the file sees,
/// behind one of protobuf's domains and a slash. What is in the brackets is the value of `type_url`,
/// and the bytes of the message of this type are that of `value`.
///
/// If the steps are those through a message, as `read` gives them, what is answered are steps
/// through a whole message, too, of which `message_bytes` gives the bytes.
///
/// # Errors
/// `Fault` with the first step that is wrong. That a field is missing is told where the whole
/// message ends, or the value of an `Any`. `OutOfMemory` where memory runs out.
pub fn entries_of(
    alloc: Global,
    view: &View<'_>,
    files: &[FileDescriptorProto],
    message: usize,
    items: &[Item<'_, '_>],
) -> Result<Vec<Entry>, AggregateFailure>
    ensures said { IfOk result (λ entries. words.entries_of files.now view.now.symbols.now
        view.now.sees.now view.now.packages message (map seen items.now) ≡ Ok entries.items) }
    ensures whole { IfOk result (λ entries. (levels : ℕ) (pieces : List APiece)
        → Spells AMessage levels pieces (map seen items.now) → IsWhole entries.items) }
    ensures fault { IfErr result (λ failure. IfFault failure (λ fault. words.entries_of files.now
        view.now.symbols.now view.now.sees.now view.now.packages message (map seen items.now)
        ≡ Err fault)) }
{
    read_entries(alloc, view, files, message, items)
}
