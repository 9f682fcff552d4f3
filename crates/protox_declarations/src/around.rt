//! Helpers of bodies that never recurse into one: the first span, options, reserved and extensions
//! statements, and the refusal of a body that is too deep.

ghost use Rattle.std.specs.Prelude.{◌≡◌};
ghost use Rattle.protox_grammar.proofs.Lemmas.{sunk_notes};
ghost use Rattle.protox_grammar.specs.Bodies.{deep_read};
ghost use Rattle.protox_ast.specs.Places.{Place};
ghost use Rattle.protox_rows.specs.inner.Outcome.{Fails, Gives};
ghost use Rattle.protox_rows.specs.inner.Words.{Says, SaysOf};
ghost use Rattle.protox_declarations.specs.inner.BodyWords as said;
ghost use Rattle.protox_rows.specs.inner.Notes.{Adds, AddsTo};
ghost use Rattle.protox_declarations.specs.inner.Bodies as rule;
ghost use Rattle.protox_declarations.specs.inner.Fields.{first_span};

use crate::options::option;
use crate::parts::Element;
use crate::ranges::{extensions, reserved};
use protox_ast::ast::{Boxed, OptionList};
use protox_grammar::note::Note;
use protox_lex::error::{ParseErrorKind, Span};
use protox_rows::checks::add_read_fault;
use protox_rows::class::{OPTION, RESERVED, sees};
use protox_rows::expected::Expected;
use protox_rows::leaf::{copied, is_mark, refused};
use protox_rows::refused::Refused;
use protox_rows::rows::Unread;
use std::alloc::Global;

/// The span of the first of these rows.
pub(crate) fn first_span(rows: &Unread<'_, '_>) -> Span
    ensures { result ≡ first_span rows.now }
{
    match rows.first() {
        Some(first) => first.span(),
        None => 0..0,
    }
}

/// What may follow a group's number: its body or a list of options.
pub(crate) fn before_body(options: &Option<Boxed<OptionList>>) -> Expected
    ensures { result ≡ said.before_body options.now }
{
    match options {
        Some(_) => Expected::LeftBrace,
        None => Expected::BraceOrOptions,
    }
}

/// option | reserved | extensions
#[tactic(auto, unfolding(crate::specs::inner::Bodies::bodiless_element, crate::specs::inner::BodyWords::bodiless_element))]
pub(crate) fn bodiless_element(
    alloc: Global,
    notes: &mut Vec<Note>,
    rows: &mut Unread<'_, '_>,
) -> Result<Element, Refused>
    ensures read { Gives (λ x. x) result rows.new ((rule.bodiless_element).code rows.old) }
    ensures notes { Adds result notes.old.items ((rule.bodiless_element).notes rows.old) notes.new.items }
    ensures words { Says result (said.bodiless_element rows.old) }
{
    if sees(rows, OPTION) {
        let option = option(alloc, notes, rows, Expected::MessageBody)?;
        return Ok(Element::Option(option));
    }
    if sees(rows, RESERVED) {
        let reserved = reserved(alloc, notes, rows, Expected::MessageBody)?;
        return Ok(Element::Reserved(reserved));
    }
    let extensions = extensions(alloc, notes, rows, Expected::MessageBody)?;
    Ok(Element::Extensions(extensions))
}

/// Notes that the body that opens here is too deep. It is not read.
#[tactic(auto, unfolding(protox_grammar::specs::Reader::too_deep, protox_grammar::specs::Bodies::deep_read))]
pub(crate) fn refuse_deep_body(
    notes: &mut Vec<Note>,
    rows: &Unread<'_, '_>,
    word: &Span,
    expected: Expected,
) -> Refused
    ensures read { Fails result (deep_read {M = Place} rows.now) }
    ensures notes { AddsTo result notes.old.items (sunk_notes word.now rows.now) notes.new.items }
    ensures words { SaysOf result expected }
{
    match rows.split() {
        Some((row, rest)) if is_mark(row.token(), b'{') => {
            let span = copied(word);
            match add_read_fault(notes, &rest, ParseErrorKind::MessageNestingTooDeep { span }) {
                Ok(()) => Refused::TooDeep { left: rows.len() },
                Err(_) => Refused::OutOfMemory,
            }
        }
        _ => refused(rows, expected),
    }
}
