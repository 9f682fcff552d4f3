//! Reads services and their methods.

ghost use Rattle.std.specs.Prelude.{◌≡◌, OnOk};
ghost use Rattle.protox_rows.specs.inner.Outcome.{Gives};
ghost use Rattle.protox_rows.specs.inner.Words.{Says};
ghost use Rattle.protox_declarations.specs.inner.BlockWords as said;
ghost use Rattle.protox_rows.specs.inner.Notes.{Adds};
ghost use Rattle.protox_declarations.specs.inner.Services as rule;

use crate::options::option;
use protox_ast::ast::{Method, Option as OptionStatement, Service, TypeName};
use protox_descriptor::values::Items;
use protox_grammar::note::Note;
use protox_lex::error::Span;
use protox_rows::class::{OPTION, RIGHT_BRACE, SEMICOLON, STREAM, sees, sees_any, sees_other};
use protox_rows::expected::Expected;
use protox_rows::leaf::{expect_mark, expect_word};
use protox_rows::names::{ident, typename};
use protox_rows::refused::Refused;
use protox_rows::rows::{RowAt, Unread, comments_between, span_between};
use std::alloc::{AllocError, Global};

/// A declaration in a service.
#[derive(Drop)]
pub(crate) enum ServiceElement {
    Empty,
    Option(OptionStatement),
    Rpc(Method),
}

/// The declarations in a service, by kinds.
#[derive(Drop)]
pub(crate) struct ServiceParts {
    options: Items<OptionStatement>,
    methods: Items<Method>,
}

/// "stream"? typename
#[tactic(auto, unfolding(crate::specs::inner::Services::rpc_type, crate::specs::inner::BlockWords::rpc_type))]
fn rpc_type(alloc: Global, rows: &mut Unread<'_, '_>) -> Result<(Option<Span>, TypeName), Refused>
    ensures read { Gives (λ x. x) result rows.new ((rule.rpc_type).code rows.old) }
    ensures words { Says result (said.rpc_type rows.old) }
{
    if sees_any(rows, &[STREAM]) {
        let stream = expect_word(rows, "stream", Expected::StreamOrType)?;
        let (name, _) = typename(alloc, rows, Expected::TypeName)?;
        return Ok((Some(stream.span()), name));
    }
    let (name, _) = typename(alloc, rows, Expected::StreamOrType)?;
    Ok((None, name))
}

/// ";" | option
#[tactic(auto, unfolding(crate::specs::inner::Services::rpc_element, crate::specs::inner::BlockWords::rpc_element))]
fn rpc_element(
    alloc: Global,
    notes: &mut Vec<Note>,
    rows: &mut Unread<'_, '_>,
) -> Result<Option<OptionStatement>, Refused>
    ensures read { Gives (λ x. x) result rows.new ((rule.rpc_element).code rows.old) }
    ensures notes { Adds result notes.old.items ((rule.rpc_element).notes rows.old) notes.new.items }
    ensures words { Says result (said.rpc_element rows.old) }
{
    if sees(rows, SEMICOLON) {
        expect_mark(rows, b';', Expected::Semicolon)?;
        return Ok(None);
    }
    let option = option(alloc, notes, rows, Expected::RpcBody)?;
    Ok(Some(option))
}

fn put_option(
    options: &mut Items<OptionStatement>,
    element: Option<OptionStatement>,
) -> Result<(), AllocError>
    ensures { OnOk result (options.new ≡ rule.add_option options.old element) }
{
    match element {
        None => Ok(()),
        Some(option) => options.push(option),
    }
}

#[tactic(auto, unfolding(crate::specs::inner::Services::rpc_elements, crate::specs::inner::BlockWords::rpc_elements))]
fn rpc_elements(
    alloc: Global,
    notes: &mut Vec<Note>,
    rows: &mut Unread<'_, '_>,
) -> Result<Items<OptionStatement>, Refused>
    ensures read { Gives (λ x. x) result rows.new ((rule.rpc_elements).code rows.old) }
    ensures notes { Adds result notes.old.items ((rule.rpc_elements).notes rows.old) notes.new.items }
    ensures words { Says result (said.rpc_elements rows.old) }
{
    let mut options = Items::new(alloc);
    'more: while sees_other(rows, RIGHT_BRACE) {
        let element = rpc_element(alloc, notes, rows)?;
        put_option(&mut options, element)?;
    }
    Ok(options)
}

/// ";" | "{" (";" | option)* "}"
#[tactic(auto, unfolding(crate::specs::inner::Services::rpc_end, crate::specs::inner::BlockWords::rpc_end))]
fn rpc_end<'t, 'a>(
    alloc: Global,
    notes: &mut Vec<Note>,
    rows: &mut Unread<'t, 'a>,
) -> Result<(Items<OptionStatement>, RowAt<'t, 'a>), Refused>
    ensures read { Gives (λ x. (x.0, x.1.at)) result rows.new ((rule.rpc_end).code rows.old) }
    ensures notes { Adds result notes.old.items ((rule.rpc_end).notes rows.old) notes.new.items }
    ensures words { Says result (said.rpc_end rows.old) }
{
    if sees(rows, SEMICOLON) {
        let end = expect_mark(rows, b';', Expected::Semicolon)?;
        return Ok((Items::new(alloc), end));
    }
    expect_mark(rows, b'{', Expected::SemicolonOrBrace)?;
    let options = rpc_elements(alloc, notes, rows)?;
    let end = expect_mark(rows, b'}', Expected::RpcBody)?;
    Ok((options, end))
}

/// "returns" "(" "stream"? typename ")" (";" | "{" (";" | option)* "}")
#[tactic(auto, unfolding(crate::specs::inner::Services::output, crate::specs::inner::BlockWords::output))]
fn output<'t, 'a>(
    alloc: Global,
    notes: &mut Vec<Note>,
    rows: &mut Unread<'t, 'a>,
) -> Result<
    (
        (Option<Span>, TypeName),
        (Items<OptionStatement>, RowAt<'t, 'a>),
    ),
    Refused,
>
    ensures read { Gives (λ (ty, (options, end)). (ty, (options, end.at))) result rows.new ((rule.output).code rows.old) }
    ensures notes { Adds result notes.old.items ((rule.output).notes rows.old) notes.new.items }
    ensures words { Says result (said.output rows.old) }
{
    expect_word(rows, "returns", Expected::Returns)?;
    expect_mark(rows, b'(', Expected::LeftParen)?;
    let ty = rpc_type(alloc, rows)?;
    expect_mark(rows, b')', Expected::DotOrRightParen)?;
    let end = rpc_end(alloc, notes, rows)?;
    Ok((ty, end))
}

/// rpc = "rpc" ident "(" "stream"? typename ")" "returns" "(" "stream"? typename ")"
///     (";" | "{" (";" | option)* "}")
#[tactic(auto, unfolding(crate::specs::inner::Services::rpc, crate::specs::inner::BlockWords::rpc))]
fn rpc(alloc: Global, notes: &mut Vec<Note>, rows: &mut Unread<'_, '_>) -> Result<Method, Refused>
    ensures read { Gives (λ x. x) result rows.new ((rule.rpc).code rows.old) }
    ensures notes { Adds result notes.old.items ((rule.rpc).notes rows.old) notes.new.items }
    ensures words { Says result (said.rpc rows.old) }
{
    let start = expect_word(rows, "rpc", Expected::ServiceBody)?;
    let name = ident(alloc, rows, Expected::Ident)?;
    expect_mark(rows, b'(', Expected::LeftParen)?;
    let (client_streaming, input_ty) = rpc_type(alloc, rows)?;
    expect_mark(rows, b')', Expected::DotOrRightParen)?;
    let ((server_streaming, output_ty), (options, end)) = output(alloc, notes, rows)?;
    let comments = comments_between(alloc, &start, &end)?;
    let span = span_between(&start, &end);
    Ok(Method {
        name,
        input_ty,
        output_ty,
        options,
        client_streaming,
        server_streaming,
        comments,
        span,
    })
}

/// ";" | option | rpc
#[tactic(auto, unfolding(crate::specs::inner::Services::service_element, crate::specs::inner::BlockWords::service_element))]
fn service_element(
    alloc: Global,
    notes: &mut Vec<Note>,
    rows: &mut Unread<'_, '_>,
) -> Result<ServiceElement, Refused>
    ensures read { Gives (λ x. x) result rows.new ((rule.service_element).code rows.old) }
    ensures notes { Adds result notes.old.items ((rule.service_element).notes rows.old) notes.new.items }
    ensures words { Says result (said.service_element rows.old) }
{
    if sees(rows, SEMICOLON) {
        expect_mark(rows, b';', Expected::Semicolon)?;
        return Ok(ServiceElement::Empty);
    }
    if sees(rows, OPTION) {
        let option = option(alloc, notes, rows, Expected::ServiceBody)?;
        return Ok(ServiceElement::Option(option));
    }
    let method = rpc(alloc, notes, rows)?;
    Ok(ServiceElement::Rpc(method))
}

fn put(parts: &mut ServiceParts, element: ServiceElement) -> Result<(), AllocError>
    ensures { OnOk result (parts.new ≡ rule.add parts.old element) }
{
    match element {
        ServiceElement::Empty => Ok(()),
        ServiceElement::Option(option) => parts.options.push(option),
        ServiceElement::Rpc(method) => parts.methods.push(method),
    }
}

#[tactic(auto, unfolding(crate::specs::inner::Services::service_elements, crate::specs::inner::BlockWords::service_elements))]
fn service_elements(
    alloc: Global,
    notes: &mut Vec<Note>,
    rows: &mut Unread<'_, '_>,
) -> Result<ServiceParts, Refused>
    ensures read { Gives (λ x. x) result rows.new ((rule.service_elements).code rows.old) }
    ensures notes { Adds result notes.old.items ((rule.service_elements).notes rows.old) notes.new.items }
    ensures words { Says result (said.service_elements rows.old) }
{
    let mut parts = ServiceParts {
        options: Items::new(alloc),
        methods: Items::new(alloc),
    };
    'more: while sees_other(rows, RIGHT_BRACE) {
        let element = service_element(alloc, notes, rows)?;
        put(&mut parts, element)?;
    }
    Ok(parts)
}

/// service = "service" ident "{" (";" | option | rpc)* "}"
#[tactic(auto, unfolding(crate::specs::inner::Services::service, crate::specs::inner::BlockWords::service))]
pub fn service(
    alloc: Global,
    notes: &mut Vec<Note>,
    rows: &mut Unread<'_, '_>,
    expected: Expected,
) -> Result<Service, Refused>
    ensures read { Gives (λ x. x) result rows.new ((rule.service).code rows.old) }
    ensures notes { Adds result notes.old.items ((rule.service).notes rows.old) notes.new.items }
    ensures words { Says result (said.service expected rows.old) }
{
    let start = expect_word(rows, "service", expected)?;
    let name = ident(alloc, rows, Expected::Ident)?;
    let open = expect_mark(rows, b'{', Expected::LeftBrace)?;
    let parts = service_elements(alloc, notes, rows)?;
    let close = expect_mark(rows, b'}', Expected::ServiceBody)?;
    let comments = comments_between(alloc, &start, &open)?;
    let span = span_between(&start, &close);
    let ServiceParts { options, methods } = parts;
    Ok(Service {
        name,
        options,
        methods,
        comments,
        span,
    })
}
