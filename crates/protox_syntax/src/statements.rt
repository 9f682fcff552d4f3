//! Reads the syntax statement and the other statements of a file.

ghost use Rattle.std.specs.Prelude.{◌≡◌, ◌++◌, OnOk, IfOk};
ghost use Rattle.protox_ast.specs.Ast.{syntax_of, text_of};
ghost use Rattle.protox_grammar.specs.Told.{import_notes};
ghost use Rattle.protox_rows.specs.inner.Outcome.{Gives};
ghost use Rattle.protox_rows.specs.inner.Words.{Says};
ghost use Rattle.protox_syntax.specs.inner.Words as said;
ghost use Rattle.protox_rows.specs.declared.expected.Expected.TheVariants as expect;
ghost use Rattle.protox_rows.specs.inner.Words as row_said;
ghost use Rattle.protox_rows.specs.inner.Notes.{Adds};
ghost use Rattle.protox_syntax.specs.inner.Statements as rule;

use crate::checks::{check_package, check_path, check_syntax};
use crate::statement_types::Statement;
use protox_ast::ast::{Comments, FileItem, FullIdent, Import, ImportKind, Package, Syntax};
use protox_declarations::bodies::{extend, message};
use protox_declarations::enums::enum_;
use protox_declarations::options::option;
use protox_declarations::services::service;
use protox_descriptor::values::Text;
use protox_grammar::note::Note;
use protox_lex::error::Span;
use protox_rows::checks::check_text;
use protox_rows::class::{
    ENUM, EXTEND, IMPORT, MESSAGE, OPTION, PACKAGE, PUBLIC, SEMICOLON, SYNTAX, WEAK, sees, sees_any,
};
use protox_rows::expected::Expected;
use protox_rows::leaf::{expect_mark, expect_word};
use protox_rows::names::fullident;
use protox_rows::refused::Refused;
use protox_rows::rows::{Unread, comments_between, span_between};
use protox_rows::strings::{strings, text_of};
use std::alloc::{AllocError, Global};

/// How many levels of messages and groups may be nested.
pub const MAX_MESSAGE_NESTING_DEPTH: u32 = 31;

// That limit as a usize: the parser counts levels down to 0.
const LEVELS: usize = MAX_MESSAGE_NESTING_DEPTH as usize;

fn syntax_of(value: &[u8]) -> Syntax
    ensures { result ≡ syntax_of value.now }
{
    if value == b"proto3".as_slice() {
        Syntax::Proto3
    } else {
        Syntax::Proto2
    }
}

/// string+ , read as the name of a syntax
#[tactic(auto, unfolding(crate::specs::inner::Statements::syntax_value))]
fn syntax_value(
    alloc: Global,
    notes: &mut Vec<Note>,
    rows: &mut Unread<'_, '_>,
) -> Result<Syntax, Refused>
    ensures read { Gives (λ x. x) result rows.new ((rule.syntax_value).code rows.old) }
    ensures notes { Adds result notes.old.items ((rule.syntax_value).notes rows.old) notes.new.items }
    ensures words { Says result (row_said.strings expect.String rows.old) }
{
    let (value, span) = strings(alloc, rows, Expected::String)?;
    check_syntax(alloc, notes, rows, &value, &span)?;
    Ok(syntax_of(&value))
}

/// syntax = "syntax" "=" string+ ";"
#[tactic(auto, unfolding(crate::specs::inner::Statements::syntax, crate::specs::inner::Words::syntax))]
fn syntax(
    alloc: Global,
    notes: &mut Vec<Note>,
    rows: &mut Unread<'_, '_>,
) -> Result<(Syntax, (Span, Comments)), Refused>
    ensures read { Gives (λ x. x) result rows.new ((rule.syntax).code rows.old) }
    ensures notes { Adds result notes.old.items ((rule.syntax).notes rows.old) notes.new.items }
    ensures words { Says result (said.syntax rows.old) }
{
    let start = expect_word(rows, "syntax", Expected::Syntax)?;
    expect_mark(rows, b'=', Expected::Equals)?;
    let syntax = syntax_value(alloc, notes, rows)?;
    let end = expect_mark(rows, b';', Expected::Semicolon)?;
    let comments = comments_between(alloc, &start, &end)?;
    let span = span_between(&start, &end);
    Ok((syntax, (span, comments)))
}

/// syntax? . None where the rows don't begin with `syntax`.
#[tactic(auto, unfolding(crate::specs::inner::Statements::syntax_if_any))]
pub(crate) fn syntax_if_any(
    alloc: Global,
    notes: &mut Vec<Note>,
    rows: &mut Unread<'_, '_>,
) -> Result<Option<(Syntax, (Span, Comments))>, Refused>
    ensures read { Gives (λ x. x) result rows.new ((rule.syntax_if_any).code rows.old) }
    ensures notes { Adds result notes.old.items ((rule.syntax_if_any).notes rows.old) notes.new.items }
    ensures words { Says result (said.syntax rows.old) }
{
    if sees(rows, SYNTAX) {
        let syntax = syntax(alloc, notes, rows)?;
        return Ok(Some(syntax));
    }
    Ok(None)
}

/// "weak" | "public"
#[tactic(auto, unfolding(crate::specs::inner::Statements::import_kind))]
fn import_kind(rows: &mut Unread<'_, '_>) -> Result<(ImportKind, Span), Refused>
    ensures read { Gives (λ x. x) result rows.new ((rule.import_kind).code rows.old) }
    ensures words { Says result expect.WeakOrPublic }
{
    if sees(rows, WEAK) {
        let word = expect_word(rows, "weak", Expected::WeakOrPublic)?;
        return Ok((ImportKind::Weak, word.span()));
    }
    let word = expect_word(rows, "public", Expected::WeakOrPublic)?;
    Ok((ImportKind::Public, word.span()))
}

#[tactic(auto, unfolding(crate::specs::inner::Statements::import_kind_if_any))]
fn import_kind_if_any(rows: &mut Unread<'_, '_>) -> Result<Option<(ImportKind, Span)>, Refused>
    ensures read { Gives (λ x. x) result rows.new ((rule.import_kind_if_any).code rows.old) }
    ensures words { Says result expect.WeakOrPublic }
{
    if sees_any(rows, &[WEAK, PUBLIC]) {
        let kind = import_kind(rows)?;
        return Ok(Some(kind));
    }
    Ok(None)
}

// What may follow: only a string once `weak` or `public` is read.
fn after_import(kind: &Option<(ImportKind, Span)>) -> Expected
    ensures { result ≡ said.after_import kind.now }
{
    match kind {
        Some(_) => Expected::StringLiteral,
        None => Expected::ImportString,
    }
}

// Checks the text of an import.
fn checked_path(
    alloc: Global,
    notes: &mut Vec<Note>,
    rows: &Unread<'_, '_>,
    bytes: &[u8],
    span: &Span,
) -> Result<Text, AllocError>
    ensures text { IfOk result (λ t. t ≡ text_of bytes.now) }
    ensures notes { OnOk result (notes.new.items ≡ notes.old.items ++ import_notes (bytes.now, span.now) rows.now) }
{
    check_text(notes, rows, bytes, span)?;
    let text = text_of(alloc, bytes)?;
    check_path(notes, rows, text.as_str(), span)?;
    Ok(text)
}

/// string+ , read as an import's path with its span
#[tactic(auto, unfolding(crate::specs::inner::Statements::path))]
fn path(
    alloc: Global,
    notes: &mut Vec<Note>,
    rows: &mut Unread<'_, '_>,
    expected: Expected,
) -> Result<(Text, Span), Refused>
    ensures read { Gives (λ x. x) result rows.new ((rule.path).code rows.old) }
    ensures notes { Adds result notes.old.items ((rule.path).notes rows.old) notes.new.items }
    ensures words { Says result (row_said.strings expected rows.old) }
{
    let (bytes, span) = strings(alloc, rows, expected)?;
    let text = checked_path(alloc, notes, rows, &bytes, &span)?;
    Ok((text, span))
}

/// import = "import" ("weak" | "public")? string+ ";"
#[tactic(auto, unfolding(crate::specs::inner::Statements::import_, crate::specs::inner::Words::import_))]
fn import_(
    alloc: Global,
    notes: &mut Vec<Note>,
    rows: &mut Unread<'_, '_>,
) -> Result<Import, Refused>
    ensures read { Gives (λ x. x) result rows.new ((rule.import_).code rows.old) }
    ensures notes { Adds result notes.old.items ((rule.import_).notes rows.old) notes.new.items }
    ensures words { Says result (said.import_ rows.old) }
{
    let start = expect_word(rows, "import", Expected::Import)?;
    let kind = import_kind_if_any(rows)?;
    let (value, value_span) = path(alloc, notes, rows, after_import(&kind))?;
    let end = expect_mark(rows, b';', Expected::Semicolon)?;
    let comments = comments_between(alloc, &start, &end)?;
    let span = span_between(&start, &end);
    Ok(Import {
        kind,
        value,
        value_span,
        comments,
        span,
    })
}

/// package = "package" fullident ";"
#[tactic(auto, unfolding(crate::specs::inner::Statements::package_, crate::specs::inner::Words::package_))]
fn package_(alloc: Global, rows: &mut Unread<'_, '_>) -> Result<Package, Refused>
    ensures read { Gives (λ x. x) result rows.new ((rule.package_).code rows.old) }
    ensures words { Says result (said.package_ rows.old) }
{
    let start = expect_word(rows, "package", Expected::Statement)?;
    let parts = fullident(alloc, rows, Expected::Ident)?;
    let end = expect_mark(rows, b';', Expected::DotOrSemicolon)?;
    let comments = comments_between(alloc, &start, &end)?;
    let span = span_between(&start, &end);
    let name = FullIdent::from_parts(parts.into_vec());
    Ok(Package {
        name,
        comments,
        span,
    })
}

// A package statement. A second one is noted as a fault; `first` is the place of the first.
#[tactic(auto, unfolding(crate::specs::inner::Statements::package_statement))]
fn package_statement(
    alloc: Global,
    notes: &mut Vec<Note>,
    rows: &mut Unread<'_, '_>,
    first: &Option<Span>,
) -> Result<Statement, Refused>
    ensures read { Gives (λ x. x) result rows.new ((rule.package_statement).code rows.old) }
    ensures notes { Adds result notes.old.items ((rule.package_statement).notes first.now rows.old) notes.new.items }
    ensures words { Says result (said.package_ rows.old) }
{
    let package = package_(alloc, rows)?;
    check_package(notes, rows, first, &package.span)?;
    Ok(Statement::Package(package))
}

/// extend | message | enum | service
#[tactic(auto, unfolding(crate::specs::inner::Statements::item_, crate::specs::inner::Words::item_))]
fn item_(
    alloc: Global,
    notes: &mut Vec<Note>,
    rows: &mut Unread<'_, '_>,
) -> Result<Statement, Refused>
    ensures read { Gives (λ x. x) result rows.new ((rule.item_).code rows.old) }
    ensures notes { Adds result notes.old.items ((rule.item_).notes rows.old) notes.new.items }
    ensures words { Says result (said.item_ rows.old) }
{
    if sees(rows, EXTEND) {
        let extend = extend(alloc, notes, rows, LEVELS)?;
        return Ok(Statement::Item(FileItem::Extend(extend)));
    }
    if sees(rows, MESSAGE) {
        let message = message(alloc, notes, rows, LEVELS)?;
        return Ok(Statement::Item(FileItem::Message(message)));
    }
    if sees(rows, ENUM) {
        let enum_ = enum_(alloc, notes, rows, Expected::Statement)?;
        return Ok(Statement::Item(FileItem::Enum(enum_)));
    }
    let service = service(alloc, notes, rows, Expected::Statement)?;
    Ok(Statement::Item(FileItem::Service(service)))
}

// option | extend | message | enum | service
#[tactic(auto, unfolding(crate::specs::inner::Statements::declared, crate::specs::inner::Words::declared))]
fn declared(
    alloc: Global,
    notes: &mut Vec<Note>,
    rows: &mut Unread<'_, '_>,
) -> Result<Statement, Refused>
    ensures read { Gives (λ x. x) result rows.new ((rule.declared).code rows.old) }
    ensures notes { Adds result notes.old.items ((rule.declared).notes rows.old) notes.new.items }
    ensures words { Says result (said.declared rows.old) }
{
    if sees(rows, OPTION) {
        let option = option(alloc, notes, rows, Expected::Statement)?;
        return Ok(Statement::Option(option));
    }
    item_(alloc, notes, rows)
}

/// statement = ";" | import | package | option | extend | message | enum | service
#[tactic(auto, unfolding(crate::specs::inner::Statements::statement, crate::specs::inner::Words::statement))]
pub(crate) fn statement(
    alloc: Global,
    notes: &mut Vec<Note>,
    rows: &mut Unread<'_, '_>,
    first: &Option<Span>,
) -> Result<Statement, Refused>
    ensures read { Gives (λ x. x) result rows.new ((rule.statement).code rows.old) }
    ensures notes { Adds result notes.old.items ((rule.statement).notes first.now rows.old) notes.new.items }
    ensures words { Says result (said.statement rows.old) }
{
    if sees(rows, SEMICOLON) {
        expect_mark(rows, b';', Expected::Semicolon)?;
        return Ok(Statement::Empty);
    }
    if sees(rows, IMPORT) {
        let import = import_(alloc, notes, rows)?;
        return Ok(Statement::Import(import));
    }
    if sees(rows, PACKAGE) {
        return package_statement(alloc, notes, rows, first);
    }
    declared(alloc, notes, rows)
}
