//! The locations of reserved statements and of extension ranges.

ghost use Rattle.std.specs.Prelude.{◌≤◌, flat_map, map, IfOk, OnOk};
ghost use Rattle.protox_ast.specs.Ranges.{kind_names, kind_ranges};
ghost use Rattle.protox_ast.specs.declared.ast.Extensions as extensions_type;
ghost use Rattle.protox_ast.specs.declared.ast.Reserved as reserved_type;
ghost use Rattle.protox_places.specs.Lines.{numbers_at};
ghost use Rattle.protox_locate.specs.LocationWords.{each_at, extension_range, extensions_statement, extensions_statements, name_statement, name_statements, nth, part, range_locations, range_statement, range_statements, reserved_name, siblings_at};
ghost use Rattle.protox_locate.specs.inner.Walk.{Emits, Numbers};

use crate::context::{Context, index_number};
use crate::options::locate_list;
use protox_ast::ast::{Extensions, Ident, Reserved, ReservedKind, ReservedRange};
use protox_descriptor::tag::message::EXTENSION_RANGE;
use protox_descriptor::tag::message::extension_range::OPTIONS;
use protox_descriptor::tag::message::reserved_range::{END, START};
use protox_places::lines::LineResolver;
use std::alloc::{AllocError, Global};

fn locate_range(
    alloc: Global,
    lines: &LineResolver,
    context: &mut Context,
    range: &ReservedRange,
) -> Result<(), AllocError>
    ensures { OnOk result (Emits context.old context.new (range_locations (numbers_at lines.now) range.now context.old.path)) }
{
    let whole = range.span();
    let end = range.end_span();
    context.add(alloc, lines, &[], &whole)?;
    context.add(alloc, lines, &[START], &range.start.span)?;
    context.add(alloc, lines, &[END], &end)
}

// ---- reserved statements

/// Adds the locations of the statements that reserve ranges, and of the ranges.
pub(crate) fn locate_ranges(
    alloc: Global,
    lines: &LineResolver,
    context: &mut Context,
    tag: i32,
    statements: &[Reserved],
) -> Result<(), AllocError>
    ensures { OnOk result (Emits context.old context.new (range_statements (numbers_at lines.now) context.old.path tag statements.now)) }
{
    add_range_statements(alloc, lines, context, tag, statements)?;
    number_ranges(alloc, lines, context, tag, statements)
}

#[tactic(auto, using(crate::proofs::Numbered::walk))]
fn add_range_statements(
    alloc: Global,
    lines: &LineResolver,
    context: &mut Context,
    tag: i32,
    statements: &[Reserved],
) -> Result<(), AllocError>
    ensures { OnOk result (Emits context.old context.new (each_at (part context.old.path tag) (flat_map (λ (statement : reserved_type.Reserved). range_statement (numbers_at lines.now) statement statement.kind) statements.now))) }
{
    for statement in statements {
        if let ReservedKind::Ranges(_) = &statement.kind {
            context.add_with(alloc, lines, &[tag], &statement.span, &statement.comments)?;
        }
    }
    Ok(())
}

#[tactic(auto, using(crate::proofs::Numbered::walk))]
fn number_ranges(
    alloc: Global,
    lines: &LineResolver,
    context: &mut Context,
    tag: i32,
    statements: &[Reserved],
) -> Result<(), AllocError>
    ensures { OnOk result (Emits context.old context.new (siblings_at context.old.path tag (flat_map (λ (statement : reserved_type.Reserved). map (range_locations (numbers_at lines.now)) (kind_ranges statement.kind)) statements.now))) }
{
    let mut next: usize = 0;
    for statement in statements {
        next = ranges_of(alloc, lines, context, tag, &statement.kind, next)?;
    }
    Ok(())
}

fn ranges_of(
    alloc: Global,
    lines: &LineResolver,
    context: &mut Context,
    tag: i32,
    kind: &ReservedKind,
    first: usize,
) -> Result<usize, AllocError>
    ensures siblings { IfOk result (λ next. Numbers context.old context.new tag first next (map (range_locations (numbers_at lines.now)) (kind_ranges kind.now))) }
{
    match kind {
        ReservedKind::Ranges(ranges) => {
            ranges_in(alloc, lines, context, tag, ranges.as_slice(), first)
        }
        ReservedKind::Names(_) => Ok(first),
    }
}

#[tactic(auto, using(crate::proofs::Numbered::walk))]
fn ranges_in(
    alloc: Global,
    lines: &LineResolver,
    context: &mut Context,
    tag: i32,
    ranges: &[ReservedRange],
    first: usize,
) -> Result<usize, AllocError>
    ensures siblings { IfOk result (λ next. Numbers context.old context.new tag first next (map (range_locations (numbers_at lines.now)) ranges.now)) }
{
    let mut next = first;
    for range in ranges {
        context.enter(tag, next)?;
        locate_range(alloc, lines, context, range)?;
        context.leave();
        next += 1;
    }
    Ok(next)
}

/// Adds the locations of the statements that reserve names, and of the names.
pub(crate) fn locate_names(
    alloc: Global,
    lines: &LineResolver,
    context: &mut Context,
    tag: i32,
    statements: &[Reserved],
) -> Result<(), AllocError>
    ensures { OnOk result (Emits context.old context.new (name_statements (numbers_at lines.now) context.old.path tag statements.now)) }
{
    add_name_statements(alloc, lines, context, tag, statements)?;
    number_names(alloc, lines, context, tag, statements)
}

#[tactic(auto, using(crate::proofs::Numbered::walk))]
fn add_name_statements(
    alloc: Global,
    lines: &LineResolver,
    context: &mut Context,
    tag: i32,
    statements: &[Reserved],
) -> Result<(), AllocError>
    ensures { OnOk result (Emits context.old context.new (each_at (part context.old.path tag) (flat_map (λ (statement : reserved_type.Reserved). name_statement (numbers_at lines.now) statement statement.kind) statements.now))) }
{
    for statement in statements {
        if let ReservedKind::Names(_) = &statement.kind {
            context.add_with(alloc, lines, &[tag], &statement.span, &statement.comments)?;
        }
    }
    Ok(())
}

#[tactic(auto, using(crate::proofs::Numbered::walk))]
fn number_names(
    alloc: Global,
    lines: &LineResolver,
    context: &mut Context,
    tag: i32,
    statements: &[Reserved],
) -> Result<(), AllocError>
    ensures { OnOk result (Emits context.old context.new (siblings_at context.old.path tag (flat_map (λ (statement : reserved_type.Reserved). map (reserved_name (numbers_at lines.now)) (kind_names statement.kind)) statements.now))) }
{
    let mut next: usize = 0;
    for statement in statements {
        next = names_of(alloc, lines, context, tag, &statement.kind, next)?;
    }
    Ok(())
}

fn names_of(
    alloc: Global,
    lines: &LineResolver,
    context: &mut Context,
    tag: i32,
    kind: &ReservedKind,
    first: usize,
) -> Result<usize, AllocError>
    ensures siblings { IfOk result (λ next. Numbers context.old context.new tag first next (map (reserved_name (numbers_at lines.now)) (kind_names kind.now))) }
{
    match kind {
        ReservedKind::Ranges(_) => Ok(first),
        ReservedKind::Names(names) => {
            names_in(alloc, lines, context, tag, names.as_slice(), first)
        }
    }
}

#[tactic(auto, using(crate::proofs::Numbered::walk))]
fn names_in(
    alloc: Global,
    lines: &LineResolver,
    context: &mut Context,
    tag: i32,
    names: &[Ident],
    first: usize,
) -> Result<usize, AllocError>
    ensures siblings { IfOk result (λ next. Numbers context.old context.new tag first next (map (reserved_name (numbers_at lines.now)) names.now)) }
{
    let mut next = first;
    for name in names {
        let tags = [tag, index_number(next)?];
        context.add(alloc, lines, &tags, &name.span)?;
        next += 1;
    }
    Ok(next)
}

// ---- extensions statements

/// Adds the locations of the `extensions` statements, and of their ranges.
pub(crate) fn locate_extension_ranges(
    alloc: Global,
    lines: &LineResolver,
    context: &mut Context,
    statements: &[Extensions],
) -> Result<(), AllocError>
    ensures { OnOk result (Emits context.old context.new (extensions_statements (numbers_at lines.now) context.old.path statements.now)) }
{
    add_extensions(alloc, lines, context, statements)?;
    number_extensions(alloc, lines, context, statements)
}

#[tactic(auto, using(crate::proofs::Numbered::walk))]
fn add_extensions(
    alloc: Global,
    lines: &LineResolver,
    context: &mut Context,
    statements: &[Extensions],
) -> Result<(), AllocError>
    ensures { OnOk result (Emits context.old context.new (each_at (part context.old.path EXTENSION_RANGE) (map (extensions_statement (numbers_at lines.now)) statements.now))) }
{
    for statement in statements {
        let tags = [EXTENSION_RANGE];
        context.add_with(alloc, lines, &tags, &statement.span, &statement.comments)?;
    }
    Ok(())
}

#[tactic(auto, using(crate::proofs::Numbered::walk))]
fn number_extensions(
    alloc: Global,
    lines: &LineResolver,
    context: &mut Context,
    statements: &[Extensions],
) -> Result<(), AllocError>
    ensures { OnOk result (Emits context.old context.new (siblings_at context.old.path EXTENSION_RANGE (flat_map (λ (statement : extensions_type.Extensions). map (extension_range (numbers_at lines.now) statement) statement.ranges) statements.now))) }
{
    let mut next: usize = 0;
    for statement in statements {
        next = extension_ranges_of(alloc, lines, context, statement, next)?;
    }
    Ok(())
}

#[tactic(auto, using(crate::proofs::Numbered::walk))]
fn extension_ranges_of(
    alloc: Global,
    lines: &LineResolver,
    context: &mut Context,
    statement: &Extensions,
    first: usize,
) -> Result<usize, AllocError>
    ensures siblings { IfOk result (λ next. Numbers context.old context.new EXTENSION_RANGE first next (map (extension_range (numbers_at lines.now) statement.now) statement.now.ranges)) }
{
    let mut next = first;
    for range in statement.ranges.as_slice() {
        locate_extension_range(alloc, lines, context, statement, range, next)?;
        next += 1;
    }
    Ok(next)
}

fn locate_extension_range(
    alloc: Global,
    lines: &LineResolver,
    context: &mut Context,
    statement: &Extensions,
    range: &ReservedRange,
    at: usize,
) -> Result<(), AllocError>
    ensures located { OnOk result (Emits context.old context.new (extension_range (numbers_at lines.now) statement.now range.now (nth context.old.path EXTENSION_RANGE at))) }
    ensures counted { OnOk result (at ≤ 2147483647) }
{
    context.enter(EXTENSION_RANGE, at)?;
    locate_range(alloc, lines, context, range)?;
    locate_list(alloc, lines, context, OPTIONS, &statement.options)?;
    context.leave();
    Ok(())
}
