//! The locations of imports.

ghost use Rattle.std.specs.Prelude.{flat_map, map, OnOk};
ghost use Rattle.protox_ast.specs.declared.ast.Import as import_type;
ghost use Rattle.protox_places.specs.Lines.{numbers_at};
ghost use Rattle.protox_locate.specs.LocationWords.{siblings_at};
ghost use Rattle.protox_locate.specs.Locations.{import_locations, public_words, weak_words};
ghost use Rattle.protox_locate.specs.inner.Walk.{Emits};

use crate::context::{Context, index_number};
use protox_ast::ast::{Import, ImportKind};
use protox_descriptor::tag::file::{DEPENDENCY, PUBLIC_DEPENDENCY, WEAK_DEPENDENCY};
use protox_places::lines::LineResolver;
use std::alloc::{AllocError, Global};

/// Adds the locations of the import statements.
#[tactic(auto, using(crate::proofs::Numbered::walk))]
pub(crate) fn locate_imports(
    alloc: Global,
    lines: &LineResolver,
    context: &mut Context,
    imports: &[Import],
) -> Result<(), AllocError>
    ensures { OnOk result (Emits context.old context.new (siblings_at context.old.path DEPENDENCY (map (import_locations (numbers_at lines.now)) imports.now))) }
{
    let mut next: usize = 0;
    for statement in imports {
        let tags = [DEPENDENCY, index_number(next)?];
        context.add_with(alloc, lines, &tags, &statement.span, &statement.comments)?;
        next += 1;
    }
    Ok(())
}

/// Adds the locations of the words `public`, numbered among themselves.
#[tactic(auto, using(crate::proofs::Numbered::walk))]
pub(crate) fn locate_public_words(
    alloc: Global,
    lines: &LineResolver,
    context: &mut Context,
    imports: &[Import],
) -> Result<(), AllocError>
    ensures { OnOk result (Emits context.old context.new (siblings_at context.old.path PUBLIC_DEPENDENCY (flat_map (λ (statement : import_type.Import). public_words (numbers_at lines.now) statement.kind) imports.now))) }
{
    let mut next: usize = 0;
    for statement in imports {
        if let Some((ImportKind::Public, span)) = &statement.kind {
            let tags = [PUBLIC_DEPENDENCY, index_number(next)?];
            context.add(alloc, lines, &tags, span)?;
            next += 1;
        }
    }
    Ok(())
}

/// Adds the locations of the words `weak`, numbered among themselves.
#[tactic(auto, using(crate::proofs::Numbered::walk))]
pub(crate) fn locate_weak_words(
    alloc: Global,
    lines: &LineResolver,
    context: &mut Context,
    imports: &[Import],
) -> Result<(), AllocError>
    ensures { OnOk result (Emits context.old context.new (siblings_at context.old.path WEAK_DEPENDENCY (flat_map (λ (statement : import_type.Import). weak_words (numbers_at lines.now) statement.kind) imports.now))) }
{
    let mut next: usize = 0;
    for statement in imports {
        if let Some((ImportKind::Weak, span)) = &statement.kind {
            let tags = [WEAK_DEPENDENCY, index_number(next)?];
            context.add(alloc, lines, &tags, span)?;
            next += 1;
        }
    }
    Ok(())
}
