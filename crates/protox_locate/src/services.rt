//! The locations of services.

ghost use Rattle.std.specs.Prelude.{map, OnOk};
ghost use Rattle.protox_places.specs.Lines.{numbers_at};
ghost use Rattle.protox_locate.specs.LocationWords.{part, siblings_at};
ghost use Rattle.protox_locate.specs.ServiceLocations.{method_locations, service_locations, stream_locations};
ghost use Rattle.protox_locate.specs.inner.Walk.{Emits};

use crate::context::Context;
use crate::options::locate_options;
use protox_ast::ast::{Method, Opt, Service};
use protox_descriptor::tag::method as method_tag;
use protox_descriptor::tag::service::{METHOD, NAME, OPTIONS};
use protox_fault::error::Span;
use protox_places::lines::LineResolver;
use std::alloc::{AllocError, Global};

/// Adds the locations of a service. Its path is the current one.
pub(crate) fn locate_service(
    alloc: Global,
    lines: &LineResolver,
    context: &mut Context,
    ast: &Service,
) -> Result<(), AllocError>
    ensures { OnOk result (Emits context.old context.new (service_locations (numbers_at lines.now) ast.now context.old.path)) }
{
    context.add_with(alloc, lines, &[], &ast.span, &ast.comments)?;
    context.add(alloc, lines, &[NAME], &ast.name.span)?;
    locate_methods(alloc, lines, context, ast.methods.as_slice())?;
    locate_options(alloc, lines, context, OPTIONS, ast.options.as_slice())
}

#[tactic(auto, using(crate::proofs::Numbered::walk))]
fn locate_methods(
    alloc: Global,
    lines: &LineResolver,
    context: &mut Context,
    methods: &[Method],
) -> Result<(), AllocError>
    ensures { OnOk result (Emits context.old context.new (siblings_at context.old.path METHOD (map (method_locations (numbers_at lines.now)) methods.now))) }
{
    let mut next: usize = 0;
    for method in methods {
        context.enter(METHOD, next)?;
        locate_method(alloc, lines, context, method)?;
        context.leave();
        next += 1;
    }
    Ok(())
}

fn locate_method(
    alloc: Global,
    lines: &LineResolver,
    context: &mut Context,
    ast: &Method,
) -> Result<(), AllocError>
    ensures { OnOk result (Emits context.old context.new (method_locations (numbers_at lines.now) ast.now context.old.path)) }
{
    let input = ast.input_ty.span();
    let output = ast.output_ty.span();
    context.add_with(alloc, lines, &[], &ast.span, &ast.comments)?;
    context.add(alloc, lines, &[method_tag::NAME], &ast.name.span)?;
    context.add(alloc, lines, &[method_tag::INPUT_TYPE], &input)?;
    context.add(alloc, lines, &[method_tag::OUTPUT_TYPE], &output)?;
    locate_options(
        alloc,
        lines,
        context,
        method_tag::OPTIONS,
        ast.options.as_slice(),
    )?;
    locate_word(
        alloc,
        lines,
        context,
        method_tag::CLIENT_STREAMING,
        &ast.client_streaming,
    )?;
    locate_word(
        alloc,
        lines,
        context,
        method_tag::SERVER_STREAMING,
        &ast.server_streaming,
    )
}

fn locate_word(
    alloc: Global,
    lines: &LineResolver,
    context: &mut Context,
    tag: i32,
    word: &Opt<Span>,
) -> Result<(), AllocError>
    ensures { OnOk result (Emits context.old context.new (stream_locations (numbers_at lines.now) (part context.old.path tag) word.now)) }
{
    match word {
        None => Ok(()),
        Some(span) => context.add(alloc, lines, &[tag], span),
    }
}
