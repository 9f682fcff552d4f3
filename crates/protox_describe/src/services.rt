//! The descriptors of services.

ghost use Rattle.std.specs.Prelude.{◌≡◌, map, IfOk};
ghost use Rattle.protox_describe.specs.Services.{streaming, method_proto, service_proto};

use crate::options::{method_options, service_options};
use protox_ast::ast::{Method, Service};
use protox_descriptor::descriptor::{MethodDescriptorProto, ServiceDescriptorProto};
use protox_descriptor::values::{Items, Text};
use protox_fault::error::Span;
use std::alloc::{AllocError, Global};

fn streaming(word: &Option<Span>) -> Option<bool>
    ensures { result ≡ streaming word.now }
{
    match word {
        None => None,
        Some(_) => Some(true),
    }
}

fn method_proto(alloc: Global, ast: &Method) -> Result<MethodDescriptorProto, AllocError>
    ensures { IfOk result (λ method. method ≡ method_proto ast.now) }
{
    let name = Text::copy(alloc, ast.name.value.as_str())?;
    let input_type = ast.input_ty.text(alloc)?;
    let output_type = ast.output_ty.text(alloc)?;
    let options = method_options(alloc, ast.options.as_slice())?;
    Ok(MethodDescriptorProto {
        name: Some(name),
        input_type: Some(input_type),
        output_type: Some(output_type),
        options,
        client_streaming: streaming(&ast.client_streaming),
        server_streaming: streaming(&ast.server_streaming),
    })
}

fn methods(alloc: Global, methods: &[Method]) -> Result<Items<MethodDescriptorProto>, AllocError>
    ensures { IfOk result (λ made. made ≡ map method_proto methods.now) }
{
    let mut made = Vec::with_capacity(alloc, methods.len())?;
    for method in methods {
        made.push(method_proto(alloc, method)?)?;
    }
    Ok(Items::from_vec(made))
}

/// The descriptor of a service.
pub(crate) fn service_proto(
    alloc: Global,
    ast: &Service,
) -> Result<ServiceDescriptorProto, AllocError>
    ensures { IfOk result (λ service. service ≡ service_proto ast.now) }
{
    let name = Text::copy(alloc, ast.name.value.as_str())?;
    let method = methods(alloc, ast.methods.as_slice())?;
    let options = service_options(alloc, ast.options.as_slice())?;
    Ok(ServiceDescriptorProto {
        name: Some(name),
        method,
        options,
    })
}
