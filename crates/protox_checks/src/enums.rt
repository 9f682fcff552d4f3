//! The checks of enums and services.

ghost use Rattle.std.specs.Prelude.{OnOk};
ghost use Rattle.std.specs.List.{flat_map};
ghost use Rattle.protox_checks.specs.Nodes.{enum_nodes, enum_value_nodes, method_nodes, service_nodes};
ghost use Rattle.protox_checks.specs.inner.Walk.{Adds};

use crate::found::Found;
use crate::numbers::{Numbering, check_enum_number, check_reserved};
use crate::options::{check_listed, check_statements};
use protox_ast::ast::{Enum, EnumValue, Method, Service};
use std::alloc::AllocError;

fn check_enum_value(ast: &EnumValue, errors: &mut Found) -> Result<(), AllocError>
    ensures { OnOk result (Adds errors.old errors.new (enum_value_nodes ast.now)) }
{
    check_enum_number(&ast.number, errors)?;
    check_listed(&ast.options, errors)
}

fn check_enum_values(values: &[EnumValue], errors: &mut Found) -> Result<(), AllocError>
    ensures { OnOk result (Adds errors.old errors.new (flat_map enum_value_nodes values.now)) }
{
    for value in values {
        check_enum_value(value, errors)?;
    }
    Ok(())
}

/// Adds all faults of an enum.
pub(crate) fn check_enum(ast: &Enum, errors: &mut Found) -> Result<(), AllocError>
    ensures { OnOk result (Adds errors.old errors.new (enum_nodes ast.now)) }
{
    check_enum_values(ast.values.as_slice(), errors)?;
    check_reserved(Numbering::OfEnumValues, ast.reserved.as_slice(), errors)?;
    check_statements(ast.options.as_slice(), errors)
}

fn check_methods(methods: &[Method], errors: &mut Found) -> Result<(), AllocError>
    ensures { OnOk result (Adds errors.old errors.new (flat_map method_nodes methods.now)) }
{
    for method in methods {
        check_statements(method.options.as_slice(), errors)?;
    }
    Ok(())
}

/// Adds all faults of a service.
pub(crate) fn check_service(ast: &Service, errors: &mut Found) -> Result<(), AllocError>
    ensures { OnOk result (Adds errors.old errors.new (service_nodes ast.now)) }
{
    check_methods(ast.methods.as_slice(), errors)?;
    check_statements(ast.options.as_slice(), errors)
}
