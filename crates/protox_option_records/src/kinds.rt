//! The number of each kind of what is wrong with options.

ghost use Rattle.std.specs.Prelude.{◌≡◌};
ghost use Rattle.protox_option_records.specs.OptionKinds as numbered;

use protox_interpret::StatementFaultKind;
use protox_option_checks::CheckFaultKind;

/// The number of the kind of an options message whose type no file of the set declares.
pub const NO_TYPE: usize = 201;

/// The number of the kind of what is wrong with a statement, from 202 in the order in which
/// `StatementFaultKind` lists them.
pub fn statement_kind(kind: &StatementFaultKind) -> usize
    ensures { result ≡ numbered.statement_kind kind.now }
{
    match kind {
        StatementFaultKind::Name(_) => 202,
        StatementFaultKind::AlreadySet => 203,
        StatementFaultKind::Value(_) => 204,
        StatementFaultKind::Token(_) => 205,
        StatementFaultKind::Text(_) => 206,
        StatementFaultKind::Aggregate(_) => 207,
    }
}

/// The number of the kind of what options ask of what has them, from 221 in the order in which
/// `CheckFaultKind` lists them.
pub fn check_kind(kind: CheckFaultKind) -> usize
    ensures { result ≡ numbered.check_kind kind }
{
    match kind {
        CheckFaultKind::Lazy => 221,
        CheckFaultKind::Packed => 222,
        CheckFaultKind::MessageSetField => 223,
        CheckFaultKind::MessageSetExtension => 224,
        CheckFaultKind::LiteExtension => 225,
        CheckFaultKind::MapValueEnum => 226,
        CheckFaultKind::JsType => 227,
        CheckFaultKind::ExtensionJsonName => 228,
        CheckFaultKind::ClosedEnum { .. } => 229,
        CheckFaultKind::SharedNumber { .. } => 230,
        CheckFaultKind::MessageSetInProto3 => 231,
        CheckFaultKind::LiteService => 232,
        CheckFaultKind::LiteImport(_) => 233,
    }
}
