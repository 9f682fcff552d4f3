//! Laws of equality. Each is a function that only compares two values. Its contract is the law.
ghost use Rattle.std.specs.Prelude.{◌↔◌, IsTrue};
ghost use Rattle.protox_fault.specs.Faults.{IsSame};

use crate::error::ParseErrorKind;

/// Two faults are equal exactly when they are of one kind and have the same spans and texts.
pub fn faults_are_equal_by_fields(a: &ParseErrorKind, b: &ParseErrorKind) -> bool
    ensures { IsTrue result ↔ IsSame a.now b.now }
{
    a == b
}
