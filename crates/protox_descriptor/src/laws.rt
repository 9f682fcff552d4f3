//! Laws of equality. Each is a function that only compares two values. Its contract is the law.
ghost use Rattle.std.specs.Prelude.{◌≡◌, ◌↔◌, IsTrue};

use crate::descriptor::FileDescriptorProto;

/// Two files are equal exactly when all their fields are equal, in all messages within them too.
pub fn files_are_equal_by_fields(a: &FileDescriptorProto, b: &FileDescriptorProto) -> bool
    ensures { IsTrue result ↔ (a.now ≡ b.now) }
{
    a == b
}
