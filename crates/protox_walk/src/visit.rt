//! What visits declarations, one by one.

ghost use Rattle.std.specs.Prelude.{⊤, OnOk};
ghost use Rattle.protox_walk.specs.Declarations.{declared};
ghost use Rattle.protox_walk.specs.Parts.{Declared, part_of};

use crate::Part;
use std::alloc::AllocError;

/// What is done with each declaration of a walk. The parts live as long as the file, for `'a`.
///
/// ```
/// impl<'a> Visit<'a> for Fields {
///     type Error = AllocError;
///
///     fn visit(&mut self, _path: &[i32], _name: &str, part: Part<'a>) -> Result<(), AllocError> {
///         if let Part::Field(_) = part {
///             self.count = self.count.saturating_add(1);
///         }
///         Ok(())
///     }
/// }
/// ```
pub trait Visit<'a> {
    /// What a visit that succeeds does: a relation between the visitor before it, the declaration,
    /// and the visitor after it. By default it says nothing.
    ghost visits: { Self → Declared → Self → Type 0 } = { λ _ _ _. ⊤ };

    /// Why a visit ends the walk. Any type that an `AllocError` can be converted to.
    type Error: From<AllocError>;

    /// Takes one declaration: its path, its full name and its descriptor. An error ends the walk.
    fn visit(&mut self, path: &[i32], full_name: &str, part: Part<'a>) -> Result<(), Self::Error>
        ensures { OnOk result (visits self.old (declared path.now full_name.now (part_of part.entry)) self.new) };
}
