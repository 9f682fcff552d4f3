//! Parts that declare something, and lists of like ones.

ghost use Rattle.std.specs.Prelude.{◌≡◌, ℕ, ℤ, List, IfOk, OnOk};
ghost use Rattle.std.specs.List.{FoldsTo};
ghost use Rattle.std.specs.Option.{option_copied};
ghost use Rattle.protox_walk.specs.Declarations.{At, all_in, full_name, nth, siblings_at, text_of};

use crate::Visit;
use protox_descriptor::values::{Items, Numbers, Text};
use std::alloc::{AllocError, Global};

/// What declares something.
pub(crate) trait Declares<'a, V: Visit<'a>> {
    /// What it declares, in the scope of a name and from a path on.
    ghost declares: { Self → List ℕ → At };

    /// Visits what it declares.
    fn walk(
        &'a self,
        alloc: Global,
        visitor: &mut V,
        scope: &str,
        path: &[i32],
    ) -> Result<(), V::Error>
        ensures { OnOk result (FoldsTo V.visits visitor.old (declares self.now scope.now path.now) visitor.new) };
}

/// The text of a name; the empty one where the name is not set.
pub(crate) fn text_of(name: Option<&Text>) -> &str
    ensures { result.now ≡ text_of (option_copied name.entry) }
{
    match name {
        Some(name) => name.as_str(),
        None => "",
    }
}

/// The name of what is declared in a scope; the name alone in the empty scope.
pub(crate) fn name_in(alloc: Global, scope: &str, name: Option<&Text>) -> Result<Text, AllocError>
    ensures { IfOk result (λ made. made ≡ full_name scope.now (option_copied name.entry)) }
{
    let name = text_of(name);
    if scope.is_empty() {
        return Text::copy(alloc, name);
    }
    let room = scope.len().saturating_add(name.len()).saturating_add(1);
    let mut whole = Text::with_room(alloc, scope, room)?;
    whole.push_str(alloc, ".")?;
    whole.push_str(alloc, name)?;
    Ok(whole)
}

/// The path of the sibling at an index.
pub(crate) fn path_to(
    alloc: Global,
    path: &[i32],
    tag: i32,
    index: usize,
) -> Result<Numbers, AllocError>
    ensures { IfOk result (λ made. made ≡ nth path.now tag index) }
{
    if index > 2147483647 {
        return Err(AllocError);
    }
    Numbers::joined(alloc, path, &[tag, index as i32])
}

/// Visits what each of like siblings declares.
pub(crate) fn walk_each<'a, D: Declares<'a, V>, V: Visit<'a>>(
    alloc: Global,
    visitor: &mut V,
    scope: &str,
    path: &[i32],
    tag: i32,
    siblings: &'a Items<D>,
) -> Result<(), V::Error>
    ensures { OnOk result (FoldsTo V.visits visitor.old
        (siblings_at path.now tag (all_in D.declares scope.now siblings.entry.now)) visitor.new) }
{
    let elements = siblings.as_slice();
    for (index, sibling) in elements.iter().enumerate() {
        let place = path_to(alloc, path, tag, index)?;
        sibling.walk(alloc, visitor, scope, place.as_slice())?;
    }
    Ok(())
}
