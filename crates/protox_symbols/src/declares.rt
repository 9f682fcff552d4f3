//! What declares something, and how it is put into a table.

ghost use Rattle.std.specs.Prelude.{◌≡◌, ℕ, ℤ, List, IfOk, OnOk};
ghost use Rattle.std.specs.Option.{option_copied};
ghost use Rattle.protox_name_tree.specs.Tree.{IsKnown};
ghost use Rattle.protox_walk.specs.Declarations.{At, all_in, full_name, siblings_at, text_of};
ghost use Rattle.protox_symbols.specs.Things.{with_entry};
ghost use Rattle.protox_symbols.specs.Scopes.{IsFoundScope, scope_name, with_declarations};

use crate::paths::{path_of_siblings, put_index};
use crate::{Symbols, Thing};
use protox_descriptor::values::{Items, Numbers, Text};
use protox_scopes::Kind;
use std::alloc::{AllocError, Global};

/// What declares something.
pub(crate) trait Declares {
    /// What it declares, in the scope of a name and from a path on.
    ghost declares: { Self → List ℕ → At };

    /// Adds what it declares to the table, in the scope with a number. With no number, that is the
    /// nameless one.
    fn declare(
        &self,
        alloc: Global,
        symbols: &mut Symbols,
        file: usize,
        scope: Option<usize>,
        path: &[i32],
    ) -> Result<(), AllocError>
        requires { IsKnown symbols.old.names.full_names scope }
        ensures { OnOk result (symbols.new ≡ with_declarations file symbols.old
            (declares self.now (scope_name symbols.old scope) path.now)) };
}

/// The text of a name; the empty one where the name is not set.
pub(crate) fn text_of(name: Option<&Text>) -> &str
    ensures { result.now ≡ text_of (option_copied name.entry) }
{
    match name {
        Some(name) => name.as_str(),
        None => "",
    }
}

/// Adds what each of like siblings declares.
pub(crate) fn declare_each<D: Declares>(
    alloc: Global,
    symbols: &mut Symbols,
    file: usize,
    scope: Option<usize>,
    path: &[i32],
    tag: i32,
    siblings: &Items<D>,
) -> Result<(), AllocError>
    requires { IsKnown symbols.old.names.full_names scope }
    ensures declared { OnOk result (symbols.new ≡ with_declarations file symbols.old
        (siblings_at path.now tag
        (all_in D.declares (scope_name symbols.old scope) siblings.now))) }
    ensures known { OnOk result (IsKnown symbols.new.names.full_names scope) }
    ensures kept { OnOk result (scope_name symbols.new scope ≡ scope_name symbols.old scope) }
{
    let elements = siblings.as_slice();
    if elements.is_empty() {
        return Ok(());
    }
    let mut place = path_of_siblings(alloc, path, tag)?;
    for (index, sibling) in elements.iter().enumerate() {
        put_index(&mut place, path.len() + 1, index)?;
        sibling.declare(alloc, symbols, file, scope, &place)?;
    }
    Ok(())
}

impl Symbols {
    /// Adds what has this name in a scope, with its kind, its file and its path. It returns the
    /// scope that what has the name is, or None if the table has no such scope. What has no name
    /// in the nameless scope is the nameless scope again.
    pub(crate) fn declare_part(
        &mut self,
        alloc: Global,
        file: usize,
        scope: Option<usize>,
        path: &[i32],
        name: Option<&Text>,
        kind: Kind,
    ) -> Result<Option<Option<usize>>, AllocError>
        requires { IsKnown self.old.names.full_names scope }
        ensures declared { OnOk result (self.new ≡ with_entry self.old (record {
          full_name = full_name (scope_name self.old scope) (option_copied name.entry);
          kind = kind;
          thing = record { file = file; path = path.now };
        })) }
        ensures scope { IfOk result (λ found. IsFoundScope self.new
            (full_name (scope_name self.old scope) (option_copied name.entry)) found) }
    {
        let name = text_of(name);
        let path = Numbers::from_slice(alloc, path)?;
        let number = self.declare_in(alloc, scope, name, kind, Thing { file, path })?;
        match number {
            Some(number) => Ok(Some(Some(number))),
            None if scope.is_none() && name.is_empty() => Ok(Some(None)),
            None => Ok(None),
        }
    }
}
