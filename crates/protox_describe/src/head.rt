//! The syntax, the package and the imports of a file.

ghost use Rattle.std.specs.Prelude.{◌≡◌, ◌++◌, ◌∷◌, [], pos, map, IfOk, OnOk, if◌then◌else◌};
ghost use Rattle.protox_ast.specs.declared.ast.Import as import_type;
ghost use Rattle.protox_describe.specs.Head.{syntax_name as name_of_syntax, package_name as name_of_package, kind_is_public, kind_is_weak, is_public, is_weak};
ghost use Rattle.protox_describe.specs.Siblings.{places};

use protox_ast::ast::{Import, ImportKind, Package, Syntax};
use protox_descriptor::values::{Items, Text};
use protox_fault::error::Span;
use std::alloc::{AllocError, Global};

/// What `syntax` says: `proto3`, or None for proto2.
pub(crate) fn syntax_name(alloc: Global, syntax: Syntax) -> Result<Option<Text>, AllocError>
    ensures { IfOk result (λ name. name ≡ name_of_syntax syntax) }
{
    match syntax {
        Syntax::Proto2 => Ok(None),
        Syntax::Proto3 => Ok(Some(Text::copy(alloc, "proto3")?)),
    }
}

/// The package's name as it is written.
pub(crate) fn package_name(alloc: Global, ast: &Option<Package>) -> Result<Option<Text>, AllocError>
    ensures { IfOk result (λ name. name ≡ name_of_package ast.now) }
{
    match ast {
        None => Ok(None),
        Some(statement) => Ok(Some(statement.name.text(alloc)?)),
    }
}

// The paths of the imported files.
fn dependencies(alloc: Global, imports: &[Import]) -> Result<Items<Text>, AllocError>
    ensures { IfOk result (λ names. names ≡ map (λ (statement : import_type.Import). statement.value) imports.now) }
{
    let mut names = Vec::with_capacity(alloc, imports.len())?;
    for statement in imports {
        names.push(Text::copy(alloc, statement.value.as_str())?)?;
    }
    Ok(Items::from_vec(names))
}

fn is_public(kind: &Option<(ImportKind, Span)>) -> bool
    ensures { result ≡ kind_is_public kind.now }
{
    match kind {
        None => false,
        Some((ImportKind::Public, _)) => true,
        Some((ImportKind::Weak, _)) => false,
    }
}

fn is_weak(kind: &Option<(ImportKind, Span)>) -> bool
    ensures { result ≡ kind_is_weak kind.now }
{
    match kind {
        None => false,
        Some((ImportKind::Public, _)) => false,
        Some((ImportKind::Weak, _)) => true,
    }
}

// In the descriptor an index is an `i32`, so it is checked before it is made one.
fn push_place(found: &mut Items<i32>, is_wanted: bool, place: usize) -> Result<(), AllocError>
    ensures { OnOk result (found.new ≡ found.old ++ (if is_wanted then pos place ∷ [] else [])) }
{
    if is_wanted {
        if place > 2147483647 {
            return Err(AllocError);
        }
        found.push(place as i32)
    } else {
        Ok(())
    }
}

// The indices of the `public` imports.
fn public_places(alloc: Global, imports: &[Import]) -> Result<Items<i32>, AllocError>
    ensures { IfOk result (λ found. found ≡ places is_public 0 imports.now) }
{
    let mut found = Items::new(alloc);
    for (place, statement) in imports.iter().enumerate() {
        push_place(&mut found, is_public(&statement.kind), place)?;
    }
    Ok(found)
}

// The indices of the `weak` imports.
fn weak_places(alloc: Global, imports: &[Import]) -> Result<Items<i32>, AllocError>
    ensures { IfOk result (λ found. found ≡ places is_weak 0 imports.now) }
{
    let mut found = Items::new(alloc);
    for (place, statement) in imports.iter().enumerate() {
        push_place(&mut found, is_weak(&statement.kind), place)?;
    }
    Ok(found)
}

/// The lists of the descriptor that imports fill.
#[derive(Drop)]
pub(crate) struct ImportLists {
    pub dependency: Items<Text>,
    pub public_dependency: Items<i32>,
    pub weak_dependency: Items<i32>,
}

/// The imported files, and the indices of the public and of the weak ones.
pub(crate) fn imports(alloc: Global, imports: &[Import]) -> Result<ImportLists, AllocError>
    ensures files { IfOk result (λ made. made.dependency ≡ map (λ (statement : import_type.Import). statement.value) imports.now) }
    ensures public { IfOk result (λ made. made.public_dependency ≡ places is_public 0 imports.now) }
    ensures weak { IfOk result (λ made. made.weak_dependency ≡ places is_weak 0 imports.now) }
{
    let dependency = dependencies(alloc, imports)?;
    let public_dependency = public_places(alloc, imports)?;
    let weak_dependency = weak_places(alloc, imports)?;
    Ok(ImportLists {
        dependency,
        public_dependency,
        weak_dependency,
    })
}
