//! The visitors that are at hand.

ghost use Rattle.std.specs.Prelude.{◌≡◌, ◌∷◌, ◌++◌, [], map};
ghost use Rattle.std.specs.Option.{option_or};
ghost use Rattle.protox_walk.specs.Names.{name_at};
ghost use Rattle.protox_walk.specs.Parts.{seen};

use crate::{Declaration, Part, Visit};
use protox_descriptor::values::{Numbers, Text};
use std::alloc::{AllocError, Global};

/// Collects all declarations.
#[derive(Drop)]
pub(crate) struct Collector<'a> {
    pub alloc: Global,
    pub found: Vec<Declaration<'a>>,
}

impl<'a> Visit<'a> for Collector<'a> {
    ghost visits = { λ old one new. map seen new.found.items ≡ map seen old.found.items ++ one ∷ [] };

    type Error = AllocError;

    fn visit(&mut self, path: &[i32], full_name: &str, part: Part<'a>) -> Result<(), AllocError> {
        let path = Numbers::from_slice(self.alloc, path)?;
        let full_name = Text::copy(self.alloc, full_name)?;
        let declaration = Declaration {
            path,
            full_name,
            part,
        };
        if self.found.push(declaration).is_err() {
            return Err(AllocError);
        }
        Ok(())
    }
}

/// Finds the name of the first declaration with a path.
#[derive(Drop)]
pub(crate) struct Finder<'p> {
    pub alloc: Global,
    pub path: &'p [i32],
    pub name: Option<Text>,
}

impl<'a> Visit<'a> for Finder<'_> {
    ghost visits = { λ old one new. (new.path.now ≡ old.path.now) × (new.name ≡ option_or old.name (name_at old.path.now (one ∷ []))) };

    type Error = AllocError;

    fn visit(&mut self, path: &[i32], full_name: &str, _part: Part<'a>) -> Result<(), AllocError> {
        if self.name.is_none() && path == self.path {
            self.name = Some(Text::copy(self.alloc, full_name)?);
        }
        Ok(())
    }
}
