//! What names stand for in the files.

ghost use Rattle.std.specs.Prelude.{◌≡◌};
ghost use Rattle.protox_usage.specs.Names.{known_by};

use protox_link::Resolver;

/// What names stand for in the files: found out here, or lent by a caller.
#[derive(Drop)]
pub(crate) enum Names<'a> {
    /// It was found out here.
    Own(Resolver),
    /// A caller lends it.
    Lent(&'a Resolver),
}

impl Names<'_> {
    /// What is known.
    pub(crate) fn resolver(&self) -> &Resolver
        ensures { result.now ≡ known_by self.now }
    {
        match self {
            Names::Own(resolver) => resolver,
            Names::Lent(resolver) => resolver,
        }
    }
}
