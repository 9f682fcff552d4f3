//! What names stand for, as far as the scoping rule asks.

ghost use Rattle.std.specs.Prelude.{◌≡◌};

/// The kind of what has a full name.
#[derive(Clone, Copy, Debug, PartialEq, Eq)]
pub enum Kind {
    /// A message.
    Message,
    /// An enum.
    Enum,
    /// A service.
    Service,
    /// A package, or the front of one that ends before a dot.
    Package,
    /// What holds no names: a field, a oneof, a value of an enum, a method or an extension.
    Member,
}

/// What a search is for.
#[derive(Clone, Copy, Debug, PartialEq, Eq)]
pub enum Wanted {
    /// A message or an enum, as for the type of a field. In a scope with a name, a search passes by
    /// all else of that name.
    AType,
    /// Whatever has the name: for extendees, types of methods, defaults and names of options.
    Anything,
}

impl Kind {
    ghost use Rattle.protox_scopes.specs.Scopes.{holds_names, is_type};

    /// Whether it is a message or an enum.
    pub fn is_type(self) -> bool
        ensures { result ≡ is_type self }
    {
        match self {
            Kind::Message | Kind::Enum => true,
            Kind::Service | Kind::Package | Kind::Member => false,
        }
    }

    /// Whether the rest of a name is looked for in it. It is so for an enum, although the values of
    /// an enum stand beside it.
    pub fn holds_names(self) -> bool
        ensures { result ≡ holds_names self }
    {
        match self {
            Kind::Message | Kind::Enum | Kind::Service | Kind::Package => true,
            Kind::Member => false,
        }
    }
}

impl Wanted {
    ghost use Rattle.protox_scopes.specs.Scopes.{fits};

    /// Whether a thing of this kind is what is wanted.
    pub fn fits(self, kind: Kind) -> bool
        ensures { result ≡ fits self kind }
    {
        match self {
            Wanted::AType => kind.is_type(),
            Wanted::Anything => true,
        }
    }
}
