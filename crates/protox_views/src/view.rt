//! What a file sees.

ghost use Rattle.std.specs.Prelude.{◌≡◌, Some, None, if◌then◌else◌};
ghost use Rattle.std.specs.Option.{option_and_then};
ghost use Rattle.protox_name_tree.specs.Tree.{name_in, number_of};
ghost use Rattle.protox_names.specs.Names.{within};
ghost use Rattle.protox_views.specs.Views.{is_seen, seen};

use crate::packages::SeenPackages;
use protox_marks::Marks;
use protox_scopes::Kind;
use protox_symbols::Symbols;

/// What a file sees of a table of declarations: what is declared in files that it sees, and the
/// packages that these files are in.
#[derive(Drop)]
pub struct View<'a> {
    /// The table.
    pub symbols: &'a Symbols,
    /// The numbers of the files that this one sees.
    pub sees: &'a Marks,
    /// The packages that this file sees, by numbers of the table.
    pub packages: SeenPackages<'a>,
}

impl View<'_> {
    // Whether what has a number is seen.
    fn is_seen(&self, number: usize) -> bool
        ensures { result ≡ is_seen self.now.symbols.now self.now.sees.now self.now.packages number }
    {
        if let Kind::Package = self.symbols.kind(number) {
            return self.packages.has(number);
        }
        match self.symbols.thing(number) {
            Some(thing) => self.sees.has(thing.file),
            None => false,
        }
    }

    // The number, if what has it is seen.
    pub(crate) fn if_seen(&self, number: Option<usize>) -> Option<usize>
        ensures { result ≡ option_and_then (λ n. if is_seen self.now.symbols.now self.now.sees.now self.now.packages n then Some n else None) number }
    {
        let number = number?;
        if self.is_seen(number) {
            Some(number)
        } else {
            None
        }
    }

    /// The number of what has this name in the scope with a number, if that is seen. The name may
    /// have several parts. With no number, the scope is the nameless one. It takes no memory.
    pub fn find(&self, scope: Option<usize>, name: &str) -> Option<usize>
        ensures { result ≡ seen self.now.symbols.now self.now.sees.now self.now.packages
            (name_in self.now.symbols.now.names scope name.now) }
    {
        self.if_seen(self.symbols.find(scope, name))
    }

    /// The number of what has this name in the scope with this full name, if that is seen. The
    /// nameless scope is the empty text.
    pub fn find_within(&self, scope: &str, name: &str) -> Option<usize>
        ensures { result ≡ seen self.now.symbols.now self.now.sees.now self.now.packages
            (within scope.now name.now) }
    {
        self.if_seen(self.symbols.find_within(scope, name))
    }
}
