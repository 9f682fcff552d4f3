//! The search for a name, and what it comes upon.

ghost use Rattle.std.specs.Prelude.{◌≡◌};
ghost use Rattle.protox_scopes.specs.Scopes.{step};
ghost use Rattle.protox_usage.specs.Met.{if_found, met_in};
ghost use Rattle.protox_usage.specs.Searched.{ends, file_in, kind_in, met_by, noted, seen_in};

use protox_marks::Marks;
use protox_names::{enclosing, front, is_one_part};
use protox_scopes::{Kind, Wanted};
use protox_views::View;

/// What is searched.
#[derive(Drop)]
pub(crate) struct Sight<'a> {
    /// What a file sees.
    pub(crate) view: &'a View<'a>,
    /// The first file in each package, by the number of the package.
    pub(crate) first: &'a [Option<usize>],
}

impl Sight<'_> {
    // The file of what has a number; of a package, the first file in it.
    fn file_of(&self, number: usize) -> Option<usize>
        ensures { result ≡ file_in self.now number }
    {
        if let Kind::Package = self.view.symbols.kind(number) {
            return match self.first.get(number) {
                Some(file) => *file,
                None => None,
            };
        }
        match self.view.symbols.thing(number) {
            Some(thing) => Some(thing.file),
            None => None,
        }
    }

    // Marks the file of what was found.
    fn mark(&self, found: Option<usize>, used: &mut Marks)
        ensures { used.new ≡ noted self.now used.old (if_found found) }
    {
        let Some(number) = found else {
            return;
        };
        let Some(file) = self.file_of(number) else {
            return;
        };
        if file < used.len() {
            used.mark(file);
        }
    }

    // Searches one scope, and marks the files of all that it comes upon. Answers whether the search
    // ends there.
    fn search_scope(&self, wanted: Wanted, name: &str, scope: &str, used: &mut Marks) -> bool
        ensures met { used.new
            ≡ noted self.now used.old (met_in (kind_in self.now) (seen_in self.now) name.now scope.now) }
        ensures ends { result
            ≡ ends (step (kind_in self.now) (seen_in self.now) wanted name.now scope.now) }
    {
        let Some(number) = self.view.find_within(scope, front(name)) else {
            return false;
        };
        self.mark(Some(number), used);
        let kind = self.view.symbols.kind(number);
        if is_one_part(name) {
            return wanted.fits(kind);
        }
        if !kind.holds_names() {
            return false;
        }
        self.mark(self.view.find_within(scope, name), used);
        true
    }

    /// Searches for a name that something with the full name `user` uses, and marks the files of all
    /// that the search comes upon: from the innermost scope outwards, and in the nameless one.
    pub(crate) fn search(&self, wanted: Wanted, name: &str, user: &str, used: &mut Marks)
        ensures { used.new ≡ noted self.now used.old
            (met_by self.now (record { wanted = wanted; name = name.now; user = user.now })) }
    {
        if let Some(full_name) = name.strip_prefix('.') {
            self.mark(self.view.find_within("", full_name), used);
            return;
        }
        let mut place = enclosing(user);
        while let Some(scope) = place {
            if self.search_scope(wanted, name, scope, used) {
                return;
            }
            place = enclosing(scope);
        }
        self.mark(self.view.find_within("", name), used);
    }
}
