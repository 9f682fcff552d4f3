//! What a name stands for in what a file sees.

ghost use Rattle.std.specs.Prelude.{◌≡◌, ◌∷◌, ◌++◌, ℕ, List, true, false, MatchOption};
ghost use Rattle.protox_name_tree.specs.Tree.{kind_at, name_at};
ghost use Rattle.protox_names.specs.Names as names;
ghost use Rattle.protox_names.specs.Tree.{name_of_place};
ghost use Rattle.protox_scopes.specs.Scopes as words;
ghost use Rattle.protox_views.specs.Views.{seen};

use crate::View;
use protox_name_tree::Word;
use protox_names::split_front;
use protox_scopes::{Step, Wanted};

// The first part of a name, and the rest behind its first dot. With no dot there is no rest.
fn cut(name: &str) -> (&str, Option<&str>)
    ensures front { result.0.now ≡ names.front name.now }
    ensures no_dot { names.is_one_part result.0.now ≡ true }
    ensures rest { MatchOption result.1 (names.is_one_part name.now ≡ true)
        (λ rest. name.now ≡ names.front name.now ++ 46 ∷ rest.now) }
{
    match split_front(name) {
        Some((front, rest)) => (front, Some(rest)),
        None => (name, None),
    }
}

impl View<'_> {
    // Searches one scope for a name, which `cut` cuts into `first` and `rest`. The rest is looked
    // up in what has the first part.
    fn step(
        &self,
        wanted: Wanted,
        first: &Word<'_>,
        rest: Option<&str>,
        scope: usize,
    ) -> Step<usize>
        requires tree { first.now.tree ≡ self.now.symbols.now.names }
        ensures { (name : List ℕ) → names.is_absolute name ≡ false
            → first.now.name ≡ names.front name
            → MatchOption rest.entry (names.is_one_part name ≡ true)
            (λ behind. name ≡ names.front name ++ 46 ∷ behind.now)
            → result ≡ words.step (kind_at self.now.symbols.now.names)
            (seen self.now.symbols.now self.now.sees.now self.now.packages)
            wanted name (name_at self.now.symbols.now.names scope) }
    {
        let Some(thing) = self.if_seen(first.find(Some(scope))) else {
            return Step::GoesOn;
        };
        let kind = self.symbols.kind(thing);
        match rest {
            Some(rest) if kind.holds_names() => Step::Ends(self.find(Some(thing), rest)),
            None if wanted.fits(kind) => Step::Ends(Some(thing)),
            _ => Step::GoesOn,
        }
    }

    // Searches the nameless scope for a name, which `cut` cuts into `first` and `rest`.
    fn at_top(&self, first: &Word<'_>, rest: Option<&str>) -> Option<usize>
        requires tree { first.now.tree ≡ self.now.symbols.now.names }
        ensures { (name : List ℕ) → names.is_absolute name ≡ false
            → first.now.name ≡ names.front name
            → MatchOption rest.entry (names.is_one_part name ≡ true)
            (λ behind. name ≡ names.front name ++ 46 ∷ behind.now)
            → result ≡ seen self.now.symbols.now self.now.sees.now self.now.packages name }
    {
        // for the proof: the scopes around a name of the table are in the table
        let _count = self.symbols.len();
        let Some(rest) = rest else {
            return self.if_seen(first.find(None));
        };
        let outer = first.find(None)?;
        self.find(Some(outer), rest)
    }

    /// What a name stands for where something that stands in this scope uses it: the same as
    /// `resolve_in`. The first part is cut off and its text looked up once for all scopes.
    ///
    /// It takes no memory. For each scope around the user it makes one step.
    pub fn resolve(&self, wanted: Wanted, name: &str, scope: Option<usize>) -> Option<usize>
        ensures { (user : List ℕ) → names.is_one_part user ≡ true → result
            ≡ words.resolve (kind_at self.now.symbols.now.names)
            (seen self.now.symbols.now self.now.sees.now self.now.packages) wanted name.now
            (names.within (name_of_place (name_at self.now.symbols.now.names) scope) user) }
    {
        if let Some(full_name) = name.strip_prefix('.') {
            return self.find(None, full_name);
        }
        let (part, rest) = cut(name);
        let first = self.symbols.word(part);
        let mut place = scope;
        while let Some(here) = place {
            if let Step::Ends(found) = self.step(wanted, &first, rest, here) {
                return found;
            }
            place = self.symbols.outer(here);
        }
        self.at_top(&first, rest)
    }
}
