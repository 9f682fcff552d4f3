//! The table.

ghost use Rattle.std.specs.Prelude.{◌≡◌, ◌↔◌, [], true, length, IfOk, IsTrue, OnErr, OnOk};
ghost use Rattle.std.specs.List.{slice_get};
ghost use Rattle.std.specs.Option.{option_copied};
ghost use Rattle.protox_names.specs.Names.{is_identifier, is_one_part, within};
ghost use Rattle.protox_name_tree.specs.Tree.{IsNameTree, IsPart, dotted, kind_at, name_at};
ghost use Rattle.protox_name_tree.specs.Tree.{name_in, number_of};
ghost use Rattle.protox_scopes.specs.Scopes.{IsOuter};
ghost use Rattle.protox_symbols.specs.Symbols.{with_added, with_thing};

use crate::Thing;
use protox_descriptor::values::{Numbers, Text};
use protox_name_tree::{NameTree, Word};
use protox_scopes::Kind;
use std::alloc::{AllocError, Global};
use std::marker::Model;

/// What is declared in a list of files, by full names. Each full name has a number, counted from 0,
/// and what it was first declared for: later declarations of an equal full name change nothing.
///
/// Names are kept part by part, as in `NameTree`, so no choice of names makes it slow.
#[derive(Drop)]
pub struct Symbols {
    names: NameTree,
    things: Vec<Thing>,
}

impl Model for Symbols {
    ghost use Rattle.std.specs.Prelude.{◌≡◌, length};
    ghost use Rattle.protox_symbols.specs.Symbols.{Table};

    ghost Value = { Table };

    ghost view = { λ s. record { names = s.names; things = s.things.items } };

    ghost invariant = { λ s. length s.things.items ≡ length s.names.full_names };
}

impl Symbols {
    /// A table of nothing.
    pub fn new(alloc: Global) -> Symbols
        ensures { result
            ≡ record { names = record { full_names = []; kinds = [] }; things = [] } }
    {
        Symbols::with_room(alloc, 64)
    }

    /// A table of nothing. It is quickest if it gets about as many full names as it has `room` for.
    pub fn with_room(alloc: Global, room: usize) -> Symbols
        ensures { result
            ≡ record { names = record { full_names = []; kinds = [] }; things = [] } }
    {
        let names = NameTree::with_room(alloc, room);
        let things = Vec::new(alloc);
        Symbols { names, things }
    }

    /// How many full names it has.
    pub fn len(&self) -> usize
        ensures names { result ≡ length self.now.names.full_names }
        ensures things { result ≡ length self.now.things }
        ensures tree { IsNameTree self.now.names }
    {
        self.names.len()
    }

    /// Adds what is declared with this full name: its kind, the number of its file, and its path.
    /// Nothing is added if the table has the full name, or if that can't stand in it: its last part
    /// has to be an identifier, and the scope that it stands in has to be there.
    ///
    /// # Errors
    /// `AllocError` where memory runs out. The table is as it was.
    pub fn declare(
        &mut self,
        alloc: Global,
        full_name: &str,
        kind: Kind,
        file: usize,
        path: &[i32],
    ) -> Result<(), AllocError>
        ensures declared { OnOk result (self.new
            ≡ with_thing self.old full_name.now kind (record { file = file; path = path.now })) }
        ensures err { OnErr result (self.new ≡ self.old) }
    {
        let path = Numbers::from_slice(alloc, path)?;
        self.declare_in(alloc, None, full_name, kind, Thing { file, path })?;
        Ok(())
    }

    /// Declares a name of one or more parts in the scope with a number; with no number, in the
    /// nameless scope. It returns the number of the full name, or None if that can't stand in the
    /// table. Unlike `declare`, it doesn't look for the scope, so it serves where many names stand
    /// in a scope with a long name.
    ///
    /// # Errors
    /// `AllocError` where memory runs out. The table is as it was.
    pub fn declare_in(
        &mut self,
        alloc: Global,
        scope: Option<usize>,
        name: &str,
        kind: Kind,
        thing: Thing,
    ) -> Result<Option<usize>, AllocError>
        ensures number { IfOk result (λ n. n
            ≡ number_of self.new.names (name_in self.old.names scope name.now)) }
        ensures declared { OnOk result (self.new
            ≡ with_thing self.old (name_in self.old.names scope name.now) kind thing) }
        ensures tree { OnOk result (IsNameTree self.new.names) }
        ensures err { OnErr result (self.new ≡ self.old) }
    {
        self.things.reserve(1)?;
        let count = self.names.len();
        let found = self.names.declare_in(alloc, scope, name, kind)?;
        if self.names.len() == count {
            return Ok(found);
        }
        self.things.push_reserved(thing);
        Ok(found)
    }

    /// Adds what is declared with this name in the scope with a number, and returns the number of
    /// its full name. With no number, the scope is the nameless one. If the scope has the name
    /// already, nothing is added: the number is that of the first. Unlike `declare`, it doesn't
    /// look for the scope, so it serves where many names stand in a scope with a long name.
    ///
    /// # Errors
    /// `AllocError` where memory runs out. The table is as it was.
    pub fn add(
        &mut self,
        alloc: Global,
        scope: Option<usize>,
        name: &str,
        kind: Kind,
        thing: Thing,
    ) -> Result<usize, AllocError>
        requires { is_identifier name.now ≡ true }
        ensures number { IfOk result (λ n. number_of self.new.names
            (name_in self.old.names scope name.now) ≡ Some n) }
        ensures added { OnOk result (self.new
            ≡ with_added self.old (name_in self.old.names scope name.now) kind thing) }
        ensures err { OnErr result (self.new ≡ self.old) }
    {
        self.things.reserve(1)?;
        let known = self.names.len();
        let number = self.names.add(alloc, scope, name, kind)?;
        if self.names.len() == known {
            return Ok(number);
        }
        self.things.push_reserved(thing);
        Ok(number)
    }

    /// What has a number.
    pub fn thing(&self, number: usize) -> Option<&Thing>
        ensures { option_copied result ≡ slice_get self.now.things number }
    {
        self.things.get(number)
    }

    /// A dot, and the full name with a number. It is empty if nothing has the number.
    ///
    /// # Errors
    /// `AllocError` where memory runs out.
    pub fn dotted(&self, alloc: Global, number: usize) -> Result<Text, AllocError>
        ensures { IfOk result (λ made. made ≡ dotted (name_at self.now.names number)) }
    {
        Ok(Text::from_string(self.names.dotted(alloc, number)?))
    }

    /// The number of what has this name in the scope with a number, if anything has it. The name
    /// may have several parts. With no number, the scope is the nameless one. It takes no memory.
    pub fn find(&self, scope: Option<usize>, name: &str) -> Option<usize>
        ensures { result ≡ number_of self.now.names (name_in self.now.names scope name.now) }
    {
        self.names.find(scope, name)
    }

    /// Whether what has a number stands in this scope under this name. Then the name is an
    /// identifier. Nothing stands in a scope that the table doesn't have.
    pub fn is_part(&self, number: usize, scope: Option<usize>, name: &str) -> bool
        ensures { IsTrue result ↔ IsPart self.now.names number scope name.now }
    {
        self.names.is_part(number, scope, name)
    }

    /// What `find` answers, for one who guesses that `near` is the number. It is quicker where the
    /// guess is right; whatever it is, the answer is the same.
    pub fn find_near(&self, scope: Option<usize>, name: &str, near: usize) -> Option<usize>
        ensures { result ≡ number_of self.now.names (name_in self.now.names scope name.now) }
    {
        self.names.find_near(scope, name, near)
    }

    /// A name without dots, to look for in many scopes.
    pub fn word<'a>(&'a self, name: &'a str) -> Word<'a>
        requires { is_one_part name.now ≡ true }
        ensures tree { result.tree ≡ self.now.names }
        ensures name { result.name ≡ name.now }
    {
        self.names.word(name)
    }

    /// The number of what has this name in the scope with this full name, if anything has it. The
    /// nameless scope is the empty text. It takes no memory.
    pub fn find_within(&self, scope: &str, name: &str) -> Option<usize>
        ensures { result ≡ number_of self.now.names (within scope.now name.now) }
    {
        self.names.find_within(scope, name)
    }

    /// The number of the scope that a name stands in. None if that is the nameless scope, or if
    /// nothing has the number.
    pub fn outer(&self, number: usize) -> Option<usize>
        ensures { IsOuter (name_at self.now.names) number result }
    {
        self.names.outer(number)
    }

    /// The kind of what has a number; that of a member, if nothing has it.
    pub fn kind(&self, number: usize) -> Kind
        ensures { result ≡ kind_at self.now.names number }
    {
        self.names.kind(number)
    }
}
