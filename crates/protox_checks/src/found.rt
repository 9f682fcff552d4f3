//! The faults found so far.

ghost use Rattle.std.specs.Prelude.{◌≡◌, ◌++◌, ◌∷◌, [], map, OnOk};
ghost use Rattle.protox_checks.specs.Faults.{settled};

use protox_descriptor::values::Items;
use protox_fault::error::{ParseErrorKind, Span};
use std::alloc::{AllocError, Global};
use std::marker::Model;

/// Faults in the order in which they were found. Contracts see the word of each kind as if it were
/// always held the same way in memory.
#[derive(Drop)]
pub(crate) struct Found {
    alloc: Global,
    faults: Items<ParseErrorKind>,
}

impl Model for Found {
    ghost use Rattle.std.specs.Prelude.{List, map};
    ghost use Rattle.protox_fault.specs.declared.error.ParseErrorKind.{ParseErrorKind};
    ghost use Rattle.protox_checks.specs.Faults.{settled};

    ghost Value = { List ParseErrorKind };

    ghost view = { λ found. map settled found.faults };
}

/// A copy of the span.
pub(crate) fn copied(span: &Span) -> Span
    ensures { result ≡ span.now }
{
    span.start..span.end
}

impl Found {
    /// No fault yet. It takes no memory: `alloc` serves what is added later.
    pub fn new(alloc: Global) -> Found
        ensures { result ≡ [] }
    {
        Found {
            alloc,
            faults: Items::new(alloc),
        }
    }

    /// The allocator for the texts of faults.
    pub fn alloc(&self) -> Global {
        self.alloc
    }

    /// Adds a fault.
    pub fn add(&mut self, fault: ParseErrorKind) -> Result<(), AllocError>
        ensures { OnOk result (self.new ≡ self.old ++ settled fault ∷ []) }
    {
        self.faults.push(fault)
    }

    /// The faults as a list.
    pub fn into_items(self) -> Items<ParseErrorKind>
        ensures { map settled result ≡ self }
    {
        let Found { faults, .. } = self;
        faults
    }
}
