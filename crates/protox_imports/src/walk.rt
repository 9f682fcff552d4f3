//! A walk over the files that gives each its place behind what it imports, by a stack of its own.

ghost use Rattle.std.specs.Prelude.{◌≡◌, ℕ, ◌<◌, [], ◌∷◌, ◌++◌, Some, IfOk, OnOk, IfSome};
ghost use Rattle.std.specs.Prelude.{IfNone, MatchOption, Contains, length, slice_set, vec_len};
ghost use Rattle.std.specs.Prelude.{replicate, map, drop};
ghost use Rattle.protox_imports.specs.Order.{IsCycle};
ghost use Rattle.protox_imports.specs.Rows.{ImportsIn};
ghost use Rattle.protox_imports.specs.inner.Walk.{IsNew, IsPlaced, ArePlaced, IsNext, IsWalk, Goes};
ghost use Rattle.protox_imports.specs.inner.Walk.{Visited};

use crate::imports::Imports;
use std::alloc::{AllocError, Global};

// How far the walk has come with a file.
#[derive(Clone, Copy)]
pub enum State {
    New,
    // On the stack, with this many files below it.
    Open(usize),
    // In the order, behind this many files.
    Placed(usize),
}

// A file on the stack, and the index of the first of its imports that may have no place yet.
#[derive(Clone, Copy)]
pub struct Frame {
    pub file: usize,
    pub next: usize,
}

#[derive(Drop)]
pub struct Walk {
    pub states: Vec<State>,
    pub stack: Vec<Frame>,
    pub placed: Vec<usize>,
}

// The file that the import names, if it has no place yet.
fn waiting(import: Option<usize>, states: &[State]) -> Option<usize>
    requires { IfSome import (λ g. g < length states.now) }
    ensures found { IfSome result (λ g. (import ≡ Some g) × (IsPlaced states.now g → ⊥)) }
    ensures none { IfNone result ((g : ℕ) → import ≡ Some g → IsPlaced states.now g) }
{
    let file = import?;
    match states[file] {
        State::Placed(_) => None,
        _ => Some(file),
    }
}

// The index of the first import that has no place yet, and its file. Those before `from` have one.
fn next_import(named: &[Option<usize>], states: &[State], from: usize) -> Option<(usize, usize)>
    requires within { (g : ℕ) → Contains named.now (Some g) → g < length states.now }
    requires passed { ArePlaced states.now named.now from }
    ensures found { IfSome result (λ next. IsNext states.now named.now next.0 next.1) }
    ensures none { IfNone result (ArePlaced states.now named.now (length named.now)) }
{
    for index in from..named.len() {
        if let Some(file) = waiting(named[index], states) {
            return Some((index, file));
        }
    }
    None
}

// The files of the stack from this depth on.
fn files_from(alloc: Global, stack: &[Frame], depth: usize) -> Result<Vec<usize>, AllocError>
    requires { depth < length stack.now }
    ensures { IfOk result (λ files.
        files.items ≡ map (λ frame. frame.file) (drop depth stack.now)) }
{
    stack[depth..].iter().map(|frame| frame.file).collect(alloc)
}

impl Walk {
    // The walk before its first step, over this many files.
    pub fn new(alloc: Global, count: usize) -> Result<Walk, AllocError>
        ensures states { IfOk result (λ walk. walk.states.items ≡ replicate count State.New) }
        ensures stack { IfOk result (λ walk. walk.stack.items ≡ []) }
        ensures placed { IfOk result (λ walk. walk.placed.items ≡ []) }
    {
        let states = vec![in alloc; State::New; count]?;
        Ok(Walk {
            states,
            stack: Vec::new(alloc),
            placed: Vec::new(alloc),
        })
    }

    // Puts a file on the stack.
    fn enter(&mut self, file: usize) -> Result<(), AllocError>
        requires { file < vec_len self.old.states }
        ensures states { OnOk result (self.new.states.items ≡
            slice_set self.old.states.items file (State.Open (vec_len self.old.stack))) }
        ensures stack { OnOk result (self.new.stack.items ≡
            self.old.stack.items ++ record { file = file; next = 0 } ∷ []) }
        ensures placed { self.new.placed ≡ self.old.placed }
    {
        let depth = self.stack.len();
        self.states[file] = State::Open(depth);
        self.stack.push(Frame { file, next: 0 })?;
        Ok(())
    }

    // Gives a file the next place.
    fn place(&mut self, file: usize) -> Result<(), AllocError>
        requires { file < vec_len self.old.states }
        ensures states { OnOk result (self.new.states.items ≡
            slice_set self.old.states.items file (State.Placed (vec_len self.old.placed))) }
        ensures placed { OnOk result (self.new.placed.items ≡ self.old.placed.items ++ file ∷ []) }
        ensures stack { self.new.stack ≡ self.old.stack }
    {
        let place = self.placed.len();
        self.states[file] = State::Placed(place);
        self.placed.push(file)?;
        Ok(())
    }

    // Goes on with the file that was on top of the stack: to its first import that has no place
    // yet, or else gives it its place. Some: the import is on the stack, so there is a cycle.
    fn step(
        &mut self,
        alloc: Global,
        imports: &Imports,
        top: Frame,
    ) -> Result<Option<Vec<usize>>, AllocError>
        requires { IsWalk imports.now.files self.old.states.items
            (self.old.stack.items ++ top ∷ []) self.old.placed.items }
        ensures { IfOk result (λ cycle. MatchOption cycle
            (Goes imports.now.files self.old.states.items self.new.states.items
            (self.old.stack.items ++ top ∷ []) self.new.stack.items self.old.placed.items
            self.new.placed.items)
            (λ files. IsCycle (ImportsIn imports.now.files) files.items)) }
    {
        let Some((next, file)) = next_import(imports.named(top.file), &self.states, top.next) else {
            self.place(top.file)?;
            return Ok(None);
        };
        self.stack.push(Frame {
            file: top.file,
            next,
        })?;
        if let State::Open(depth) = self.states[file] {
            return Ok(Some(files_from(alloc, &self.stack, depth)?));
        }
        self.enter(file)?;
        Ok(None)
    }

    // Gives a new file and all that it imports their places, or finds a cycle.
    fn visit_new(
        &mut self,
        alloc: Global,
        imports: &Imports,
        root: usize,
    ) -> Result<Option<Vec<usize>>, AllocError>
        requires walk { IsWalk imports.now.files self.old.states.items [] self.old.placed.items }
        requires ends { self.old.stack.items ≡ [] }
        requires new { IsNew self.old.states.items root }
        ensures { IfOk result (λ cycle. MatchOption cycle
            (Visited imports.now.files self.old.states.items self.new.states.items root
            self.new.stack.items self.old.placed.items self.new.placed.items)
            (λ files. IsCycle (ImportsIn imports.now.files) files.items)) }
    {
        self.enter(root)?;
        while let Some(top) = self.stack.pop() {
            if let Some(files) = self.step(alloc, imports, top)? {
                return Ok(Some(files));
            }
        }
        Ok(None)
    }

    // Gives a file and all that it imports their places, or finds a cycle.
    pub fn visit(
        &mut self,
        alloc: Global,
        imports: &Imports,
        root: usize,
    ) -> Result<Option<Vec<usize>>, AllocError>
        requires walk { IsWalk imports.now.files self.old.states.items [] self.old.placed.items }
        requires ends { self.old.stack.items ≡ [] }
        requires within { root < length imports.now.files }
        ensures { IfOk result (λ cycle. MatchOption cycle
            (Visited imports.now.files self.old.states.items self.new.states.items root
            self.new.stack.items self.old.placed.items self.new.placed.items)
            (λ files. IsCycle (ImportsIn imports.now.files) files.items)) }
    {
        match self.states[root] {
            State::New => self.visit_new(alloc, imports, root),
            _ => Ok(None),
        }
    }
}
