//! Visiting the places of a file where statements of options stand.

ghost use Rattle.std.specs.Prelude.{⊤, IfOk, OnOk};
ghost use Rattle.std.specs.List.{FoldsTo};
ghost use Rattle.protox_file_options.specs.Places as found;
ghost use Rattle.protox_walk.specs.Parts.{part_of};

use crate::places::{
    options_tag, options_type, package_of, path_of_range, ranges_of, scope_around,
    statements_of_file, statements_of_range,
};
use protox_descriptor::descriptor::descriptor_proto::ExtensionRange;
use protox_descriptor::descriptor::{FileDescriptorProto, UninterpretedOption};
use protox_descriptor::tag::file::OPTIONS;
use protox_descriptor::values::Numbers;
use protox_walk::{Part, Visit, walk};
use std::alloc::{AllocError, Global};

/// What is done with each place of a file where statements of options stand.
pub trait TakePlaces {
    /// What a call that succeeds does: a relation between what takes the places before it, the
    /// place, and what takes them after it. By default it says nothing.
    ghost takes: { Self → found.Place → Self → Type 0 } = { λ _ _ _. ⊤ };

    /// Takes a place: the path of the options message, the full name of the scope in which what has
    /// the options stands, the full name of the type of the options message, and the statements.
    /// There is one at least. An error ends the walk.
    fn take(
        &mut self,
        path: &[i32],
        scope: &str,
        options: &str,
        statements: &[UninterpretedOption],
    ) -> Result<(), AllocError>
        ensures { OnOk result (takes self.old (record {
          path = path.now;
          scope = scope.now;
          options = options.now;
          statements = statements.now;
        }) self.new) };
}

// Finds the places of a declaration, and hands each on.
#[derive(Drop)]
struct Walker<P> {
    alloc: Global,
    to: P,
}

impl<P: TakePlaces> Walker<P> {
    // Hands on a place. Without a statement there is none.
    fn take_place(
        &mut self,
        path: &[i32],
        scope: &str,
        options: &str,
        statements: &[UninterpretedOption],
    ) -> Result<(), AllocError>
        ensures { OnOk result (FoldsTo P.takes self.old.to
            (found.place_if_any path.now scope.now options.now statements.now) self.new.to) }
    {
        if statements.is_empty() {
            return Ok(());
        }
        self.to.take(path, scope, options, statements)
    }

    // Hands on the place of a part.
    fn take_part(&mut self, path: &[i32], scope: &str, part: &Part<'_>) -> Result<(), AllocError>
        ensures { OnOk result (FoldsTo P.takes self.old.to
            (found.place_of_part path.now scope.now (part_of part.now)) self.new.to) }
    {
        let statements = part.options();
        if statements.is_empty() {
            return Ok(());
        }
        let place = Numbers::joined(self.alloc, path, &[options_tag(part)])?;
        self.take_place(place.as_slice(), scope, options_type(part), statements)
    }

    // Hands on the place of the extension range at an index of a message.
    fn take_range(
        &mut self,
        path: &[i32],
        scope: &str,
        index: usize,
        range: &ExtensionRange,
    ) -> Result<(), AllocError>
        ensures { OnOk result (FoldsTo P.takes self.old.to
            (found.place_of_range path.now scope.now index range.now) self.new.to) }
    {
        let statements = statements_of_range(range);
        if statements.is_empty() {
            return Ok(());
        }
        let place = path_of_range(self.alloc, path, index)?;
        let options = "google.protobuf.ExtensionRangeOptions";
        self.take_place(place.as_slice(), scope, options, statements)
    }

    // Hands on the places of the extension ranges of a message.
    fn take_ranges(
        &mut self,
        path: &[i32],
        scope: &str,
        ranges: &[ExtensionRange],
    ) -> Result<(), AllocError>
        ensures { OnOk result (FoldsTo P.takes self.old.to
            (found.ranges_from path.now scope.now 0 ranges.now) self.new.to) }
    {
        for (index, range) in ranges.iter().enumerate() {
            self.take_range(path, scope, index, range)?;
        }
        Ok(())
    }
}

impl<'a, P: TakePlaces> Visit<'a> for Walker<P> {
    ghost visits = { λ old one new. FoldsTo P.takes old.to (found.places_at one) new.to };

    type Error = AllocError;

    fn visit(&mut self, path: &[i32], full_name: &str, part: Part<'a>) -> Result<(), AllocError> {
        let scope = scope_around(full_name);
        self.take_part(path, scope, &part)?;
        self.take_ranges(path, scope, ranges_of(&part))
    }
}

// Hands on all places of a file.
fn take_all<P: TakePlaces>(
    walker: &mut Walker<P>,
    file: &FileDescriptorProto,
) -> Result<(), AllocError>
    ensures { OnOk result (FoldsTo P.takes walker.old.to
        (found.places_of file.now) walker.new.to) }
{
    walk(walker.alloc, file, walker)?;
    let statements = statements_of_file(file);
    let options = "google.protobuf.FileOptions";
    walker.take_place(&[OPTIONS], package_of(file), options, statements)
}

/// Visits each place of a file where statements of options stand: those of the declarations in the
/// order of `walk`, of each first its own and then those of its extension ranges, and last that of
/// the file as a whole. It returns what has taken them.
///
/// It walks the file once. What has no statements costs no memory.
///
/// # Errors
/// The first error of what takes the places. `AllocError` where memory runs out, or where a list has
/// more than 2,147,483,648 parts: no path can count them.
pub fn walk_places<P: TakePlaces + Drop>(
    alloc: Global,
    file: &FileDescriptorProto,
    to: P,
) -> Result<P, AllocError>
    ensures { IfOk result (λ taken. FoldsTo P.takes to (found.places_of file.now) taken) }
{
    let mut walker = Walker { alloc, to };
    match take_all(&mut walker, file) {
        Ok(()) => Ok(walker.to),
        Err(error) => Err(error),
    }
}
