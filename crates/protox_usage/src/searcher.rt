//! The searches for all names that a file uses.

ghost use Rattle.std.specs.Prelude.{◌≡◌, ◌||◌};
ghost use Rattle.std.specs.List.{flat_map, list_any};
ghost use Rattle.protox_usage.specs.Lookups.{is_extension, lookups_of_declared};
ghost use Rattle.protox_usage.specs.Lookups.{lookups_of_option, lookups_of_options};
ghost use Rattle.protox_usage.specs.Lookups.{lookups_of_part, may_name, may_use_more};
ghost use Rattle.protox_usage.specs.Options.{options_of_declared, options_of_ranges};
ghost use Rattle.protox_usage.specs.Searched.{met_by, noted};
ghost use Rattle.protox_walk.specs.Parts.{Field, Message, Method};

use crate::search::Sight;
use protox_descriptor::descriptor::{
    DescriptorProto, FieldDescriptorProto, MethodDescriptorProto, UninterpretedOption,
};
use protox_descriptor::uninterpreted::HasUninterpreted;
use protox_marks::Marks;
use protox_scopes::Wanted;
use protox_walk::{Part, Visit};
use std::alloc::AllocError;

/// What searches came upon.
#[derive(Drop)]
pub(crate) struct Found {
    /// The files of all that they came upon.
    pub(crate) used: Marks,
    /// Whether an option may use more than is known here.
    pub(crate) guesses: bool,
}

/// Searches for the names that declarations use.
#[derive(Drop)]
pub(crate) struct Searcher<'a> {
    /// What is searched.
    pub(crate) sight: &'a Sight<'a>,
    /// What the searches came upon.
    pub(crate) found: Found,
}

// Whether the value of an option may name something of another file: a value of an enum, or an
// extension in a message.
fn may_name(option: &UninterpretedOption) -> bool
    ensures { result ≡ may_name option.now.identifier_value option.now.aggregate_value }
{
    if let Some(word) = &option.identifier_value {
        return !matches!(word.as_str(), "true" | "false" | "inf" | "nan");
    }
    match &option.aggregate_value {
        Some(value) => value.as_str().as_bytes().contains(&b'['),
        None => false,
    }
}

// Whether an option has a custom name.
fn is_custom(option: &UninterpretedOption) -> bool
    ensures { result ≡ list_any is_extension option.now.name }
{
    option.name.as_slice().iter().any(|part| part.is_extension)
}

// Whether an option has a custom name, and a value that may name something of another file.
fn may_use_more(option: &UninterpretedOption) -> bool
    ensures { result ≡ may_use_more option.now }
{
    is_custom(option) && may_name(option)
}

// Whether one of these options does.
fn some_may_use_more(options: &[UninterpretedOption]) -> bool
    ensures { result ≡ list_any may_use_more options.now }
{
    options.iter().any(|option| may_use_more(option))
}

impl Sight<'_> {
    // Searches for the names of extensions that an option of `user` has. Any option uses the file of
    // descriptor.proto.
    fn search_option(&self, option: &UninterpretedOption, user: &str, used: &mut Marks)
        ensures { used.new ≡ noted self.now used.old
            (flat_map (met_by self.now) (lookups_of_option user.now option.now)) }
    {
        self.search(Wanted::Anything, ".google.protobuf.FileOptions", user, used);
        let parts = option.name.as_slice();
        for part in parts {
            if part.is_extension {
                self.search(Wanted::Anything, part.name_part.as_str(), user, used);
            }
        }
    }

    /// Searches for what the options of `user` name.
    pub(crate) fn search_options(
        &self,
        options: &[UninterpretedOption],
        user: &str,
        found: &mut Found,
    )
        ensures used { found.new.used ≡ noted self.now found.old.used
            (flat_map (met_by self.now) (lookups_of_options user.now options.now)) }
        ensures guesses { found.new.guesses
            ≡ (found.old.guesses || list_any may_use_more options.now) }
    {
        for option in options {
            self.search_option(option, user, &mut found.used);
        }
        found.guesses |= some_may_use_more(options);
    }

    // Notes what the options of the extension ranges of a message use.
    fn search_ranges(&self, message: &DescriptorProto, user: &str, found: &mut Found)
        ensures used { found.new.used ≡ noted self.now found.old.used
            (flat_map (met_by self.now)
            (lookups_of_options user.now (options_of_ranges (Message message.now)))) }
        ensures guesses { found.new.guesses
            ≡ (found.old.guesses || list_any may_use_more (options_of_ranges (Message message.now))) }
    {
        let ranges = message.extension_range.as_slice();
        for range in ranges {
            if let Some(options) = &range.options {
                self.search_options(options.uninterpreted(), user, found);
            }
        }
    }

    // Searches for what a field extends, and for its type.
    fn search_field(&self, field: &FieldDescriptorProto, user: &str, used: &mut Marks)
        ensures { used.new ≡ noted self.now used.old
            (flat_map (met_by self.now) (lookups_of_part user.now (Field field.now))) }
    {
        if let Some(name) = field.extendee() {
            self.search(Wanted::Anything, name.as_str(), user, used);
        }
        if let Some(name) = &field.type_name {
            self.search(Wanted::AType, name.as_str(), user, used);
        }
    }

    // Searches for what a method takes and gives.
    fn search_method(&self, method: &MethodDescriptorProto, user: &str, used: &mut Marks)
        ensures { used.new ≡ noted self.now used.old
            (flat_map (met_by self.now) (lookups_of_part user.now (Method method.now))) }
    {
        if let Some(name) = &method.input_type {
            self.search(Wanted::Anything, name.as_str(), user, used);
        }
        if let Some(name) = &method.output_type {
            self.search(Wanted::Anything, name.as_str(), user, used);
        }
    }
}

impl<'a> Visit<'a> for Searcher<'_> {
    ghost visits = { λ old one new. (new.sight.now ≡ old.sight.now)
        × (new.found.used ≡ noted old.sight.now old.found.used
        (flat_map (met_by old.sight.now) (lookups_of_declared one)))
        × (new.found.guesses ≡ (old.found.guesses || list_any may_use_more (options_of_declared one))) };

    type Error = AllocError;

    fn visit(&mut self, _path: &[i32], name: &str, part: Part<'a>) -> Result<(), AllocError> {
        self.sight
            .search_options(part.options(), name, &mut self.found);
        match part {
            Part::Message(message) => self.sight.search_ranges(message, name, &mut self.found),
            Part::Field(field) => self.sight.search_field(field, name, &mut self.found.used),
            Part::Method(method) => self.sight.search_method(method, name, &mut self.found.used),
            _ => (),
        }
        Ok(())
    }
}
