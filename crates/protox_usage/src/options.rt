//! Whether a file sets options.

ghost use Rattle.std.specs.Prelude.{◌≡◌, ◌||◌, IfOk};
ghost use Rattle.std.specs.Option.{option_copied};
ghost use Rattle.protox_usage.specs.Options.{are_some, has_options, options_of_declared};
ghost use Rattle.protox_usage.specs.Options.{options_of_file, options_of_ranges};
ghost use Rattle.protox_walk.specs.Parts.{Message};

use protox_descriptor::descriptor::{DescriptorProto, FileDescriptorProto, UninterpretedOption};
use protox_descriptor::uninterpreted::HasUninterpreted;
use protox_walk::{Part, Visit, walk};
use std::alloc::{AllocError, Global};

// Whether an option was come upon.
#[derive(Drop)]
struct Found {
    any: bool,
}

/// The options of a file as a whole.
pub(crate) fn options_of_file(file: &FileDescriptorProto) -> &[UninterpretedOption]
    ensures { result.now ≡ options_of_file file.now }
{
    match &file.options {
        Some(options) => options.uninterpreted(),
        None => &[],
    }
}

// Whether there is an option.
fn are_some(options: &[UninterpretedOption]) -> bool
    ensures { result ≡ are_some options.now }
{
    !options.is_empty()
}

// Whether an extension range of a message has options.
fn have_options(message: &DescriptorProto) -> bool
    ensures { result ≡ are_some (options_of_ranges (Message message.now)) }
{
    let ranges = message.extension_range.as_slice();
    for range in ranges {
        if let Some(options) = &range.options {
            if are_some(options.uninterpreted()) {
                return true;
            }
        }
    }
    false
}

impl<'a> Visit<'a> for Found {
    ghost visits = { λ old one new. new.any ≡ (old.any || are_some (options_of_declared one)) };

    type Error = AllocError;

    fn visit(&mut self, _path: &[i32], _name: &str, part: Part<'a>) -> Result<(), AllocError> {
        self.any |= are_some(part.options());
        if let Part::Message(message) = part {
            self.any |= have_options(message);
        }
        Ok(())
    }
}

/// Whether a file sets an option, for itself or for a part of it, that stays uninterpreted.
///
/// # Errors
/// `AllocError` where memory runs out, or where a list has more than 2,147,483,648 parts: no path
/// can count them.
pub fn has_options(alloc: Global, file: &FileDescriptorProto) -> Result<bool, AllocError>
    ensures { IfOk result (λ has. has ≡ has_options file.now) }
{
    if are_some(options_of_file(file)) {
        return Ok(true);
    }
    let mut found = Found { any: false };
    walk(alloc, file, &mut found)?;
    Ok(found.any)
}
