//! What is told of files that import one another in a circle.

ghost use Rattle.std.specs.Prelude.{◌≡◌, ◌++◌, IfOk, OnOk, string_bytes};
ghost use Rattle.protox_link_text.specs.Told as told;

use crate::lists::file_name;
use protox_descriptor::descriptor::FileDescriptorProto;
use protox_descriptor::values::Text;
use std::alloc::{AllocError, Global};

// Adds each name, and an arrow.
fn push_arrows(
    names: &mut String,
    files: &[FileDescriptorProto],
    circle: &[usize],
) -> Result<(), AllocError>
    ensures { OnOk result (string_bytes names.new
        ≡ string_bytes names.old ++ told.arrows files.now circle.now) }
{
    for file in circle {
        names.push_str(file_name(files, *file))?;
        names.push_str(" -> ")?;
    }
    Ok(())
}

/// The names of the files of a circle, with arrows between them. The first one stands at the end once
/// more.
pub(crate) fn circle_text(
    alloc: Global,
    files: &[FileDescriptorProto],
    circle: &[usize],
) -> Result<Text, AllocError>
    ensures { IfOk result (λ made. made ≡ told.circle files.now circle.now) }
{
    let mut names = String::new(alloc);
    push_arrows(&mut names, files, circle)?;
    if let Some(first) = circle.first() {
        names.push_str(file_name(files, *first))?;
    }
    Ok(Text::from_string(names))
}
