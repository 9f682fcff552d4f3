//! Fields of a message that can't be told apart by their names.

ghost use Rattle.std.specs.Prelude.{◌≡◌, map, IfOk};
ghost use Rattle.protox_alike.specs.Alike as words;
ghost use Rattle.protox_alike.specs.Keys.{key_of_field};
ghost use Rattle.protox_alike.specs.inner.Prints.{print_of};

use crate::keys::{key_of_field, text_of};
use crate::prints::{differ, print_of_field};
use crate::same::same_names;
use protox_descriptor::descriptor::{DescriptorProto, FieldDescriptorProto};
use protox_numbers::Clash;
use std::alloc::{AllocError, Global};

fn prints(alloc: Global, fields: &[FieldDescriptorProto]) -> Result<Vec<u32>, AllocError>
    ensures { IfOk result (λ made. made.items ≡ map (λ field. print_of (key_of_field field)) fields.now) }
{
    let mut made = Vec::with_capacity(alloc, fields.len())?;
    for field in fields {
        made.push(print_of_field(text_of(field.name.as_ref())))?;
    }
    Ok(made)
}

fn keys(alloc: Global, fields: &[FieldDescriptorProto]) -> Result<Vec<Vec<u8>>, AllocError>
    ensures { IfOk result (λ made. map (λ key. key.items) made.items ≡ map key_of_field fields.now) }
{
    let mut made = Vec::with_capacity(alloc, fields.len())?;
    for field in fields {
        made.push(key_of_field(alloc, text_of(field.name.as_ref()))?)?;
    }
    Ok(made)
}

/// Each field of a message whose name is that of an earlier field but for case and `_`, in order,
/// with the first such field.
///
/// # Errors
/// `AllocError` where memory runs out.
pub fn fields_alike(alloc: Global, message: &DescriptorProto) -> Result<Vec<Clash>, AllocError>
    ensures { IfOk result (λ made. made.items ≡ words.fields_alike message.now) }
{
    let fields = message.field.as_slice();
    // few of them are compared two by two, which costs the square of their number
    if fields.len() <= 32 {
        let prints = prints(alloc, fields)?;
        if differ(&prints) {
            return Ok(Vec::new(alloc));
        }
    }
    let keys = keys(alloc, fields)?;
    same_names(alloc, &keys)
}
