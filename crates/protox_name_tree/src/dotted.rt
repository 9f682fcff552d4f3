//! Full names as texts.

ghost use Rattle.std.specs.Prelude.{◌≡◌, ◌++◌, IfOk, map, string_bytes};
ghost use Rattle.protox_names.specs.Tree.{name_of_place};
ghost use Rattle.protox_name_tree.specs.Tree.{dotted, name_at, outwards};

use crate::NameTree;
use std::alloc::{AllocError, Global};

// Few names have more parts.
const LEVELS: usize = 8;

// The length of parts with a dot before each.
fn room_for(parts: &[&str]) -> usize {
    let mut room: usize = 0;
    for part in parts {
        room = room.saturating_add(part.len()).saturating_add(1);
    }
    room
}

impl NameTree {
    // The names from a number on outwards, each in the place that the next one names.
    fn outwards(&self, alloc: Global, number: usize) -> Result<Vec<&str>, AllocError>
        ensures { IfOk result (λ parts.
            dotted (name_at self.now number) ≡ outwards (map (λ part. part.now) parts.items)) }
    {
        let mut parts = Vec::with_capacity(alloc, LEVELS)?;
        let mut place = Some(number);
        while let Some(here) = place {
            let Some((outer, own)) = self.part(here) else {
                break;
            };
            parts.push(own)?;
            place = outer;
        }
        Ok(parts)
    }

    /// A dot, and the full name with a number: so names are written that mean the same wherever
    /// they are used. It is empty if nothing has the number.
    ///
    /// # Errors
    /// `AllocError` where memory runs out.
    pub fn dotted(&self, alloc: Global, number: usize) -> Result<String, AllocError>
        ensures { IfOk result (λ made. string_bytes made ≡ dotted (name_at self.now number)) }
    {
        let mut parts = self.outwards(alloc, number)?;
        let mut made = String::with_capacity(alloc, room_for(&parts))?;
        while let Some(part) = parts.pop() {
            made.push_str(".")?;
            made.push_str(part)?;
        }
        Ok(made)
    }
}
