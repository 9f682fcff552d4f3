//! Printing to a target that refuses.

use protox_parse::ast::{FullIdent, Ident, TypeName};
use std::alloc::{AllocError, Global};
use std::fmt::{self, Write};
use std::test::Fail;

// `.foo.Bar`
fn type_name(alloc: Global) -> Result<TypeName, AllocError> {
    let mut parts = Vec::new(alloc);
    parts.push(Ident::new(String::from_str(alloc, "foo")?, 1..4))?;
    parts.push(Ident::new(String::from_str(alloc, "Bar")?, 5..8))?;
    Ok(TypeName {
        leading_dot: Some(0..1),
        name: FullIdent::from_parts(parts),
    })
}

// Takes this many writes, and refuses each later one.
#[derive(Drop)]
struct Few {
    left: usize,
}

impl fmt::Write for Few {
    fn write_str(&mut self, _text: &str) -> fmt::Result {
        if self.left == 0 {
            return Err(fmt::Error);
        }
        self.left -= 1;
        Ok(())
    }
}

fn is_refused<T: fmt::Display>(value: &T, writes: usize) -> bool {
    let mut few = Few { left: writes };
    write!(few, "{value}").is_err()
}

// How many of the first sixteen numbers of writes are too few, and whether all of these are below
// all that are enough.
fn too_few(alloc: Global) -> Result<(usize, bool), AllocError> {
    let name = type_name(alloc)?;
    let mut refused: usize = 0;
    let mut in_order = true;
    for writes in 0..16usize {
        if is_refused(&name, writes) {
            in_order = in_order && refused == writes;
            refused = refused.saturating_add(1);
        }
    }
    Ok((refused, in_order))
}

// Printing fails exactly where the writer fails.
#[test]
fn printing_fails_where_it_is_refused(rt: HostRuntime) -> Result<(), Fail> {
    let (refused, in_order) = too_few(rt.alloc())?;
    assert!(rt; in_order);
    assert!(rt; 0 < refused && refused < 16);
    Ok(())
}
