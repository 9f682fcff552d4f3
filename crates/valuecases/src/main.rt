//! Reads statements of options, a line each, and prints what each says to the option's field, on the
//! wire, or what is wrong with it.
//!
//! - `values p.E A=0 B=-1 C` gives the values of an enum for the lines behind it. `C` has no number
//! - `int32 p.a positive 5` asks what the integer 5 says to a field `p.a` of the type `int32`. The
//!   type may be any scalar type or `enum`. In place of `positive` there may be `negative`, `double`
//!   (the text of a float), `identifier`, `string` (its bytes, two digits each) and `aggregate`
#![tactic(auto)]

mod answers;
mod made;

use crate::answers::answer;
use crate::made::enum_of;
use protox_descriptor::descriptor::EnumDescriptorProto;
use std::alloc::{AllocError, Global};
use std::io;

// What is printed for a line, which may be nothing.
fn told(
    alloc: Global,
    of: &mut EnumDescriptorProto,
    line: &str,
) -> Result<Option<String>, AllocError> {
    let (verb, rest) = line.split_once(' ').unwrap_or((line, ""));
    if verb == "values" {
        let values = enum_of(alloc, rest)?;
        *of = values;
        return Ok(None);
    }
    answer(alloc, of, verb, rest).map(Some)
}

// Answers all lines. Who calls it has the enum, so no `?` in it lets it go.
fn tell_all(rt: &HostRuntime, alloc: Global, of: &mut EnumDescriptorProto) -> io::Result<()> {
    for line in rt.lines(alloc) {
        if let Some(text) = told(alloc, of, line?.as_str())? {
            println!(rt; "{text}")?;
        }
    }
    Ok(())
}

fn main(rt: HostRuntime) -> io::Result<()> {
    let alloc = rt.alloc();
    let mut of = EnumDescriptorProto::new(alloc);
    tell_all(&rt, alloc, &mut of)
}
