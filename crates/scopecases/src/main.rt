//! Reads names that are declared and names that are used, a line each, and prints what each name
//! that is used stands for.
//!
//! - `message a.b` declares a full name; so do `enum`, `service`, `package` and `member`
//! - `type b in a.c.d` asks for the type of a field of the full name `a.c.d`. The answers of
//!   `resolve` and `resolve_in` have to be the same
//! - `anything b in a.c.d` asks for whatever has the name, where a message is expected
//! - `json a_b` asks for the JSON name of a field
//! - `alike a_b aB` asks whether two names are equal without case
//! - an empty line forgets what is declared
#![tactic(auto)]

mod answers;
mod listed;
mod nested;

use crate::answers::answer;
use crate::listed::Listed;
use std::io;

fn main(rt: HostRuntime) -> io::Result<()> {
    let alloc = rt.alloc();
    let mut listed = Listed {
        entries: Vec::new(alloc),
    };
    for line in rt.lines(alloc) {
        if let Some(text) = answer(alloc, &mut listed, line?.as_str())? {
            println!(rt; "{text}")?;
        }
    }
    Ok(())
}
