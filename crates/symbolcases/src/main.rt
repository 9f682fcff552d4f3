//! Reads names that are declared and names that are used, a line each, and prints the numbers that
//! a table gives them, and the line that declared each first, counted from 0.
//!
//! - `message a.b` declares a full name; so do `enum`, `service`, `package` and `member`
//! - `add b in a` adds a member to a scope
//! - `find b in a` looks a name up in one scope
//! - `type b in a.c.d` asks for the type of a field of the full name `a.c.d`, and `anything b in
//!   a.c.d` for whatever has the name. `resolve` and `resolve_in` have to give the same answer
//! - `names` asks how many names there are
//!
//! It also reads files, and makes a table of all that they declare, in place of the one before:
//!
//! - `begin a.b` begins a file of a package, and `begin` alone one of none
//! - `open M` begins a message, and `close` ends the last one that is begun
//! - `field f`, `oneof o`, `extension e` and `values E ONE TWO`, an enum with its values, are in that
//!   message; outside of messages `extension` and `values` are in the file, and so is `methods S f g`,
//!   a service with its methods. A word that is left out leaves the name unset
//! - `end` makes the table, and prints how many names it has
//! - `at a.b` asks what has a full name: its file and its path
#![tactic(auto)]

mod answers;
mod set;

use crate::answers::answer;
use crate::set::Set;
use protox_symbols::Symbols;
use std::alloc::Global;
use std::io;

// Answers all lines. Who calls it has the table and the files, so no `?` in it lets them go.
fn answer_all(
    rt: &HostRuntime,
    alloc: Global,
    symbols: &mut Symbols,
    set: &mut Set,
) -> io::Result<()> {
    let mut count: usize = 0;
    for line in rt.lines(alloc) {
        let text = answer(alloc, symbols, set, line?.as_str(), count)?;
        count = count.saturating_add(1);
        println!(rt; "{text}")?;
    }
    Ok(())
}

fn main(rt: HostRuntime) -> io::Result<()> {
    let alloc = rt.alloc();
    let mut symbols = Symbols::new(alloc);
    let mut set = Set {
        files: Vec::new(alloc),
        open: Vec::new(alloc),
    };
    answer_all(&rt, alloc, &mut symbols, &mut set)
}
