//! Reads locations and moves, a line each, and prints the locations that are left.
//!
//! `8 8,999,0 8,999,0,2|8,999,0>8,1` gives three locations by their paths and, behind the bar, one
//! move from a path to a path. `-` is the path without numbers. Printed is `8:0 8,1:1`: each path, and
//! behind the colon which of the given locations it is, counted from 0.
#![tactic(auto)]

mod read;
mod show;

use crate::read::{info_of, moves_of};
use crate::show::shown;
use protox_moved::move_locations;
use std::alloc::{AllocError, Global};
use std::io;

// What is printed for a line.
fn told(alloc: Global, line: &str) -> Result<String, AllocError> {
    let (locations, moves) = line.split_once('|').unwrap_or((line, ""));
    let moves = moves_of(alloc, moves)?;
    let mut info = info_of(alloc, locations)?;
    move_locations(alloc, &mut info, moves)?;
    shown(alloc, info.location.as_slice())
}

fn main(rt: HostRuntime) -> io::Result<()> {
    let alloc = rt.alloc();
    for line in rt.lines(alloc) {
        let text = told(alloc, line?.as_str())?;
        println!(rt; "{text}")?;
    }
    Ok(())
}
