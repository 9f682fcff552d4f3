//! Puts the locations of its input into a pool, a line each, and prints what the pool tells of them.
//!
//! `4,0 1 3,8,11` is a location with the path `4,0,1` and the span `3,8,11`. Behind these may stand
//! words that are its comments: the leading one, the trailing one, and those that are detached. `-` is
//! no number, and no comment. Printed is how many locations there are; each of them; each of a pool that
//! is made of these as a descriptor has them; and each of the descriptor. A location is printed as it is
//! read, but with its path in one word. Last come two numbers: in how many ways the locations can be cut
//! in two, and how many of these give the same locations when two pools of the parts are joined.
#![tactic(auto)]

mod read;
mod show;

use crate::read::add_line;
use crate::show::{shown, shown_lent};
use protox_descriptor::descriptor::source_code_info::Location;
use protox_pool::LocationPool;
use std::alloc::{AllocError, Global};
use std::io;

// A line for each location of a pool.
fn told(alloc: Global, pool: &LocationPool) -> Result<String, AllocError> {
    let mut text = String::new(alloc);
    for index in 0..pool.len() {
        if let Some(location) = pool.get(index) {
            text.push_str(shown_lent(alloc, &location)?.as_str())?;
        }
    }
    Ok(text)
}

// A line for each location of a pool that is made of a descriptor, and for each of the descriptor.
fn told_of_info(alloc: Global, pool: &LocationPool) -> Result<String, AllocError> {
    let info = pool.to_source_code_info(alloc)?;
    let again = LocationPool::from_source_code_info(alloc, &info)?;
    let mut text = told(alloc, &again)?;
    for location in info.location.iter() {
        text.push_str(shown(alloc, location)?.as_str())?;
    }
    Ok(text)
}

// A pool of these locations.
fn pool_of(alloc: Global, locations: &[Location]) -> Result<LocationPool, AllocError> {
    let mut pool = LocationPool::new(alloc);
    for location in locations {
        pool.push_location(alloc, location)?;
    }
    Ok(pool)
}

// In how many ways locations can be cut in two so that the parts give these lines, joined.
fn joined_alike(alloc: Global, locations: &[Location], lines: &str) -> Result<usize, AllocError> {
    let mut alike: usize = 0;
    for cut in 0..=locations.len() {
        let (front, back) = locations.split_at(cut);
        let pool = pool_of(alloc, front)?.joined(pool_of(alloc, back)?)?;
        if told(alloc, &pool)?.as_str() == lines {
            alike = alike.saturating_add(1);
        }
    }
    Ok(alike)
}

fn main(rt: HostRuntime) -> io::Result<()> {
    let alloc = rt.alloc();
    let mut pool = LocationPool::with_room(alloc, 2);
    for line in rt.lines(alloc) {
        add_line(alloc, &mut pool, line?.as_str())?;
    }
    pool.shrink_to_fit();
    println!(rt; "{}", pool.len())?;
    println!(rt; "{}", told(alloc, &pool)?)?;
    println!(rt; "{}", told_of_info(alloc, &pool)?)?;
    let lines = told(alloc, &pool)?;
    let info = pool.to_source_code_info(alloc)?;
    let alike = joined_alike(alloc, info.location.as_slice(), lines.as_str())?;
    println!(rt; "{} {alike}", info.location.len() + 1)?;
    Ok(())
}
