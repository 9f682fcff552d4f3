//! `parsecount FILE [TURNS]` parses a file TURNS times and prints how many locations it has. It
//! measures the parser alone, with the time to drop the descriptor; `protoscan` prints too.
//! `parsecount FILE TURNS pool` does the same with the locations in a pool.
//! `parsecount FILE TURNS table` only makes the file's token table and prints how many rows it has.
//! After the first turn the program uses memory that was used before.
#![tactic(auto)]

use protox_parse::lex::TokenTable;
use protox_parse::{ParseFailure, parse, parse_pooled};
use std::alloc::{AllocError, Global};
use std::io::{self, Write};
use std::process::ExitCode;
use std::{env, fs};

// How many locations the file has. It is parsed `turns` times.
fn locations(alloc: Global, name: &str, source: &str, turns: u32) -> Result<usize, ParseFailure> {
    let mut count = 0;
    for _ in 0..turns {
        let file = parse(alloc, name, source)?;
        count = match &file.source_code_info {
            Some(info) => info.location.len(),
            None => 0,
        };
    }
    Ok(count)
}

// How many locations the file has. It is parsed `turns` times, into a pool.
fn pooled(alloc: Global, name: &str, source: &str, turns: u32) -> Result<usize, ParseFailure> {
    let mut count = 0;
    for _ in 0..turns {
        count = parse_pooled(alloc, name, source)?.locations.len();
    }
    Ok(count)
}

// How many rows the token table has. It is made `turns` times.
fn rows(alloc: Global, source: &str, turns: u32) -> Result<usize, AllocError> {
    let mut rows = 0;
    for _ in 0..turns {
        rows = TokenTable::new(alloc, source)?.rows();
    }
    Ok(rows)
}

fn count(rt: &HostRuntime, words: &[String]) -> io::Result<u8> {
    let Some(name) = words.first() else {
        return Ok(2);
    };
    let turns = match words.get(1) {
        Some(word) => word.parse::<u32>().unwrap_or(1),
        None => 1,
    };
    let bytes = fs::read(rt, name.as_str())?;
    let Ok(source) = str::from_utf8(&bytes) else {
        return Ok(2);
    };
    let found = match words.get(2) {
        Some(word) if word.as_str() == "pool" => pooled(rt.alloc(), name.as_str(), source, turns),
        Some(_) => Ok(rows(rt.alloc(), source, turns)?),
        None => locations(rt.alloc(), name.as_str(), source, turns),
    };
    let Ok(count) = found else {
        return Ok(1);
    };
    writeln!(rt.stdout(), "{count}")?;
    Ok(0)
}

fn count_words(rt: &HostRuntime) -> io::Result<u8> {
    let mut words = Vec::new(rt.alloc());
    for word in env::args(rt)?.skip(1) {
        words.push(word)?;
    }
    count(rt, &words)
}

fn main(rt: HostRuntime) -> ExitCode {
    ExitCode::from(count_words(&rt).unwrap_or(2))
}
