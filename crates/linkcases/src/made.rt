//! A set of files that is made from a number, to be timed: the same at each run.

use crate::source::Source;
use std::alloc::{AllocError, Global};

// How many messages a file has, and how many fields a message.
const MESSAGES: usize = 20;

const FIELDS: usize = 12;

// Numbers drawn from a seed, by Knuth's generator for MMIX.
#[derive(Drop)]
struct Draw {
    state: u64,
}

impl Draw {
    // A number below `count`.
    fn below(&mut self, count: usize) -> usize {
        self.state = self
            .state
            .wrapping_mul(6_364_136_223_846_793_005)
            .wrapping_add(1_442_695_040_888_963_407);
        ((self.state >> 33) % (count.max(1) as u64)) as usize
    }
}

// The number of a file that the file with this number imports, or its own.
fn seen_file(draw: &mut Draw, file: usize) -> usize {
    let back = match draw.below(6) {
        0 => 1,
        1 => 2,
        2 => 5,
        _ => 0,
    };
    if back <= file { file - back } else { file }
}

// The name of a type, as a field may use it.
fn push_type(
    alloc: Global,
    out: &mut String,
    draw: &mut Draw,
    file: usize,
) -> Result<(), AllocError> {
    let (other, message) = (seen_file(draw, file), draw.below(MESSAGES));
    let part = other / 8;
    let name = match draw.below(4) {
        0 => format!(in alloc; ".made.part{part}.Message{other}x{message}")?,
        1 => format!(in alloc; "part{part}.Message{other}x{message}.Kind")?,
        _ => format!(in alloc; "made.part{part}.Message{other}x{message}")?,
    };
    let word = match draw.below(8) {
        0 => "Kind",
        1 => "int32",
        2 => "string",
        3 => "bool",
        _ => name.as_str(),
    };
    out.push_str(word)
}

fn push_message(
    alloc: Global,
    out: &mut String,
    draw: &mut Draw,
    file: usize,
    number: usize,
) -> Result<(), AllocError> {
    let head = format!(in alloc; "message Message{file}x{number} {{\n")?;
    out.push_str(head.as_str())?;
    out.push_str("  enum Kind {\n    NONE = 0;\n    SOME = 1;\n  }\n")?;
    for field in 1..FIELDS + 1 {
        out.push_str("  optional ")?;
        push_type(alloc, out, draw, file)?;
        let end = format!(in alloc; " some_field_{field} = {field};\n")?;
        out.push_str(end.as_str())?;
    }
    out.push_str("}\n")
}

// It imports up to three of the files before it.
fn made_file(alloc: Global, draw: &mut Draw, file: usize) -> Result<Source, AllocError> {
    let name = format!(in alloc; "made{file}.proto")?;
    let part = file / 8;
    let mut text = format!(in alloc; "syntax = \"proto2\";\npackage made.part{part};\n")?;
    for back in [1, 2, 5] {
        if back <= file {
            let other = file - back;
            text.push_str(format!(in alloc; "import \"made{other}.proto\";\n")?.as_str())?;
        }
    }
    for number in 0..MESSAGES {
        push_message(alloc, &mut text, draw, file, number)?;
    }
    Ok(Source { name, text })
}

/// As many files as are wanted, made from the seed. Nothing is wrong with them.
pub(crate) fn made(alloc: Global, seed: u64, count: usize) -> Result<Vec<Source>, AllocError> {
    let mut draw = Draw { state: seed };
    let mut sources = Vec::new(alloc);
    for file in 0..count {
        sources.push(made_file(alloc, &mut draw, file)?)?;
    }
    Ok(sources)
}
