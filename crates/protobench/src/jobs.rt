//! The jobs, each over some sources.

use crate::answers::{mix_bytes, mix_docs, mix_printed};
use crate::digest::Digest;
use crate::draw::Draw;
use crate::members::Style;
use crate::shapes::Shape;
use crate::{files, plain, shapes, slips};
use std::alloc::{AllocError, Global};

/// What is done with each source.
#[derive(Clone, Copy)]
pub enum Job {
    /// Sources of the whole language to encoded descriptors.
    Bytes,
    /// Large sources of plain fields to encoded descriptors.
    Fields,
    /// All declarations with places and comments.
    Docs,
    /// The reports of all faults.
    Faults,
    /// Descriptors as text, and outlines.
    Text,
    /// Sources of awkward shapes to encoded descriptors or reports.
    Shapes,
}

impl Job {
    /// The job with this name.
    pub fn named(name: &str) -> Option<Job> {
        match name {
            "bytes" => Some(Job::Bytes),
            "fields" => Some(Job::Fields),
            "docs" => Some(Job::Docs),
            "faults" => Some(Job::Faults),
            "text" => Some(Job::Text),
            "shapes" => Some(Job::Shapes),
            _ => None,
        }
    }

    /// How many sources take a second or more.
    pub fn files(self) -> u32 {
        match self {
            Job::Bytes => 400,
            Job::Fields => 3,
            Job::Docs => 400,
            Job::Faults => 600,
            Job::Text => 150,
            Job::Shapes => 24,
        }
    }

    // How many of 100 declarations have a comment.
    fn comments(self) -> u64 {
        match self {
            Job::Docs => 90,
            _ => 45,
        }
    }
}

// How many declarations a source has: most have few, some many.
fn size(draw: &mut Draw) -> u32 {
    if draw.chance(10) {
        200 + draw.up_to(400)
    } else {
        10 + draw.up_to(80)
    }
}

// The source of a number.
fn source_of(alloc: Global, job: Job, draw: &mut Draw, number: u32) -> Result<String, AllocError> {
    let style = Style {
        comments: job.comments(),
        proto2: draw.chance(25),
    };
    match job {
        Job::Fields => plain::source(alloc, draw, 12_000),
        Job::Shapes => shapes::source(alloc, draw, Shape::of(number), 1_000_000),
        Job::Faults => {
            let declarations = size(draw);
            slips::source(alloc, draw, &style, declarations)
        }
        Job::Bytes | Job::Docs | Job::Text => {
            let declarations = size(draw);
            files::source(alloc, draw, &style, declarations)
        }
    }
}

/// Does a job over as many sources as are asked for. The answer is how many bytes they have.
pub fn run(
    alloc: Global,
    job: Job,
    draw: &mut Draw,
    files: u32,
    digest: &mut Digest,
) -> Result<u64, AllocError> {
    let mut bytes: u64 = 0;
    for number in 0..files {
        let source = source_of(alloc, job, draw, number)?;
        bytes = bytes.wrapping_add(source.len() as u64);
        let source = source.as_str();
        match job {
            Job::Bytes | Job::Fields | Job::Faults | Job::Shapes => {
                mix_bytes(alloc, digest, "directory.proto", source)?;
            }
            Job::Docs => mix_docs(alloc, digest, "directory.proto", source)?,
            Job::Text => mix_printed(alloc, digest, "directory.proto", source)?,
        }
    }
    Ok(bytes)
}
