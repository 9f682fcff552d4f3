//! The spans of a list in blocks of 1, of 2, of 4, and so on.

ghost use Rattle.std.specs.Prelude.{◌≡◌, ◌<◌, ◌≤◌, IfOk};
ghost use Rattle.protox_spans.specs.inner.Blocks.{IsLevel, AreLevels, AreSorted, met_at};

use crate::block::Block;
use crate::span::Span;
use std::alloc::{AllocError, Global};

// Blocks of one width, in order.
#[derive(Drop)]
pub struct Level {
    pub blocks: Vec<Block>,
}

impl Level {
    // The spans in blocks of this width. The last one may hold fewer.
    pub fn new(alloc: Global, spans: &[Span], width: usize) -> Result<Level, AllocError>
        requires { 0 < width }
        ensures { IfOk result (λ made. IsLevel made width spans.now) }
    {
        let mut blocks = Vec::new(alloc);
        let mut rest = spans;
        while !rest.is_empty() {
            let (piece, others) = rest.split_at(rest.len().min(width));
            blocks.push(Block::new(alloc, piece)?)?;
            rest = others;
        }
        Ok(Level { blocks })
    }

    // How many spans of a block meet a span. Behind the last block there are none.
    pub fn met(&self, at: usize, span: Span) -> usize
        requires numbers { span.start < span.end }
        requires sorted { AreSorted self.now }
        ensures { result ≡ met_at self.now at span }
    {
        match self.blocks.get(at) {
            None => 0,
            Some(block) => block.count_met(span),
        }
    }
}

// All levels, up to the one whose first block holds all spans.
pub fn levels(alloc: Global, spans: &[Span]) -> Result<Vec<Level>, AllocError>
    ensures { IfOk result (λ made. AreLevels made.items spans.now) }
{
    let mut made = Vec::new(alloc);
    let mut width = 1;
    while width < spans.len() {
        made.push(Level::new(alloc, spans, width)?)?;
        width *= 2;
    }
    made.push(Level::new(alloc, spans, width)?)?;
    Ok(made)
}
