//! The text format of locations.

use crate::each::{InText, write_each, write_items, write_lent};
use crate::lines::{Level, write_close, write_open};
use protox_descriptor::descriptor::SourceCodeInfo;
use protox_descriptor::descriptor::source_code_info::Location;
use std::io::{self, Write};

impl InText for Location {
    ghost use Rattle.protox_text.specs.TextFormat.{location_text};

    ghost text = { location_text };

    fn write_to<W: Write>(&self, out: &mut W, level: Level, name: &str) -> io::Result<()> {
        write_open(out, level, name)?;
        let inner = level.inner();
        write_each(out, inner, "path", self.path.as_slice())?;
        write_each(out, inner, "span", self.span.as_slice())?;
        write_lent(out, inner, "leading_comments", self.leading_comments())?;
        write_lent(out, inner, "trailing_comments", self.trailing_comments())?;
        write_each(
            out,
            inner,
            "leading_detached_comments",
            self.leading_detached_comments(),
        )?;
        write_close(out, level)
    }
}

impl InText for SourceCodeInfo {
    ghost use Rattle.protox_text.specs.TextFormat.{source_info_text};

    ghost text = { source_info_text };

    fn write_to<W: Write>(&self, out: &mut W, level: Level, name: &str) -> io::Result<()> {
        write_open(out, level, name)?;
        let inner = level.inner();
        write_items(out, inner, "location", &self.location)?;
        write_close(out, level)
    }
}
