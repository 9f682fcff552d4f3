//! Texts, bytes, numbers and flags.

use crate::each::InText;
use crate::lines::{Level, write_bytes, write_value};
use itoa::Buffer;
use protox_descriptor::values::{Items, Text};
use std::io::{self, Write};

impl InText for Text {
    ghost use Rattle.protox_text.specs.TextLines.{bytes_line};

    ghost text = { bytes_line };

    fn write_to<W: Write>(&self, out: &mut W, level: Level, name: &str) -> io::Result<()> {
        write_bytes(out, level, name, self.as_str().as_bytes())
    }
}

impl InText for Items<u8> {
    ghost use Rattle.protox_text.specs.TextLines.{bytes_line};

    ghost text = { bytes_line };

    fn write_to<W: Write>(&self, out: &mut W, level: Level, name: &str) -> io::Result<()> {
        write_bytes(out, level, name, self.as_slice())
    }
}

impl InText for bool {
    ghost use Rattle.protox_text.specs.TextLines.{flag_line};

    ghost text = { flag_line };

    fn write_to<W: Write>(&self, out: &mut W, level: Level, name: &str) -> io::Result<()> {
        write_value(out, level, name, if *self { "true" } else { "false" })
    }
}

impl InText for i32 {
    ghost use Rattle.protox_text.specs.TextLines.{number_line};

    ghost text = { number_line };

    fn write_to<W: Write>(&self, out: &mut W, level: Level, name: &str) -> io::Result<()> {
        let mut digits = Buffer::new();
        write_value(out, level, name, digits.format(*self))
    }
}

impl InText for i64 {
    ghost use Rattle.protox_text.specs.TextLines.{number_line};

    ghost text = { number_line };

    fn write_to<W: Write>(&self, out: &mut W, level: Level, name: &str) -> io::Result<()> {
        let mut digits = Buffer::new();
        write_value(out, level, name, digits.format(*self))
    }
}

impl InText for u64 {
    ghost use Rattle.protox_text.specs.TextLines.{count_line};

    ghost text = { count_line };

    fn write_to<W: Write>(&self, out: &mut W, level: Level, name: &str) -> io::Result<()> {
        let mut digits = Buffer::new();
        write_value(out, level, name, digits.format(*self))
    }
}
