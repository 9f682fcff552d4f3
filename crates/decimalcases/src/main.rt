//! Reads the bits of floats, a line each, and prints their texts.
//!
//! - `double 3ff0000000000000` asks for the text of a float of 64 bits
//! - `float 3f800000` asks for the one of a float of 32 bits
#![tactic(auto)]

use protox_decimal::{double_text, float_text};
use std::alloc::{AllocError, Global};
use std::io;
use std::num::{f32_from_bits_with_nan, f64_from_bits_with_nan};

fn answer(alloc: Global, line: &str) -> Result<String, AllocError> {
    let (kind, digits) = line.split_once(' ').unwrap_or((line, ""));
    if kind == "float" {
        let bits = u32::from_str_radix(digits, 16).unwrap_or(0);
        return float_text(alloc, f32_from_bits_with_nan(bits));
    }
    let bits = u64::from_str_radix(digits, 16).unwrap_or(0);
    double_text(alloc, f64_from_bits_with_nan(bits))
}

fn main(rt: HostRuntime) -> io::Result<()> {
    let alloc = rt.alloc();
    for line in rt.lines(alloc) {
        let text = answer(alloc, line?.as_str())?;
        println!(rt; "{text}")?;
    }
    Ok(())
}
