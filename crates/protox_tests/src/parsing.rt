//! The parser and its two halves.

use protox_parse::generate::generate_file;
use protox_parse::syntax::parse_file;
use protox_parse::{parse, source_fits};
use std::alloc::Global;
use std::test::Fail;

const EXAMPLE: &str =
    "\n    syntax = \"proto3\";\n    import \"dep.proto\";\n\n    message Foo {\n        Bar bar = 1;\n    }\n";

// Whether the two halves of the parser, one after the other, give its answer.
fn halves_agree(alloc: Global) -> Result<bool, Fail> {
    if !source_fits(EXAMPLE.len()) {
        return Err(Fail::new("too long"));
    }
    let file = parse_file(alloc, EXAMPLE)?;
    let descriptor = generate_file(alloc, file, "foo.proto", EXAMPLE)?;
    Ok(parse(alloc, "foo.proto", EXAMPLE).is_ok_and(|whole| whole == descriptor))
}

#[test]
fn file_and_descriptor(rt: HostRuntime) -> Result<(), Fail> {
    let found = halves_agree(rt.alloc())?;
    assert!(rt; found);
    Ok(())
}
