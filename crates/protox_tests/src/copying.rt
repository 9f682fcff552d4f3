//! Copies of descriptors.
use protox_copy::CopyIn;
use protox_parse::parse;
use std::alloc::{AllocError, Global};
use std::test::Fail;

const SOURCE: &str =
    "// of A\npackage p; import public 'b'; option a.(b) = { c: 1 };\nmessage A { optional int32 b = 1 [json_name = 'x', default = 2]; message C { map<int32, int32> d = 1; oneof e { int32 f = 2; } extensions 4 to 5; reserved 6, 7; } reserved 'g'; }\nenum E { X = 0; reserved -1; }\nservice S { rpc M(A) returns (stream A) { option o = 'p'; } }\nextend A { optional int32 h = 4; }\n";

// Whether the copy of a file is equal to it.
fn copy_is_equal(alloc: Global) -> Result<bool, AllocError> {
    match parse(alloc, "a.proto", SOURCE) {
        Ok(file) => Ok(file.copy(alloc)? == file),
        Err(_) => Ok(false),
    }
}

#[test]
fn copies_are_equal(rt: HostRuntime) -> Result<(), Fail> {
    let found = copy_is_equal(rt.alloc())?;
    assert!(rt; found);
    Ok(())
}
