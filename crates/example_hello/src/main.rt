#![tactic(auto)]

use protox_parse::find::comments;
use protox_parse::{ParseFailure, parse};
use std::io;

fn main(rt: HostRuntime) -> io::Result<()> {
    let source = "// Says hello.\nmessage Hello {\n  optional int32 a = 1;\n}\n";
    match parse(rt.alloc(), "hello.proto", source) {
        Ok(file) => {
            if let Some(info) = &file.source_code_info {
                if let Some(text) = comments(info, &[4, 0]).leading {
                    println!(rt; "its comment:{text}")?;
                }
            }
        }
        Err(ParseFailure::Refused(error)) => println!(rt; "{error:?}")?,
        Err(ParseFailure::OutOfMemory) => println!(rt; "out of memory")?,
    }
    Ok(())
}
