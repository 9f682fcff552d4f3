//! Slips, as people make them while they write a source.

use crate::draw::Draw;
use crate::files::push_message;
use crate::members::Style;
use crate::names::push_number;
use std::alloc::{AllocError, Global};

/// Declarations with a fault each, of words, lexemes and meaning.
const SLIPS: [&str; 16] = [
    "message Slip {\n  string name = 1\n  int32 count = 2;\n}\n",
    "message Slip {\n  string name = ;\n}\n",
    "message Slip {\n  strng = 3;\n}\n",
    "enum Slip {\n  FIRST = 0,\n  SECOND = 1;\n}\n",
    "service Slip {\n  rpc Get(Request) return (Response);\n}\n",
    "message Slip {\n  string name = 19000;\n}\n",
    "message Slip {\n  string name = 0;\n}\n",
    "option (acme.text) = \"not ended;\n",
    "option (acme.text) = \"a \\z b\";\n",
    "message Slip {\n  string name = 1 [deprecated = ];\n}\n",
    "mesage Slip {}\n",
    "message Slip {\n  map<float, string> names = 1;\n}\n",
    "option (acme.number) = 0x;\n",
    "message Slip {\n  reserved 5 to 2;\n}\n",
    "package again;\npackage again;\n",
    "message Slip {\n  oneof choice {\n    repeated string name = 1;\n  }\n}\n",
];

/// A source with some declarations, of which some have slips, one at least.
pub fn source(
    alloc: Global,
    draw: &mut Draw,
    style: &Style,
    declarations: u32,
) -> Result<String, AllocError> {
    let mut out = String::new(alloc);
    out.push_str("syntax = \"proto3\";\n\nimport \"directory.proto\";\n\n")?;
    for number in 0..declarations {
        if draw.chance(2) {
            out.push_str(draw.pick(&SLIPS))?;
        }
        push_message(&mut out, draw, style, number)?;
    }
    out.push_str(draw.pick(&SLIPS))?;
    out.push_str("// ")?;
    push_number(&mut out, declarations)?;
    Ok(out)
}
