//! How the nodes of a syntax tree print.

ghost use Rattle.std.specs.Prelude.{Some, flat_map};
ghost use Rattle.std.specs.Fmt.{DisplaysOnOk};
ghost use Rattle.protox_ast.specs.Names.{dotted_part};
ghost use Rattle.protox_ast.specs.Printed.{quoted_byte};
ghost use Rattle.protox_descriptor.specs.Literal.{printed_byte};

use super::{Float, FullIdent, Ident, Int, OptionValue, String, Syntax, TypeName};
use protox_descriptor::literal::{write_bytes, write_octal};
use std::fmt;

impl fmt::Display for Syntax {
    ghost use Rattle.std.specs.Prelude.{Some};
    ghost use Rattle.protox_ast.specs.Printed.{syntax_text};

    ghost output = { λ syntax. Some (syntax_text syntax) };

    fn fmt<W: fmt::Write>(&self, f: &mut fmt::Formatter<W>) -> fmt::Result {
        match self {
            Syntax::Proto2 => f.write_str("proto2"),
            Syntax::Proto3 => f.write_str("proto3"),
        }
    }
}

impl fmt::Display for Ident {
    ghost use Rattle.std.specs.Prelude.{Some};

    ghost output = { λ ident. Some ident.value };

    fn fmt<W: fmt::Write>(&self, f: &mut fmt::Formatter<W>) -> fmt::Result {
        f.write_str(self.value.as_str())
    }
}

fn write_dotted<W: fmt::Write>(parts: &[Ident], f: &mut fmt::Formatter<W>) -> fmt::Result
    ensures { DisplaysOnOk W.write_str_gives f.old result (Some (flat_map dotted_part parts.now)) f.new }
{
    for part in parts {
        write!(f, ".{part}")?;
    }
    Ok(())
}

impl fmt::Display for FullIdent {
    ghost use Rattle.std.specs.Prelude.{Some};
    ghost use Rattle.protox_ast.specs.Names.{name_text};

    ghost output = { λ name. Some (name_text name) };

    fn fmt<W: fmt::Write>(&self, f: &mut fmt::Formatter<W>) -> fmt::Result {
        match self.parts() {
            [first, others @ ..] => {
                write!(f, "{first}")?;
                write_dotted(others, f)
            }
            [] => Ok(()),
        }
    }
}

impl fmt::Display for TypeName {
    ghost use Rattle.std.specs.Prelude.{Some};
    ghost use Rattle.protox_ast.specs.Names.{type_name_text};

    ghost output = { λ name. Some (type_name_text name) };

    fn fmt<W: fmt::Write>(&self, f: &mut fmt::Formatter<W>) -> fmt::Result {
        match &self.leading_dot {
            Some(_) => write!(f, ".{}", self.name),
            None => write!(f, "{}", self.name),
        }
    }
}

impl fmt::Display for Int {
    ghost use Rattle.std.specs.Prelude.{Some};
    ghost use Rattle.protox_ast.specs.Printed.{int_text};

    ghost output = { λ int. Some (int_text int) };

    fn fmt<W: fmt::Write>(&self, f: &mut fmt::Formatter<W>) -> fmt::Result {
        if self.negative {
            write!(f, "-{}", self.value)
        } else {
            write!(f, "{}", self.value)
        }
    }
}

impl fmt::Display for Float {
    ghost use Rattle.std.specs.Prelude.{Some};

    ghost output = { λ float. Some float.value };

    fn fmt<W: fmt::Write>(&self, f: &mut fmt::Formatter<W>) -> fmt::Result {
        f.write_str(self.value.as_str())
    }
}

impl fmt::Display for String {
    ghost use Rattle.std.specs.Prelude.{Some, flat_map};
    ghost use Rattle.protox_descriptor.specs.Literal.{printed_byte};

    ghost output = { λ string. Some (flat_map printed_byte string.value) };

    fn fmt<W: fmt::Write>(&self, f: &mut fmt::Formatter<W>) -> fmt::Result {
        write_bytes(self.value.as_slice(), f)
    }
}

fn write_quoted<W: fmt::Write>(byte: u8, f: &mut fmt::Formatter<W>) -> fmt::Result
    ensures { DisplaysOnOk W.write_str_gives f.old result (Some (flat_map quoted_byte (printed_byte byte))) f.new }
{
    match byte {
        b'\t' => f.write_str("\\\\t"),
        b'\r' => f.write_str("\\\\r"),
        b'\n' => f.write_str("\\\\n"),
        b'\\' => f.write_str("\\\\\\\\"),
        b'\'' => f.write_str("\\\\'"),
        b'"' => f.write_str("\\\\\\\""),
        32..=126 => f.write_char(char::from(byte)),
        _ => {
            f.write_str("\\\\")?;
            write_octal(byte, f)
        }
    }
}

fn write_value<W: fmt::Write>(bytes: &[u8], f: &mut fmt::Formatter<W>) -> fmt::Result
    ensures { DisplaysOnOk W.write_str_gives f.old result (Some (flat_map quoted_byte (flat_map printed_byte bytes.now))) f.new }
{
    for byte in bytes {
        write_quoted(*byte, f)?;
    }
    Ok(())
}

/// Writes `String { value: "V", span: a..b }`, where V is the printed string.
impl fmt::Debug for String {
    ghost use Rattle.std.specs.Prelude.{Some};
    ghost use Rattle.protox_ast.specs.Printed.{debug_text};

    ghost debug_output = { λ string. Some (debug_text string) };

    fn fmt<W: fmt::Write>(&self, f: &mut fmt::Formatter<W>) -> fmt::Result {
        f.write_str("String { value: \"")?;
        write_value(self.value.as_slice(), f)?;
        f.write_str("\", span: ")?;
        write!(f, "{}..{}", self.span.start, self.span.end)?;
        f.write_str(" }")
    }
}

impl fmt::Display for OptionValue {
    ghost use Rattle.std.specs.Prelude.{Some};
    ghost use Rattle.protox_ast.specs.Printed.{value_text};

    ghost output = { λ value. Some (value_text value) };

    fn fmt<W: fmt::Write>(&self, f: &mut fmt::Formatter<W>) -> fmt::Result {
        match self {
            OptionValue::Ident {
                negative: true,
                ident,
                ..
            } => write!(f, "-{ident}"),
            OptionValue::Ident { ident, .. } => write!(f, "{ident}"),
            OptionValue::Int(int) => write!(f, "{int}"),
            OptionValue::Float(float) => write!(f, "{float}"),
            OptionValue::String(string) => write!(f, "{string}"),
            OptionValue::Aggregate(text, _) => f.write_str(text.as_str()),
        }
    }
}
