//! Options as they are written in a source: names and values.

ghost use Rattle.std.specs.Prelude.{◌≡◌, Some, flat_map};
ghost use Rattle.std.specs.Fmt.{DisplaysOnOk};
ghost use Rattle.std.specs.Option.{option_map};
ghost use Rattle.protox_descriptor.specs.Printed.{String, written, value_of, later_part_text, negative_text, value_text};

use crate::descriptor::UninterpretedOption;
use crate::descriptor::uninterpreted_option::NamePart;
use crate::literal::write_bytes;
use std::fmt;

/// The value of an option, by its kind. Display writes it as it stands in a source.
#[derive(Clone, Copy)]
pub enum Value<'a> {
    /// An identifier.
    Identifier(&'a str),
    /// An integer without a sign.
    PositiveInt(u64),
    /// An integer with a minus sign, `-0` too.
    NegativeInt(i64),
    /// The text of a float literal, with its sign.
    Double(&'a str),
    /// The bytes of a string.
    String(&'a [u8]),
    /// The tokens between the braces, with a space between each two.
    Aggregate(&'a str),
}

impl UninterpretedOption {
    /// The value of the option, or None if no value is set. A parser sets just one. If more are
    /// set, it is the first in the order of the fields.
    ///
    /// ```
    /// if let Some(Value::Identifier(word)) = option.value() {
    ///     println!(rt; "{word}")?;
    /// }
    /// ```
    pub fn value(&self) -> Option<Value<'_>>
        ensures { option_map written result ≡ value_of self.now }
    {
        if let Some(text) = &self.identifier_value {
            return Some(Value::Identifier(text.as_str()));
        }
        if let Some(number) = self.positive_int_value {
            return Some(Value::PositiveInt(number));
        }
        if let Some(number) = self.negative_int_value {
            return Some(Value::NegativeInt(number));
        }
        if let Some(text) = &self.double_value {
            return Some(Value::Double(text.as_str()));
        }
        if let Some(bytes) = &self.string_value {
            return Some(Value::String(bytes.as_slice()));
        }
        if let Some(text) = &self.aggregate_value {
            return Some(Value::Aggregate(text.as_str()));
        }
        None
    }

    /// The name of the option. Display writes it as it stands in a source: `(a.b).c`.
    pub fn written_name(&self) -> WrittenName<'_>
        ensures { result.0.now ≡ self.now.name }
    {
        WrittenName(self.name.as_slice())
    }
}

/// The name of an option. Display writes it as it stands in a source: the parts, with dots between
/// them.
#[derive(Clone, Copy)]
pub struct WrittenName<'a>(pub &'a [NamePart]);

/// Writes the part as it stands in a source: an extension's name in parentheses.
impl fmt::Display for NamePart {
    ghost use Rattle.std.specs.Prelude.{Some};
    ghost use Rattle.protox_descriptor.specs.Printed.{part_text};

    ghost output = { λ part. Some (part_text part) };

    fn fmt<W: fmt::Write>(&self, f: &mut fmt::Formatter<W>) -> fmt::Result {
        if self.is_extension {
            write!(f, "({})", self.name_part)
        } else {
            write!(f, "{}", self.name_part)
        }
    }
}

fn write_later_parts<W: fmt::Write>(parts: &[NamePart], f: &mut fmt::Formatter<W>) -> fmt::Result
    ensures { DisplaysOnOk W.write_str_gives f.old result (Some (flat_map later_part_text parts.now)) f.new }
{
    for part in parts {
        write!(f, ".{part}")?;
    }
    Ok(())
}

impl fmt::Display for WrittenName<'_> {
    ghost use Rattle.std.specs.Prelude.{Some};
    ghost use Rattle.protox_descriptor.specs.Printed.{name_text};

    ghost output = { λ name. Some (name_text name.0.now) };

    fn fmt<W: fmt::Write>(&self, f: &mut fmt::Formatter<W>) -> fmt::Result {
        match self.0 {
            [first, others @ ..] => {
                write!(f, "{first}")?;
                write_later_parts(others, f)
            }
            [] => Ok(()),
        }
    }
}

fn write_negative<W: fmt::Write>(number: i64, f: &mut fmt::Formatter<W>) -> fmt::Result
    ensures { DisplaysOnOk W.write_str_gives f.old result (Some (negative_text number)) f.new }
{
    if number == 0 {
        f.write_str("-0")
    } else {
        write!(f, "{number}")
    }
}

fn write_string<W: fmt::Write>(bytes: &[u8], f: &mut fmt::Formatter<W>) -> fmt::Result
    ensures { DisplaysOnOk W.write_str_gives f.old result (Some (value_text (String bytes.now))) f.new }
{
    f.write_str("\"")?;
    write_bytes(bytes, f)?;
    f.write_str("\"")
}

impl fmt::Display for Value<'_> {
    ghost use Rattle.std.specs.Prelude.{Some};
    ghost use Rattle.protox_descriptor.specs.Printed.{written, value_text};

    ghost output = { λ value. Some (value_text (written value)) };

    fn fmt<W: fmt::Write>(&self, f: &mut fmt::Formatter<W>) -> fmt::Result {
        match self {
            Value::Identifier(text) => f.write_str(text),
            Value::PositiveInt(number) => write!(f, "{number}"),
            Value::NegativeInt(number) => write_negative(*number, f),
            Value::Double(text) => f.write_str(text),
            Value::String(bytes) => write_string(bytes, f),
            Value::Aggregate(text) => write!(f, "{{ {text} }}"),
        }
    }
}

/// Writes the option as it stands between `option` and `;`, or between brackets: `(a.b).c = 1`.
impl fmt::Display for UninterpretedOption {
    ghost use Rattle.std.specs.Prelude.{Some};
    ghost use Rattle.protox_descriptor.specs.Printed.{option_text};

    ghost output = { λ option. Some (option_text option) };

    fn fmt<W: fmt::Write>(&self, f: &mut fmt::Formatter<W>) -> fmt::Result {
        write!(f, "{}", self.written_name())?;
        match self.value() {
            Some(value) => write!(f, " = {value}"),
            None => Ok(()),
        }
    }
}
