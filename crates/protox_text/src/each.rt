//! Parts that have a text, and lists of like ones.

ghost use Rattle.std.specs.Prelude.{◌≡◌, OnOk};
ghost use Rattle.std.specs.Io.KnownBytes.{Appends};
ghost use Rattle.std.specs.Option.{option_copied};
ghost use Rattle.protox_text.specs.TextLines.{At, if_any, each};

use crate::lines::Level;
use protox_descriptor::values::Items;
use std::io::{self, Write};

/// What has a text.
pub(crate) trait InText {
    /// Its text at a level, under a name.
    ghost text: { Self → At };

    /// Writes its text.
    fn write_to<W: Write>(&self, out: &mut W, level: Level, name: &str) -> io::Result<()>
        ensures { OnOk result (Appends (W.contents out.old) (W.contents out.new) (text self.now level.depth name.now)) };
}

/// Writes what is there, or nothing for None.
pub(crate) fn write_any<W: Write, T: InText>(
    out: &mut W,
    level: Level,
    name: &str,
    part: &Option<T>,
) -> io::Result<()>
    ensures { OnOk result (Appends (W.contents out.old) (W.contents out.new) (if_any T.text part.now level.depth name.now)) }
{
    match part {
        Some(part) => part.write_to(out, level, name),
        None => Ok(()),
    }
}

/// Writes what is lent, or nothing for None.
pub(crate) fn write_lent<W: Write, T: InText>(
    out: &mut W,
    level: Level,
    name: &str,
    part: Option<&T>,
) -> io::Result<()>
    ensures { OnOk result (Appends (W.contents out.old) (W.contents out.new) (if_any T.text (option_copied part.entry) level.depth name.now)) }
{
    match part {
        Some(part) => part.write_to(out, level, name),
        None => Ok(()),
    }
}

/// Writes each of the items.
pub(crate) fn write_items<W: Write, T: InText>(
    out: &mut W,
    level: Level,
    name: &str,
    parts: &Items<T>,
) -> io::Result<()>
    ensures { OnOk result (Appends (W.contents out.old) (W.contents out.new) (each T.text parts.now level.depth name.now)) }
{
    write_each(out, level, name, parts.as_slice())
}

/// Writes each of like parts.
#[tactic(auto, using(crate::proofs::Written::parts))]
pub(crate) fn write_each<W: Write, T: InText>(
    out: &mut W,
    level: Level,
    name: &str,
    parts: &[T],
) -> io::Result<()>
    ensures { OnOk result (Appends (W.contents out.old) (W.contents out.new) (each T.text parts.now level.depth name.now)) }
{
    for part in parts {
        part.write_to(out, level, name)?;
    }
    Ok(())
}
