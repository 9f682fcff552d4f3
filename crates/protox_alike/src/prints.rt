//! A number for each key. Keys whose numbers differ are told apart without being made.

ghost use Rattle.std.specs.Prelude.{◌≡◌, ◌==◌, true, IsTrue};
ghost use Rattle.std.specs.List.{list_any};
ghost use Rattle.protox_alike.specs.Keys as words;
ghost use Rattle.protox_alike.specs.inner.Prints.{Differ, mix, print_of};
ghost use Rattle.protox_names.specs.Cases.{without_case};

use crate::keys::{spelled, without_prefix};

// The number of a key with one byte more.
#[inline(always)]
fn mix(print: u32, byte: u8) -> u32
    ensures { result ≡ mix print byte }
{
    ((print as u64 * 31 + byte as u64) % 4_294_967_296) as u32
}

/// The number of the key of a field.
pub(crate) fn print_of_field(name: &str) -> u32
    ensures { result ≡ print_of (without_case name.now) }
{
    let mut rest = name.as_bytes();
    let mut print = 0;
    while let [byte, more @ ..] = rest {
        if *byte != b'_' {
            print = mix(print, byte.to_ascii_lowercase());
        }
        rest = more;
    }
    print
}

/// The number of the key of a value.
pub(crate) fn print_of_value(prefix: &[u8], name: &str) -> u32
    ensures { result
        ≡ print_of (words.pascal_from true (words.without_prefix prefix.now name.now)) }
{
    let mut rest = without_prefix(prefix, name.as_bytes());
    let mut print = 0;
    let mut starts = true;
    while let [byte, more @ ..] = rest {
        if *byte != b'_' {
            print = mix(print, spelled(starts, *byte));
        }
        starts = *byte == b'_';
        rest = more;
    }
    print
}

// Whether one of these is the number.
fn has(prints: &[u32], print: u32) -> bool
    ensures { result ≡ list_any (λ earlier. earlier == print) prints.now }
{
    prints.iter().any(|earlier| *earlier == print)
}

/// Whether no two of these are equal. It compares each two of them.
pub(crate) fn differ(prints: &[u32]) -> bool
    ensures { IsTrue result → Differ prints.now }
{
    for (part, print) in prints.iter().enumerate() {
        if has(&prints[..part], *print) {
            return false;
        }
    }
    true
}
