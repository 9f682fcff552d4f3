//! How a text is mixed to a number.

ghost use Rattle.std.specs.Prelude.{◌≡◌, ◌≤◌, ◌<◌, ◌+◌, ◌-◌, length, drop, slice_index};
ghost use Rattle.protox_name_tree.specs.Slots.{mixed, mixed_on, mixed_text, word};

// Mixes what comes next into a number.
#[inline(always)]
fn mixed(so_far: u64, next: u64) -> u64
    requires so_far { so_far < 4294967296 }
    requires next { next < 4294967296 }
    ensures mixed { result ≡ mixed so_far next }
    ensures small { result < 4294967296 }
{
    (so_far * 2_654_435_769 + next) % 4_294_967_296
}

// Four bytes as one number.
#[inline(always)]
fn word(bytes: &[u8], at: usize) -> u64
    requires { at + 4 ≤ length bytes.now }
    ensures word { result ≡ word (slice_index bytes.now at) (slice_index bytes.now (at + 1))
        (slice_index bytes.now (at + 2)) (slice_index bytes.now (at + 3)) }
    ensures small { result < 4294967296 }
{
    let low = bytes[at] as u64 + bytes[at + 1] as u64 * 256;
    let high = bytes[at + 2] as u64 + bytes[at + 3] as u64 * 256;
    low + high * 65_536
}

// Mixes all bytes but the last up to three. It returns where these begin, too.
fn mixed_words(bytes: &[u8]) -> (u64, usize)
    ensures mixed { mixed_on result.0 (drop result.1 bytes.now) ≡ mixed_on 5381 bytes.now }
    ensures small { result.0 < 4294967296 }
    ensures within { result.1 ≤ length bytes.now }
    ensures few { length bytes.now < result.1 + 4 }
{
    let mut so_far = 5381;
    let mut at = 0;
    'words: while at + 4 <= bytes.len() {
        so_far = mixed(so_far, word(bytes, at));
        at += 4;
    }
    (so_far, at)
}

/// A number below 2 to the 32nd, from all bytes of a text: four at a time, as that is faster.
pub(crate) fn mixed_text(text: &str) -> u64
    ensures { result ≡ mixed_text text.now }
{
    let bytes = text.as_bytes();
    let (mut so_far, at) = mixed_words(bytes);
    for byte in &bytes[at..] {
        so_far = mixed(so_far, *byte as u64);
    }
    so_far
}
