//! Whether bytes are UTF-8, with a quick look at those whose characters have at most three bytes, as most names do.
ghost use Rattle.std.specs.Prelude.{◌≡◌, ◌+◌, ◌<◌, ◌≤◌, true, length, take, drop, slice_index, IfSome};
ghost use Rattle.std.specs.Str.{IsUtf8, is_utf8 as spec_is_utf8};

use crate::ascii::{are_eight_ascii, is_short_ascii};

/// Whether a byte goes on with a character.
#[inline(always)]
fn goes_on(byte: u8) -> bool
    ensures { result ≡ true → (128 ≤ byte) × (byte < 192) }
{
    0x80 <= byte && byte < 0xc0
}

/// The length of eight characters of ASCII at an offset, or of one character: below U+0800, or from U+1000 to U+CFFF,
/// so that its first byte alone leaves out surrogates and encodings that are too long.
#[inline(always)]
fn short_chars_len(bytes: &[u8], at: usize) -> Option<usize>
    requires { at < length bytes.now }
    ensures some { IfSome result (λ n. (0 < n) × (at + n ≤ length bytes.now)) }
    ensures text { IfSome result (λ n. IsUtf8 (take n (drop at bytes.now))) }
{
    let first = bytes[at];
    let left = bytes.len() - at;
    if first < 0x80 {
        if left >= 8 && are_eight_ascii(bytes, at) {
            return Some(8);
        }
        return Some(1);
    }
    if 0xc2 <= first && first < 0xe0 && left >= 2 && goes_on(bytes[at + 1]) {
        return Some(2);
    }
    if 0xe1 <= first
        && first < 0xed
        && left >= 3
        && goes_on(bytes[at + 1])
        && goes_on(bytes[at + 2])
    {
        return Some(3);
    }
    None
}

/// Whether bytes are such characters, one after the other. Of other characters it knows nothing.
#[inline(never)]
fn is_short_chars(bytes: &[u8]) -> bool
    ensures { result ≡ true → IsUtf8 bytes.now }
{
    let mut at = 0;
    while at < bytes.len() {
        match short_chars_len(bytes, at) {
            Some(len) => at += len,
            None => return false,
        }
    }
    true
}

// Whether bytes are UTF-8, by std's test. Its answer takes memory, which is in here and so in no loop of a caller.
#[inline(never)]
fn is_utf8_to_std(bytes: &[u8]) -> bool
    ensures { result ≡ spec_is_utf8 bytes.now }
{
    match std::str::from_utf8(bytes) {
        Ok(_) => true,
        Err(_) => false,
    }
}

/// Whether bytes are UTF-8. Few that are ASCII are recognised without a loop, and most names before std is asked.
#[tactic(auto, using(crate::proofs::Texts::ascii_is, crate::proofs::Texts::utf8_is))]
#[inline(always)]
pub fn is_utf8(bytes: &[u8]) -> bool
    ensures { result ≡ spec_is_utf8 bytes.now }
{
    is_short_ascii(bytes) || is_short_chars(bytes) || is_utf8_to_std(bytes)
}
