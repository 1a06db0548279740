//! A quick look at short texts: whether they are ASCII, which most names are.
ghost use Rattle.std.specs.Prelude.{◌≡◌, ◌+◌, ◌<◌, ◌≤◌, ℕ, true, length, slice_index};
ghost use Rattle.std.specs.Str.{IsAscii};

/// Whether the four bytes from an offset on are ASCII.
#[inline(always)]
fn are_four_ascii(bytes: &[u8], at: usize) -> bool
    requires { at + 4 ≤ length bytes.now }
    ensures { result ≡ true → (k : ℕ) → at ≤ k → k < at + 4 → slice_index bytes.now k < 128 }
{
    bytes[at].is_ascii()
        & bytes[at + 1].is_ascii()
        & bytes[at + 2].is_ascii()
        & bytes[at + 3].is_ascii()
}

/// Whether the eight bytes from an offset on are ASCII.
#[inline(always)]
pub(crate) fn are_eight_ascii(bytes: &[u8], at: usize) -> bool
    requires { at + 8 ≤ length bytes.now }
    ensures { result ≡ true → (k : ℕ) → at ≤ k → k < at + 8 → slice_index bytes.now k < 128 }
{
    are_four_ascii(bytes, at) & are_four_ascii(bytes, at + 4)
}

/// Whether bytes are at most sixteen and all of them ASCII, without a loop: two looks that may overlap see
/// them all.
#[inline(always)]
pub(crate) fn is_short_ascii(bytes: &[u8]) -> bool
    ensures { result ≡ true → IsAscii bytes.now }
{
    match bytes.len() {
        0 => true,
        1..=3 => {
            bytes[0].is_ascii()
                & bytes[bytes.len() / 2].is_ascii()
                & bytes[bytes.len() - 1].is_ascii()
        }
        4..=7 => are_four_ascii(bytes, 0) & are_four_ascii(bytes, bytes.len() - 4),
        8..=16 => are_eight_ascii(bytes, 0) & are_eight_ascii(bytes, bytes.len() - 8),
        _ => false,
    }
}
