//! How the texts of addresses begin.
ghost use Rattle.std.specs.Prelude.{◌≡◌, ◌<◌, false};
ghost use Rattle.mmdb_addresses.specs.Openings.{HasEarly, MayBegin};
ghost use Rattle.mmdb_addresses.specs.declared.openings.Opening.TheVariants.{Other};

use crate::bytes::{AddressKind, end_of};

// Within how many bytes the first group of IPv6 or the first octet of IPv4 ends, with the colon or the dot after it.
const EARLY: usize = 5;

/// How a text begins.
#[derive(Clone, Copy)]
pub(crate) enum Opening {
    /// As most addresses of IPv6: a colon comes after four hex digits.
    FourDigits,
    /// As another address, or with a double quote.
    Marked,
    /// As no address.
    Other,
}

// Whether one of the first five bytes is this one.
#[inline(always)]
fn has_early(byte: u8, word: &[u8]) -> bool
    requires { 0 < byte }
    ensures { result ≡ false → ¬ HasEarly byte word.now }
{
    let early = word.len().min(EARLY);
    end_of(AddressKind::Not(byte), &word[..early], 0) < early
}

/// How a text begins. Most words that are no address are known by that.
#[inline(always)]
pub(crate) fn opening_of(word: &[u8]) -> Opening
    ensures { result ≡ Other → ¬ MayBegin word.now }
{
    if word.is_empty() {
        return Opening::Other;
    }
    match word[0] {
        b'[' | b'"' => Opening::Marked,
        b'0'..=b':' | b'a'..=b'f' | b'A'..=b'F' if has_early(b':', word) => {
            if word.len() >= EARLY && word[EARLY - 1] == b':' {
                Opening::FourDigits
            } else {
                Opening::Marked
            }
        }
        b'0'..=b'9' if has_early(b'.', word) => Opening::Marked,
        _ => Opening::Other,
    }
}
