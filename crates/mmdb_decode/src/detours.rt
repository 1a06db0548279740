//! What readers of the crates above do beside reading: they read on by a second decoder, which the first may follow, and
//! they leave containers before their end. What that costs no budget counts, so users are not handed this module.
ghost use Rattle.std.specs.Prelude.{◌≡◌};
ghost use Rattle.mmdb_decode.specs.Maps.{with_pairs_left};

use crate::decoder::Decoder;
use crate::items::{Entries, Items};

/// Another decoder at the same offset.
#[inline(always)]
pub fn again<'de>(d: &Decoder<'de>) -> Decoder<'de>
    ensures { result ≡ d.now }
{
    d.again()
}

/// Goes to where another decoder of the section is.
#[inline(always)]
pub fn go_to<'de>(d: &mut Decoder<'de>, there: &Decoder<'de>)
    requires { there.now.section ≡ d.old.section }
    ensures { d.new ≡ there.now }
{
    d.go_to(there);
}

/// Leaves no pair to be read: the decoder is after all of them.
#[inline(always)]
pub fn spend(entries: &mut Entries)
    ensures { entries.new ≡ with_pairs_left 0 entries.old }
{
    entries.remaining = 0;
}

/// Lets go of a map of which nothing more is read.
#[inline(always)]
pub fn forget_map(entries: Entries) {
    let Entries {
        remaining: _,
        after: _,
        levels: _,
    } = entries;
}

/// Lets go of an array of which nothing more is read.
#[inline(always)]
pub fn forget_array(items: Items) {
    let Items {
        remaining: _,
        after: _,
        levels: _,
    } = items;
}
