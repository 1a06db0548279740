//! Decoding from the beginning of a section.

ghost use Rattle.std.specs.Prelude.{◌≡◌, ℕ, List, Option, Some, None, Bool, true, false, IfOk, IfErr, option_map};
ghost use Rattle.mmdb_decode.specs.State.{State, begin};
ghost use Rattle.mmdb_decode.specs.Errors.{Fails, answer};

use crate::decode::Decode;
use mmdb_decode::decoder::Decoder;
use mmdb_format::error::DecodeResult;
use std::alloc::Global;

/// The value of a type at offset 0 of a section.
///
/// It succeeds, unless out of memory, exactly where the type's meaning gives a value there, below no level and
/// within the limits. Of a type whose meaning is not exact its own relation is known, and of Ok alone.
pub fn decode<'de, T: Decode<'de>>(alloc: Global, section: &'de [u8]) -> DecodeResult<T>
    ensures ok { IfOk result (λ v. T.exact ≡ true
        → answer T.starts T.meaning section.now 0 ≡ Some (T.datum v)) }
    ensures err { IfErr result (λ e. T.exact ≡ true
        → Fails T.free e (answer T.starts T.meaning section.now 0)) }
    ensures also { IfOk result (λ v. (after : State) × T.also (begin section.now 0) v after) }
{
    let mut d = Decoder::new(section, 0);
    T::decode(alloc, &mut d)
}
