//! A type of one's own, as the documentation of `Decode` shows it.
ghost use Rattle.std.specs.Prelude.{ℕ, true, false};
ghost use Rattle.mmdb_decode.specs.Scalars.{u32_at};

use mmdb_decode::decoder::Decoder;
use mmdb_format::error::DecodeResult;
use mmdb_record::decode::Decode;
use std::alloc::Global;

/// The number of an autonomous system.
#[derive(Debug, Drop, PartialEq, Eq)]
pub struct SystemNumber(pub u32);

impl<'de> Decode<'de> for SystemNumber {
    ghost Datum = { ℕ };

    ghost datum = { λ v. v.0 };

    ghost meaning = { u32_at };

    ghost starts = { false };

    ghost free = { true };

    fn decode(alloc: Global, d: &mut Decoder<'de>) -> DecodeResult<SystemNumber> {
        Ok(SystemNumber(u32::decode(alloc, d)?))
    }
}
