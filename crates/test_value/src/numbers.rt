//! A list read by hand, over the public calls of a decoder.
ghost use Rattle.std.specs.Prelude.{ℕ, List, map, true, false};
ghost use Rattle.mmdb_decode.specs.Arrays.{list_at};
ghost use Rattle.mmdb_decode.specs.Scalars.{u16_at};

use mmdb_decode::decoder::Decoder;
use mmdb_format::error::DecodeResult;
use mmdb_record::decode::{Decode, read_items};
use std::alloc::Global;

/// Numbers, as an array has them.
#[derive(Debug, Drop, PartialEq, Eq)]
pub struct Numbers(pub Vec<u16>);

impl<'de> Decode<'de> for Numbers {
    ghost Datum = { List ℕ };

    ghost datum = { λ v. map (λ n. n) v.0.items };

    ghost meaning = { list_at u16_at };

    ghost starts = { true };

    ghost free = { false };

    fn decode(alloc: Global, d: &mut Decoder<'de>) -> DecodeResult<Numbers> {
        let mut items = d.begin_array(alloc)?;
        match read_items::<u16>(alloc, d, &mut items) {
            Ok(numbers) => {
                d.end_array(items);
                Ok(Numbers(numbers))
            }
            Err(error) => {
                items.give_up(d);
                Err(error)
            }
        }
    }
}
