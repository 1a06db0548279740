//! Maps with keys of text.
ghost use Rattle.std.specs.Prelude.{◌≡◌, ℕ, List, [], Option, Some, None, Bool, true, false, IfOk, IfErr, OnOk, OnErr, IsSome, map};
ghost use Rattle.std.specs.String.{string_bytes};
ghost use Rattle.mmdb_decode.specs.Maps.{pairs_from, pair_of, key_at, text_map_at, pairs_left, with_pairs_left};
ghost use Rattle.mmdb_decode.specs.State.{GivenUp};
ghost use Rattle.mmdb_decode.specs.Errors.{IsRead, FailsToRead, Kept};

use crate::decode::Decode;
use mmdb_decode::decoder::Decoder;
use mmdb_decode::items::Entries;
use mmdb_format::error::{DecodeResult, MaxMindDbError};
use std::alloc::Global;
use std::collections::BTreeMap;

// The pairs that are left of a map.
fn read_pairs<'de, T: Decode<'de>>(
    alloc: Global,
    d: &mut Decoder<'de>,
    entries: &mut Entries,
) -> DecodeResult<BTreeMap<String, T>>
    requires { IsSome d.old.budget }
    ensures ok { IfOk result (λ m. T.exact ≡ true
        → IsRead false (pairs_from key_at (pair_of T.meaning) [] (pairs_left entries.old))
        d.old (map (λ e. (string_bytes e.0, T.datum e.1)) m.entries) d.new) }
    ensures rest { entries.new ≡ with_pairs_left (pairs_left entries.new) entries.old }
    ensures spent { OnOk result (pairs_left entries.new ≡ 0) }
    ensures kept { OnOk result (Kept d.old d.new) }
    ensures err { IfErr result (λ e. T.exact ≡ true
        → FailsToRead false e false
        (pairs_from key_at (pair_of T.meaning) [] (pairs_left entries.old)) d.old) }
    ensures given_up { OnErr result (GivenUp d.old d.new) }
{
    let mut pairs = BTreeMap::new(alloc);
    while let Some(key) = d.next_key(alloc, entries)? {
        let value = T::decode(alloc, d)?;
        pairs.insert(String::from_str(alloc, key)?, value)?;
    }
    Ok(pairs)
}

impl<'de, T: Decode<'de>> Decode<'de> for BTreeMap<String, T> {
    ghost Datum = { List (List ℕ × T.Datum) };

    ghost datum = { λ m. map (λ e. (string_bytes e.0, T.datum e.1)) m.entries };

    ghost meaning = { text_map_at T.meaning };

    ghost starts = { true };

    ghost free = { false };

    ghost exact = { T.exact };

    fn decode(alloc: Global, d: &mut Decoder<'de>) -> DecodeResult<BTreeMap<String, T>> {
        let mut entries = d.begin_map(alloc)?;
        match read_pairs(alloc, d, &mut entries) {
            Ok(pairs) => {
                d.end_map(entries);
                Ok(pairs)
            }
            Err(e) => {
                entries.give_up(d);
                Err(e)
            }
        }
    }
}
