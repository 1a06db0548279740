//! Values of which no more is read than a condition asks for.
ghost use Rattle.std.specs.Prelude.{◌≡◌, true, false, MatchOption};
ghost use Rattle.mmdb_format.specs.Unfolding.{Tree};
ghost use Rattle.mmdb_decode.specs.Reading.{given};
ghost use Rattle.mmdb_value.specs.AnyValue.{value_at};
ghost use Rattle.mmdb_value.specs.Values.{value_tree};
ghost use Rattle.mmdb_query.specs.Outlines.{outline_of, outline_at, outline_tree};

use mmdb_format::error::DecodeResult;
use mmdb_format::kind::Kind;
use mmdb_value::{Decode, Decoder, Value};
use std::alloc::Global;

/// A value, but of a map or an array just which of them it is: it is given as an empty one, and what it holds isn't read.
#[derive(Drop)]
pub(crate) struct Outline<'de> {
    pub(crate) value: Value<'de>,
}

// What is given in place of a map or an array: an empty one.
fn empty_of<'de>(alloc: Global, kind: Option<Kind>) -> Option<Value<'de>>
    ensures { MatchOption result (outline_of kind ≡ value_at true)
        (λ value. outline_of kind ≡ given (value_tree value)) }
{
    match kind {
        Some(Kind::Map) => Some(Value::Map(Vec::new(alloc))),
        Some(Kind::Array) => Some(Value::Array(Vec::new(alloc))),
        _ => None,
    }
}

impl<'de> Decode<'de> for Outline<'de> {
    ghost Datum = { Tree };

    ghost datum = { outline_tree };

    ghost meaning = { outline_at };

    ghost starts = { true };

    ghost free = { false };

    fn decode(alloc: Global, d: &mut Decoder<'de>) -> DecodeResult<Outline<'de>> {
        match empty_of(alloc, d.try_kind()) {
            Some(value) => {
                d.begin_budget();
                Ok(Outline { value })
            }
            None => match Value::decode(alloc, d) {
                Ok(value) => Ok(Outline { value }),
                Err(error) => Err(error),
            },
        }
    }
}
