//! A record of one field, read by the loop that all records share.
ghost use Rattle.std.specs.Prelude.{Some, true};
ghost use Rattle.test_value.specs.Lone.{Lone as SpecLone, no_lone, lone_fields, lone_at};

use mmdb_decode::decoder::Decoder;
use mmdb_format::error::DecodeResult;
use mmdb_record::decode::Decode;
use mmdb_record::record::{Record, named, read_once, read_record};
use std::alloc::Global;

/// A number, which may be missing.
#[derive(Debug, Drop, PartialEq, Eq)]
pub struct Lone {
    pub a: Option<u16>,
}

impl<'de> Record<'de> for Lone {
    type Whole = Lone;

    ghost Datum = { SpecLone };

    ghost datum = { λ v. record { a = v.a } };

    ghost none = { no_lone };

    ghost fields = { lone_fields };

    ghost WholeDatum = { SpecLone };

    ghost whole_datum = { λ v. record { a = v.a } };

    ghost whole = { Some };

    ghost free = { true };

    fn empty(_alloc: Global) -> Lone {
        Lone { a: None }
    }

    #[tactic(auto, unfolding(crate::specs::Lone::lone_fields, mmdb_decode::specs::State::decoded, mmdb_decode::specs::Names::named, mmdb_record::specs::Records::field, mmdb_record::specs::Records::skipped))]
    fn read_field(
        &mut self,
        alloc: Global,
        name: &'de [u8],
        d: &mut Decoder<'de>,
    ) -> DecodeResult<()> {
        if named(name, "a") {
            read_once(alloc, d, "a", &mut self.a)
        } else {
            d.skip_value(alloc)
        }
    }

    fn finish(self, _alloc: Global, _offset: usize) -> DecodeResult<Lone> {
        Ok(self)
    }
}

impl<'de> Decode<'de> for Lone {
    ghost Datum = { SpecLone };

    ghost datum = { λ v. record { a = v.a } };

    ghost meaning = { lone_at };

    ghost starts = { true };

    ghost free = { true };

    fn decode(alloc: Global, d: &mut Decoder<'de>) -> DecodeResult<Lone> {
        read_record::<Lone>(alloc, d)
    }
}
