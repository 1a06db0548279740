//! A record read by hand, from outside the crates that read: over the public calls of a decoder alone.
ghost use Rattle.std.specs.Prelude.{◌≡◌, Some, true, false, IfOk, IfErr, OnOk, OnErr, IsSome};
ghost use Rattle.mmdb_decode.specs.Maps.{pairs_from, name_at, pairs_left, with_pairs_left};
ghost use Rattle.mmdb_decode.specs.State.{decoded, GivenUp};
ghost use Rattle.mmdb_decode.specs.Errors.{Fails, IsRead, FailsToRead, Kept, answer};
ghost use Rattle.mmdb_record.specs.Records.{FieldRead};
ghost use Rattle.test_value.specs.Probe.{Probe as SpecProbe, no_probe, fields_of, probe_fields, probe_at};

use mmdb_decode::decoder::Decoder;
use mmdb_decode::items::Entries;
use mmdb_format::error::DecodeResult;
use mmdb_record::decode::Decode;
use mmdb_record::first_value;
use mmdb_record::record::{named, read_once};
use std::alloc::Global;

/// A number and a text, either of which may be missing.
#[derive(Debug, Drop, PartialEq, Eq)]
pub struct Probe<'de> {
    pub a: Option<u16>,
    pub k: Option<&'de str>,
}

impl<'de> Probe<'de> {
    // Reads or skips the value after a name.
    #[tactic(auto, unfolding(crate::specs::Probe::probe_fields, mmdb_decode::specs::State::decoded, mmdb_decode::specs::Names::named, mmdb_record::specs::Records::field, mmdb_record::specs::Records::skipped))]
    fn read_field(
        &mut self,
        alloc: Global,
        name: &'de [u8],
        d: &mut Decoder<'de>,
    ) -> DecodeResult<()>
        requires { IsSome d.old.budget }
        ensures { FieldRead true (decoded false (probe_fields (fields_of self.old) name.now) d.old)
            (fields_of self.new) d.old d.new result }
    {
        if named(name, "a") {
            read_once(alloc, d, "a", &mut self.a)
        } else if named(name, "k") {
            read_once(alloc, d, "k", &mut self.k)
        } else {
            d.skip_value(alloc)
        }
    }

    // The fields that are left of a map.
    fn read_fields(
        alloc: Global,
        d: &mut Decoder<'de>,
        entries: &mut Entries,
    ) -> DecodeResult<Probe<'de>>
        requires { IsSome d.old.budget }
        ensures ok { IfOk result (λ v. IsRead false
            (pairs_from name_at probe_fields no_probe (pairs_left entries.old))
            d.old (fields_of v) d.new) }
        ensures rest { entries.new ≡ with_pairs_left (pairs_left entries.new) entries.old }
        ensures spent { OnOk result (pairs_left entries.new ≡ 0) }
        ensures kept { OnOk result (Kept d.old d.new) }
        ensures err { IfErr result (λ e. FailsToRead true e false
            (pairs_from name_at probe_fields no_probe (pairs_left entries.old)) d.old) }
        ensures given_up { OnErr result (GivenUp d.old d.new) }
    {
        let mut probe = Probe { a: None, k: None };
        while let Some(name) = d.next_field(alloc, entries)? {
            probe.read_field(alloc, name, d)?;
        }
        Ok(probe)
    }
}

impl<'de> Decode<'de> for Probe<'de> {
    ghost Datum = { SpecProbe };

    ghost datum = { fields_of };

    ghost meaning = { probe_at };

    ghost starts = { true };

    ghost free = { true };

    fn decode(alloc: Global, d: &mut Decoder<'de>) -> DecodeResult<Probe<'de>> {
        let mut entries = d.begin_map(alloc)?;
        match Probe::read_fields(alloc, d, &mut entries) {
            Ok(probe) => {
                d.end_map(entries);
                Ok(probe)
            }
            Err(error) => {
                entries.give_up(d);
                Err(error)
            }
        }
    }
}

/// The probe at the beginning of a section.
pub fn read_probe<'de>(alloc: Global, section: &'de [u8]) -> DecodeResult<Probe<'de>>
    ensures ok { IfOk result (λ v. answer true probe_at section.now 0
        ≡ Some (fields_of v)) }
    ensures err { IfErr result (λ e. Fails true e (answer true probe_at section.now 0)) }
{
    first_value::decode::<Probe<'de>>(alloc, section)
}
