//! Metadata as a record that is read field by field.
ghost use Rattle.std.specs.Prelude.{◌≡◌, true, false, Some, IfOk, IfErr, map, option_map, string_bytes};
ghost use Rattle.mmdb_decode.specs.Errors.{Fails};
ghost use Rattle.mmdb_reader.specs.Metadata.{MetadataDatum, metadata_datum};
ghost use Rattle.mmdb_reader.specs.MetadataShape.{MetadataFields as SpecFields, no_metadata_fields, metadata_fields, whole_metadata, metadata_at};

use crate::metadata::Metadata;
use mmdb_decode::decoder::Decoder;
use mmdb_format::error::DecodeResult;
use mmdb_record::decode::Decode;
use mmdb_record::record::{Record, missing_field, named, read_once, read_record};
use std::alloc::Global;
use std::collections::BTreeMap;

// The fields that were met so far.
#[derive(Drop)]
struct MetadataFields {
    binary_format_major_version: Option<u16>,
    binary_format_minor_version: Option<u16>,
    build_epoch: Option<u64>,
    database_type: Option<String>,
    description: Option<BTreeMap<String, String>>,
    ip_version: Option<u16>,
    languages: Option<Vec<String>>,
    node_count: Option<u32>,
    record_size: Option<u16>,
}

// The end of a map that has been read.
#[derive(Clone, Copy)]
struct MapEnd {
    alloc: Global,
    offset: usize,
}

impl MapEnd {
    // The value of a field that has to be there.
    fn required<T: Drop>(&self, name: &str, field: Option<T>) -> DecodeResult<T>
        ensures ok { IfOk result (λ v. field ≡ Some v) }
        ensures err { IfErr result (λ e. Fails false e field) }
    {
        match field {
            Some(value) => Ok(value),
            None => Err(missing_field(self.alloc, name, self.offset)),
        }
    }
}

impl<'de> Record<'de> for MetadataFields {
    type Whole = Metadata;

    ghost Datum = { SpecFields };

    ghost datum = { λ v. record {
      binary_format_major_version = v.binary_format_major_version;
      binary_format_minor_version = v.binary_format_minor_version;
      build_epoch = v.build_epoch;
      database_type = option_map string_bytes v.database_type;
      description = option_map (λ m. map (λ e. (string_bytes e.0, string_bytes e.1)) m.entries) v.description;
      ip_version = v.ip_version;
      languages = option_map (λ x. map string_bytes x.items) v.languages;
      node_count = v.node_count;
      record_size = v.record_size;
    } };

    ghost none = { no_metadata_fields };

    ghost fields = { metadata_fields };

    ghost WholeDatum = { MetadataDatum };

    ghost whole_datum = { metadata_datum };

    ghost whole = { whole_metadata };

    ghost free = { false };

    fn empty(_alloc: Global) -> MetadataFields {
        MetadataFields {
            binary_format_major_version: None,
            binary_format_minor_version: None,
            build_epoch: None,
            database_type: None,
            description: None,
            ip_version: None,
            languages: None,
            node_count: None,
            record_size: None,
        }
    }

    #[tactic(auto, unfolding(crate::specs::MetadataShape::metadata_fields, mmdb_decode::specs::State::decoded, mmdb_decode::specs::Names::named, mmdb_record::specs::Records::field, mmdb_record::specs::Records::skipped))]
    fn read_field(
        &mut self,
        alloc: Global,
        name: &'de [u8],
        d: &mut Decoder<'de>,
    ) -> DecodeResult<()> {
        if named(name, "binary_format_major_version") {
            read_once(
                alloc,
                d,
                "binary_format_major_version",
                &mut self.binary_format_major_version,
            )
        } else if named(name, "binary_format_minor_version") {
            read_once(
                alloc,
                d,
                "binary_format_minor_version",
                &mut self.binary_format_minor_version,
            )
        } else if named(name, "build_epoch") {
            read_once(alloc, d, "build_epoch", &mut self.build_epoch)
        } else if named(name, "database_type") {
            read_once(alloc, d, "database_type", &mut self.database_type)
        } else if named(name, "description") {
            read_once(alloc, d, "description", &mut self.description)
        } else if named(name, "ip_version") {
            read_once(alloc, d, "ip_version", &mut self.ip_version)
        } else if named(name, "languages") {
            read_once(alloc, d, "languages", &mut self.languages)
        } else if named(name, "node_count") {
            read_once(alloc, d, "node_count", &mut self.node_count)
        } else if named(name, "record_size") {
            read_once(alloc, d, "record_size", &mut self.record_size)
        } else {
            d.skip_value(alloc)
        }
    }

    #[tactic(auto, unfolding(crate::specs::MetadataShape::whole_metadata))]
    fn finish(self, alloc: Global, offset: usize) -> DecodeResult<Metadata> {
        let end = MapEnd { alloc, offset };
        Ok(Metadata {
            binary_format_major_version: end.required(
                "binary_format_major_version",
                self.binary_format_major_version,
            )?,
            binary_format_minor_version: end.required(
                "binary_format_minor_version",
                self.binary_format_minor_version,
            )?,
            build_epoch: end.required("build_epoch", self.build_epoch)?,
            database_type: end.required("database_type", self.database_type)?,
            description: end.required("description", self.description)?,
            ip_version: end.required("ip_version", self.ip_version)?,
            languages: end.required("languages", self.languages)?,
            node_count: end.required("node_count", self.node_count)?,
            record_size: end.required("record_size", self.record_size)?,
        })
    }
}

impl<'de> Decode<'de> for Metadata {
    ghost Datum = { MetadataDatum };

    ghost datum = { metadata_datum };

    ghost meaning = { metadata_at };

    ghost starts = { true };

    ghost free = { false };

    fn decode(alloc: Global, d: &mut Decoder<'de>) -> DecodeResult<Metadata> {
        read_record::<MetadataFields>(alloc, d)
    }
}
