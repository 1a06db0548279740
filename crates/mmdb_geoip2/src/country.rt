//! The parts of a country's record.
#![tactic(auto, unfolding(mmdb_record::specs::Tables::fields_of, mmdb_record::specs::Tables::part_field, mmdb_decode::specs::State::decoded, mmdb_decode::specs::Names::named, mmdb_record::specs::Records::field, mmdb_record::specs::Records::skipped, crate::specs::NamesTable::names_table, crate::specs::CountryTables::continent_table, crate::specs::CountryTables::country_table, crate::specs::CountryTables::represented_table, crate::specs::CountryTables::country_traits_table))]

ghost use Rattle.std.specs.Prelude.{◌≡◌};
ghost use Rattle.mmdb_record.specs.Tables.{absent};
ghost use Rattle.mmdb_geoip2.specs.CountryTables.{continent_table, country_table, represented_table, country_traits_table};

use crate::fields::fields_by_name;
use crate::names::Names;
use mmdb_decode::decoder::Decoder;
use mmdb_decode::failed::Failed;
use mmdb_record::fields::{Fields, FieldsSeen, read_part};
use mmdb_record::record::named;
use mmdb_record::try_decode::try_once;
use std::alloc::Global;

/// A continent.
#[derive(Clone, Copy, Debug, Default, PartialEq)]
pub struct Continent<'a> {
    /// The code of two letters, like "EU".
    pub code: Option<&'a str>,
    /// The number of the place in GeoNames.
    pub geoname_id: Option<u32>,
    /// Its names, by language.
    pub names: Names<'a>,
}

impl<'de> Fields<'de> for Continent<'de> {
    ghost table = { continent_table };

    fn empty(_alloc: Global) -> Continent<'de> {
        Continent::default()
    }

    #[inline(always)]
    fn read_field(
        &mut self,
        met: &mut FieldsSeen<'de>,
        alloc: Global,
        name: &'de [u8],
        d: &mut Decoder<'de>,
    ) -> Result<(), Failed> {
        fields_by_name!(alloc, name, d;
            "code" => try_once(&mut self.code),
            "geoname_id" => try_once(&mut self.geoname_id),
            "names" => read_part(&mut met.0, &mut self.names),
            _ => try_skip(),
        )
    }
}

impl Continent<'_> {
    /// Whether every field is absent.
    pub fn is_empty(&self) -> bool
        ensures { result ≡ absent continent_table self.now }
    {
        self.code.is_none() && self.geoname_id.is_none() && self.names.is_empty()
    }
}

/// A country.
#[derive(Clone, Copy, Debug, Default, PartialEq)]
pub struct Country<'a> {
    /// The number of the place in GeoNames.
    pub geoname_id: Option<u32>,
    /// Whether the country is a member of the European Union.
    pub is_in_european_union: Option<bool>,
    /// The code of two letters by ISO 3166-1.
    pub iso_code: Option<&'a str>,
    /// Its names, by language.
    pub names: Names<'a>,
}

impl<'de> Fields<'de> for Country<'de> {
    ghost table = { country_table };

    fn empty(_alloc: Global) -> Country<'de> {
        Country::default()
    }

    #[inline(always)]
    fn read_field(
        &mut self,
        met: &mut FieldsSeen<'de>,
        alloc: Global,
        name: &'de [u8],
        d: &mut Decoder<'de>,
    ) -> Result<(), Failed> {
        fields_by_name!(alloc, name, d;
            "geoname_id" => try_once(&mut self.geoname_id),
            "is_in_european_union" => try_once(&mut self.is_in_european_union),
            "iso_code" => try_once(&mut self.iso_code),
            "names" => read_part(&mut met.0, &mut self.names),
            _ => try_skip(),
        )
    }
}

impl Country<'_> {
    /// Whether every field is absent.
    pub fn is_empty(&self) -> bool
        ensures { result ≡ absent country_table self.now }
    {
        self.geoname_id.is_none()
            && self.is_in_european_union.is_none()
            && self.iso_code.is_none()
            && self.names.is_empty()
    }
}

/// A country that is represented, as by an embassy or a military base.
#[derive(Clone, Copy, Debug, Default, PartialEq)]
pub struct RepresentedCountry<'a> {
    /// The number of the place in GeoNames.
    pub geoname_id: Option<u32>,
    /// Whether the country is a member of the European Union.
    pub is_in_european_union: Option<bool>,
    /// The code of two letters by ISO 3166-1.
    pub iso_code: Option<&'a str>,
    /// Its names, by language.
    pub names: Names<'a>,
    /// What represents the country, like "military". Its name in the file is `type`.
    pub representation_type: Option<&'a str>,
}

impl<'de> Fields<'de> for RepresentedCountry<'de> {
    ghost table = { represented_table };

    fn empty(_alloc: Global) -> RepresentedCountry<'de> {
        RepresentedCountry::default()
    }

    #[inline(always)]
    fn read_field(
        &mut self,
        met: &mut FieldsSeen<'de>,
        alloc: Global,
        name: &'de [u8],
        d: &mut Decoder<'de>,
    ) -> Result<(), Failed> {
        fields_by_name!(alloc, name, d;
            "geoname_id" => try_once(&mut self.geoname_id),
            "is_in_european_union" => try_once(&mut self.is_in_european_union),
            "iso_code" => try_once(&mut self.iso_code),
            "names" => read_part(&mut met.0, &mut self.names),
            "type" => try_once(&mut self.representation_type),
            _ => try_skip(),
        )
    }
}

impl RepresentedCountry<'_> {
    /// Whether every field is absent.
    pub fn is_empty(&self) -> bool
        ensures { result ≡ absent represented_table self.now }
    {
        self.geoname_id.is_none()
            && self.is_in_european_union.is_none()
            && self.iso_code.is_none()
            && self.names.is_empty()
            && self.representation_type.is_none()
    }
}

/// Traits of an address.
#[derive(Clone, Copy, Debug, Default, PartialEq)]
pub struct Traits {
    /// Whether the network is an anycast one, reached at several places.
    pub is_anycast: Option<bool>,
}

impl<'de> Fields<'de> for Traits {
    ghost table = { country_traits_table };

    fn empty(_alloc: Global) -> Traits {
        Traits::default()
    }

    #[inline(always)]
    fn read_field(
        &mut self,
        _met: &mut FieldsSeen<'de>,
        alloc: Global,
        name: &'de [u8],
        d: &mut Decoder<'de>,
    ) -> Result<(), Failed> {
        fields_by_name!(alloc, name, d;
            "is_anycast" => try_once(&mut self.is_anycast),
            _ => try_skip_scalar(),
        )
    }
}

impl Traits {
    /// Whether every field is absent.
    pub fn is_empty(&self) -> bool
        ensures { result ≡ absent country_traits_table self.now }
    {
        self.is_anycast.is_none()
    }
}
