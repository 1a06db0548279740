//! The parts of a city's record.
#![tactic(auto, unfolding(mmdb_record::specs::Tables::fields_of, mmdb_record::specs::Tables::part_field, mmdb_decode::specs::State::decoded, mmdb_decode::specs::Names::named, mmdb_record::specs::Records::field, mmdb_record::specs::Records::skipped, crate::specs::NamesTable::names_table, crate::specs::CityTables::city_table, crate::specs::CityTables::location_table, crate::specs::CityTables::postal_table, crate::specs::CityTables::subdivision_table))]

ghost use Rattle.std.specs.Prelude.{◌≡◌};
ghost use Rattle.mmdb_record.specs.Tables.{absent};
ghost use Rattle.mmdb_geoip2.specs.CityTables.{city_table, location_table, postal_table, subdivision_table};

use crate::fields::fields_by_name;
use crate::names::Names;
use mmdb_decode::decoder::Decoder;
use mmdb_decode::failed::Failed;
use mmdb_format::content::Double;
use mmdb_record::fields::{Fields, FieldsSeen, read_part};
use mmdb_record::record::named;
use mmdb_record::try_decode::try_once;
use std::alloc::Global;

/// A city.
#[derive(Clone, Copy, Debug, Default, PartialEq)]
pub struct City<'a> {
    /// The number of the place in GeoNames.
    pub geoname_id: Option<u32>,
    /// Its names, by language.
    pub names: Names<'a>,
}

impl<'de> Fields<'de> for City<'de> {
    ghost table = { city_table };

    fn empty(_alloc: Global) -> City<'de> {
        City::default()
    }

    #[inline(always)]
    fn read_field(
        &mut self,
        met: &mut FieldsSeen<'de>,
        alloc: Global,
        name: &'de [u8],
        d: &mut Decoder<'de>,
    ) -> Result<(), Failed> {
        fields_by_name!(alloc, name, d;
            "geoname_id" => try_once(&mut self.geoname_id),
            "names" => read_part(&mut met.0, &mut self.names),
            _ => try_skip(),
        )
    }
}

impl City<'_> {
    /// Whether every field is absent.
    pub fn is_empty(&self) -> bool
        ensures { result ≡ absent city_table self.now }
    {
        self.geoname_id.is_none() && self.names.is_empty()
    }
}

/// Where an address is.
#[derive(Clone, Copy, Debug, Default, PartialEq)]
pub struct Location<'a> {
    /// The radius around the place, in kilometres, within which the address is likely to be.
    pub accuracy_radius: Option<u16>,
    /// The latitude, in degrees, as the bits of a number of double precision.
    pub latitude: Option<Double>,
    /// The longitude, in degrees, as the bits of a number of double precision.
    pub longitude: Option<Double>,
    /// The metro code, for advertisements (no longer kept up by the makers of the databases).
    pub metro_code: Option<u16>,
    /// The time zone, as the IANA Time Zone Database names it, like "America/New_York".
    pub time_zone: Option<&'a str>,
}

impl<'de> Fields<'de> for Location<'de> {
    ghost table = { location_table };

    fn empty(_alloc: Global) -> Location<'de> {
        Location::default()
    }

    #[inline(always)]
    fn read_field(
        &mut self,
        _met: &mut FieldsSeen<'de>,
        alloc: Global,
        name: &'de [u8],
        d: &mut Decoder<'de>,
    ) -> Result<(), Failed> {
        fields_by_name!(alloc, name, d;
            "accuracy_radius" => try_once(&mut self.accuracy_radius),
            "latitude" => try_once(&mut self.latitude),
            "longitude" => try_once(&mut self.longitude),
            "metro_code" => try_once(&mut self.metro_code),
            "time_zone" => try_once(&mut self.time_zone),
            _ => try_skip_scalar(),
        )
    }
}

impl Location<'_> {
    /// Whether every field is absent.
    pub fn is_empty(&self) -> bool
        ensures { result ≡ absent location_table self.now }
    {
        self.accuracy_radius.is_none()
            && self.latitude.is_none()
            && self.longitude.is_none()
            && self.metro_code.is_none()
            && self.time_zone.is_none()
    }
}

/// A postal code.
#[derive(Clone, Copy, Debug, Default, PartialEq)]
pub struct Postal<'a> {
    /// The postal code, or its beginning.
    pub code: Option<&'a str>,
}

impl<'de> Fields<'de> for Postal<'de> {
    ghost table = { postal_table };

    fn empty(_alloc: Global) -> Postal<'de> {
        Postal::default()
    }

    #[inline(always)]
    fn read_field(
        &mut self,
        _met: &mut FieldsSeen<'de>,
        alloc: Global,
        name: &'de [u8],
        d: &mut Decoder<'de>,
    ) -> Result<(), Failed> {
        fields_by_name!(alloc, name, d;
            "code" => try_once(&mut self.code),
            _ => try_skip_scalar(),
        )
    }
}

impl Postal<'_> {
    /// Whether every field is absent.
    pub fn is_empty(&self) -> bool
        ensures { result ≡ absent postal_table self.now }
    {
        self.code.is_none()
    }
}

/// A part of a country.
#[derive(Clone, Copy, Debug, Default, PartialEq)]
pub struct Subdivision<'a> {
    /// The number of the place in GeoNames.
    pub geoname_id: Option<u32>,
    /// The code of up to three characters by ISO 3166-2, without the country.
    pub iso_code: Option<&'a str>,
    /// Its names, by language.
    pub names: Names<'a>,
}

impl<'de> Fields<'de> for Subdivision<'de> {
    ghost table = { subdivision_table };

    fn empty(_alloc: Global) -> Subdivision<'de> {
        Subdivision::default()
    }

    #[inline(always)]
    fn read_field(
        &mut self,
        met: &mut FieldsSeen<'de>,
        alloc: Global,
        name: &'de [u8],
        d: &mut Decoder<'de>,
    ) -> Result<(), Failed> {
        fields_by_name!(alloc, name, d;
            "geoname_id" => try_once(&mut self.geoname_id),
            "iso_code" => try_once(&mut self.iso_code),
            "names" => read_part(&mut met.0, &mut self.names),
            _ => try_skip(),
        )
    }
}

impl Subdivision<'_> {
    /// Whether every field is absent.
    pub fn is_empty(&self) -> bool
        ensures { result ≡ absent subdivision_table self.now }
    {
        self.geoname_id.is_none() && self.iso_code.is_none() && self.names.is_empty()
    }
}

pub use crate::country::{Continent, Country, RepresentedCountry, Traits};
