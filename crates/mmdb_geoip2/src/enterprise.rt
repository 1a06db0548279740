//! The parts of an enterprise record.
#![tactic(auto, unfolding(mmdb_record::specs::Tables::fields_of, mmdb_record::specs::Tables::part_field, mmdb_decode::specs::State::decoded, mmdb_decode::specs::Names::named, mmdb_record::specs::Records::field, mmdb_record::specs::Records::skipped, crate::specs::NamesTable::names_table, crate::specs::EnterpriseTables::enterprise_city_table, crate::specs::EnterpriseTables::enterprise_country_table, crate::specs::EnterpriseTables::enterprise_postal_table, crate::specs::EnterpriseTables::enterprise_subdivision_table, crate::specs::EnterpriseTables::enterprise_traits_table))]

ghost use Rattle.std.specs.Prelude.{◌≡◌};
ghost use Rattle.mmdb_record.specs.Tables.{absent};
ghost use Rattle.mmdb_geoip2.specs.EnterpriseTables.{enterprise_city_table, enterprise_country_table, enterprise_postal_table, enterprise_subdivision_table, enterprise_traits_table};

use crate::fields::fields_by_name;
use crate::names::Names;
use mmdb_decode::decoder::Decoder;
use mmdb_decode::failed::Failed;
use mmdb_record::fields::{Fields, FieldsSeen, read_part};
use mmdb_record::record::named;
use mmdb_record::try_decode::try_once;
use std::alloc::Global;

/// A city.
#[derive(Clone, Copy, Debug, Default, PartialEq)]
pub struct City<'a> {
    /// How sure the database is of it: 0 to 100, in percent (any number to 255 is read).
    pub confidence: Option<u8>,
    /// The number of the place in GeoNames.
    pub geoname_id: Option<u32>,
    /// Its names, by language.
    pub names: Names<'a>,
}

impl<'de> Fields<'de> for City<'de> {
    ghost table = { enterprise_city_table };

    fn empty(_alloc: Global) -> City<'de> {
        City::default()
    }

    #[inline(always)]
    fn read_field(
        &mut self,
        met: &mut FieldsSeen<'de>,
        alloc: Global,
        name: &'de [u8],
        d: &mut Decoder<'de>,
    ) -> Result<(), Failed> {
        fields_by_name!(alloc, name, d;
            "confidence" => try_once(&mut self.confidence),
            "geoname_id" => try_once(&mut self.geoname_id),
            "names" => read_part(&mut met.0, &mut self.names),
            _ => try_skip(),
        )
    }
}

impl City<'_> {
    /// Whether every field is absent.
    pub fn is_empty(&self) -> bool
        ensures { result ≡ absent enterprise_city_table self.now }
    {
        self.confidence.is_none() && self.geoname_id.is_none() && self.names.is_empty()
    }
}

/// A country.
#[derive(Clone, Copy, Debug, Default, PartialEq)]
pub struct Country<'a> {
    /// How sure the database is of it: 0 to 100, in percent (any number to 255 is read).
    pub confidence: Option<u8>,
    /// The number of the place in GeoNames.
    pub geoname_id: Option<u32>,
    /// Whether the country is a member of the European Union.
    pub is_in_european_union: Option<bool>,
    /// The code of two letters by ISO 3166-1.
    pub iso_code: Option<&'a str>,
    /// Its names, by language.
    pub names: Names<'a>,
}

impl<'de> Fields<'de> for Country<'de> {
    ghost table = { enterprise_country_table };

    fn empty(_alloc: Global) -> Country<'de> {
        Country::default()
    }

    #[inline(always)]
    fn read_field(
        &mut self,
        met: &mut FieldsSeen<'de>,
        alloc: Global,
        name: &'de [u8],
        d: &mut Decoder<'de>,
    ) -> Result<(), Failed> {
        fields_by_name!(alloc, name, d;
            "confidence" => try_once(&mut self.confidence),
            "geoname_id" => try_once(&mut self.geoname_id),
            "is_in_european_union" => try_once(&mut self.is_in_european_union),
            "iso_code" => try_once(&mut self.iso_code),
            "names" => read_part(&mut met.0, &mut self.names),
            _ => try_skip(),
        )
    }
}

impl Country<'_> {
    /// Whether every field is absent.
    pub fn is_empty(&self) -> bool
        ensures { result ≡ absent enterprise_country_table self.now }
    {
        self.confidence.is_none()
            && self.geoname_id.is_none()
            && self.is_in_european_union.is_none()
            && self.iso_code.is_none()
            && self.names.is_empty()
    }
}

/// A postal code.
#[derive(Clone, Copy, Debug, Default, PartialEq)]
pub struct Postal<'a> {
    /// The postal code, or its beginning.
    pub code: Option<&'a str>,
    /// How sure the database is of it: 0 to 100, in percent (any number to 255 is read).
    pub confidence: Option<u8>,
}

impl<'de> Fields<'de> for Postal<'de> {
    ghost table = { enterprise_postal_table };

    fn empty(_alloc: Global) -> Postal<'de> {
        Postal::default()
    }

    #[inline(always)]
    fn read_field(
        &mut self,
        _met: &mut FieldsSeen<'de>,
        alloc: Global,
        name: &'de [u8],
        d: &mut Decoder<'de>,
    ) -> Result<(), Failed> {
        fields_by_name!(alloc, name, d;
            "code" => try_once(&mut self.code),
            "confidence" => try_once(&mut self.confidence),
            _ => try_skip_scalar(),
        )
    }
}

impl Postal<'_> {
    /// Whether every field is absent.
    pub fn is_empty(&self) -> bool
        ensures { result ≡ absent enterprise_postal_table self.now }
    {
        self.code.is_none() && self.confidence.is_none()
    }
}

/// A part of a country.
#[derive(Clone, Copy, Debug, Default, PartialEq)]
pub struct Subdivision<'a> {
    /// How sure the database is of it: 0 to 100, in percent (any number to 255 is read).
    pub confidence: Option<u8>,
    /// The number of the place in GeoNames.
    pub geoname_id: Option<u32>,
    /// The code of up to three characters by ISO 3166-2, without the country.
    pub iso_code: Option<&'a str>,
    /// Its names, by language.
    pub names: Names<'a>,
}

impl<'de> Fields<'de> for Subdivision<'de> {
    ghost table = { enterprise_subdivision_table };

    fn empty(_alloc: Global) -> Subdivision<'de> {
        Subdivision::default()
    }

    #[inline(always)]
    fn read_field(
        &mut self,
        met: &mut FieldsSeen<'de>,
        alloc: Global,
        name: &'de [u8],
        d: &mut Decoder<'de>,
    ) -> Result<(), Failed> {
        fields_by_name!(alloc, name, d;
            "confidence" => try_once(&mut self.confidence),
            "geoname_id" => try_once(&mut self.geoname_id),
            "iso_code" => try_once(&mut self.iso_code),
            "names" => read_part(&mut met.0, &mut self.names),
            _ => try_skip(),
        )
    }
}

impl Subdivision<'_> {
    /// Whether every field is absent.
    pub fn is_empty(&self) -> bool
        ensures { result ≡ absent enterprise_subdivision_table self.now }
    {
        self.confidence.is_none()
            && self.geoname_id.is_none()
            && self.iso_code.is_none()
            && self.names.is_empty()
    }
}

/// Traits of an address.
#[derive(Clone, Copy, Debug, Default, PartialEq)]
pub struct Traits<'a> {
    /// The number of the autonomous system.
    pub autonomous_system_number: Option<u32>,
    /// The organization that the autonomous system is registered for.
    pub autonomous_system_organization: Option<&'a str>,
    /// The kind of connection: "Dialup", "Cable/DSL", "Corporate", "Cellular", "Satellite".
    pub connection_type: Option<&'a str>,
    /// The domain of the second level, like "example.com".
    pub domain: Option<&'a str>,
    /// Whether the address belongs to an anonymous network of any kind.
    pub is_anonymous: Option<bool>,
    /// Whether the address is registered to an anonymous VPN provider.
    pub is_anonymous_vpn: Option<bool>,
    /// Whether the network is an anycast one, reached at several places.
    pub is_anycast: Option<bool>,
    /// Whether the address belongs to a hosting or VPN provider.
    pub is_hosting_provider: Option<bool>,
    /// The name of the provider.
    pub isp: Option<&'a str>,
    /// Whether the address belongs to a public proxy.
    pub is_public_proxy: Option<bool>,
    /// Whether the address is on a suspected anonymizing network of a residential provider.
    pub is_residential_proxy: Option<bool>,
    /// Whether the address is a Tor exit node.
    pub is_tor_exit_node: Option<bool>,
    /// The mobile country code (MCC).
    pub mobile_country_code: Option<&'a str>,
    /// The mobile network code (MNC).
    pub mobile_network_code: Option<&'a str>,
    /// The name of the organization that uses the address.
    pub organization: Option<&'a str>,
    /// Who uses the address, like "business", "college", "hosting" or "residential".
    pub user_type: Option<&'a str>,
}

impl<'de> Fields<'de> for Traits<'de> {
    ghost table = { enterprise_traits_table };

    fn empty(_alloc: Global) -> Traits<'de> {
        Traits::default()
    }

    fn read_field(
        &mut self,
        _met: &mut FieldsSeen<'de>,
        alloc: Global,
        name: &'de [u8],
        d: &mut Decoder<'de>,
    ) -> Result<(), Failed> {
        fields_by_name!(alloc, name, d;
            "autonomous_system_number" => try_once(&mut self.autonomous_system_number),
            "autonomous_system_organization" => try_once(&mut self.autonomous_system_organization),
            "connection_type" => try_once(&mut self.connection_type),
            "domain" => try_once(&mut self.domain),
            "is_anonymous" => try_once(&mut self.is_anonymous),
            "is_anonymous_vpn" => try_once(&mut self.is_anonymous_vpn),
            "is_anycast" => try_once(&mut self.is_anycast),
            "is_hosting_provider" => try_once(&mut self.is_hosting_provider),
            "isp" => try_once(&mut self.isp),
            "is_public_proxy" => try_once(&mut self.is_public_proxy),
            "is_residential_proxy" => try_once(&mut self.is_residential_proxy),
            "is_tor_exit_node" => try_once(&mut self.is_tor_exit_node),
            "mobile_country_code" => try_once(&mut self.mobile_country_code),
            "mobile_network_code" => try_once(&mut self.mobile_network_code),
            "organization" => try_once(&mut self.organization),
            "user_type" => try_once(&mut self.user_type),
            _ => try_skip_scalar(),
        )
    }
}

impl Traits<'_> {
    /// Whether every field is absent.
    pub fn is_empty(&self) -> bool
        ensures { result ≡ absent enterprise_traits_table self.now }
    {
        self.autonomous_system_number.is_none()
            && self.autonomous_system_organization.is_none()
            && self.connection_type.is_none()
            && self.domain.is_none()
            && self.is_anonymous.is_none()
            && self.is_anonymous_vpn.is_none()
            && self.is_anycast.is_none()
            && self.is_hosting_provider.is_none()
            && self.isp.is_none()
            && self.is_public_proxy.is_none()
            && self.is_residential_proxy.is_none()
            && self.is_tor_exit_node.is_none()
            && self.mobile_country_code.is_none()
            && self.mobile_network_code.is_none()
            && self.organization.is_none()
            && self.user_type.is_none()
    }
}

pub use crate::city::Location;
pub use crate::country::{Continent, RepresentedCountry};
