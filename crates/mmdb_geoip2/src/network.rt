//! Records of networks.
#![tactic(auto, unfolding(mmdb_record::specs::Tables::fields_of, mmdb_record::specs::Tables::part_field, mmdb_decode::specs::State::decoded, mmdb_decode::specs::Names::named, mmdb_record::specs::Records::field, mmdb_record::specs::Records::skipped, crate::specs::NetworkTables::isp_table, crate::specs::NetworkTables::connection_type_table, crate::specs::NetworkTables::anonymous_ip_table, crate::specs::NetworkTables::density_income_table, crate::specs::NetworkTables::domain_table, crate::specs::NetworkTables::asn_table))]

ghost use Rattle.std.specs.Prelude.{◌≡◌};
ghost use Rattle.mmdb_geoip2.specs.NetworkTables.{isp_table, connection_type_table, anonymous_ip_table, density_income_table, domain_table, asn_table};

use crate::fields::fields_by_name;
use mmdb_decode::decoder::Decoder;
use mmdb_decode::failed::Failed;
use mmdb_record::fields::{Fields, FieldsSeen};
use mmdb_record::record::named;
use mmdb_record::try_decode::try_once;
use std::alloc::Global;

/// The provider of an address.
#[derive(Clone, Copy, Debug)]
pub struct Isp<'a> {
    /// The number of the autonomous system.
    pub autonomous_system_number: Option<u32>,
    /// The organization that the autonomous system is registered for.
    pub autonomous_system_organization: Option<&'a str>,
    /// The name of the provider.
    pub isp: Option<&'a str>,
    /// The mobile country code (MCC).
    pub mobile_country_code: Option<&'a str>,
    /// The mobile network code (MNC).
    pub mobile_network_code: Option<&'a str>,
    /// The name of the organization that uses the address.
    pub organization: Option<&'a str>,
}

impl<'de> Fields<'de> for Isp<'de> {
    ghost table = { isp_table };

    fn empty(_alloc: Global) -> Isp<'de> {
        Isp {
            autonomous_system_number: None,
            autonomous_system_organization: None,
            isp: None,
            mobile_country_code: None,
            mobile_network_code: None,
            organization: None,
        }
    }

    #[inline(always)]
    fn read_field(
        &mut self,
        _met: &mut FieldsSeen<'de>,
        alloc: Global,
        name: &'de [u8],
        d: &mut Decoder<'de>,
    ) -> Result<(), Failed> {
        fields_by_name!(alloc, name, d;
            "autonomous_system_number" => try_once(&mut self.autonomous_system_number),
            "autonomous_system_organization" => try_once(&mut self.autonomous_system_organization),
            "isp" => try_once(&mut self.isp),
            "mobile_country_code" => try_once(&mut self.mobile_country_code),
            "mobile_network_code" => try_once(&mut self.mobile_network_code),
            "organization" => try_once(&mut self.organization),
            _ => try_skip_scalar(),
        )
    }
}

/// How an address is connected.
#[derive(Clone, Copy, Debug)]
pub struct ConnectionType<'a> {
    /// The kind of connection: "Dialup", "Cable/DSL", "Corporate", "Cellular", "Satellite".
    pub connection_type: Option<&'a str>,
}

impl<'de> Fields<'de> for ConnectionType<'de> {
    ghost table = { connection_type_table };

    fn empty(_alloc: Global) -> ConnectionType<'de> {
        ConnectionType {
            connection_type: None,
        }
    }

    #[inline(always)]
    fn read_field(
        &mut self,
        _met: &mut FieldsSeen<'de>,
        alloc: Global,
        name: &'de [u8],
        d: &mut Decoder<'de>,
    ) -> Result<(), Failed> {
        fields_by_name!(alloc, name, d;
            "connection_type" => try_once(&mut self.connection_type),
            _ => try_skip_scalar(),
        )
    }
}

/// Whether an address hides who uses it.
#[derive(Clone, Copy, Debug)]
pub struct AnonymousIp {
    /// Whether the address belongs to an anonymous network of any kind.
    pub is_anonymous: Option<bool>,
    /// Whether the address is registered to an anonymous VPN provider.
    pub is_anonymous_vpn: Option<bool>,
    /// Whether the address belongs to a hosting or VPN provider.
    pub is_hosting_provider: Option<bool>,
    /// Whether the address belongs to a public proxy.
    pub is_public_proxy: Option<bool>,
    /// Whether the address is on a suspected anonymizing network of a residential provider.
    pub is_residential_proxy: Option<bool>,
    /// Whether the address is a Tor exit node.
    pub is_tor_exit_node: Option<bool>,
}

impl<'de> Fields<'de> for AnonymousIp {
    ghost table = { anonymous_ip_table };

    fn empty(_alloc: Global) -> AnonymousIp {
        AnonymousIp {
            is_anonymous: None,
            is_anonymous_vpn: None,
            is_hosting_provider: None,
            is_public_proxy: None,
            is_residential_proxy: None,
            is_tor_exit_node: None,
        }
    }

    #[inline(always)]
    fn read_field(
        &mut self,
        _met: &mut FieldsSeen<'de>,
        alloc: Global,
        name: &'de [u8],
        d: &mut Decoder<'de>,
    ) -> Result<(), Failed> {
        fields_by_name!(alloc, name, d;
            "is_anonymous" => try_once(&mut self.is_anonymous),
            "is_anonymous_vpn" => try_once(&mut self.is_anonymous_vpn),
            "is_hosting_provider" => try_once(&mut self.is_hosting_provider),
            "is_public_proxy" => try_once(&mut self.is_public_proxy),
            "is_residential_proxy" => try_once(&mut self.is_residential_proxy),
            "is_tor_exit_node" => try_once(&mut self.is_tor_exit_node),
            _ => try_skip_scalar(),
        )
    }
}

/// Income and density of the population.
#[derive(Clone, Copy, Debug)]
pub struct DensityIncome {
    /// The average income, in US dollars a year.
    pub average_income: Option<u32>,
    /// How many people live on a square kilometre.
    pub population_density: Option<u32>,
}

impl<'de> Fields<'de> for DensityIncome {
    ghost table = { density_income_table };

    fn empty(_alloc: Global) -> DensityIncome {
        DensityIncome {
            average_income: None,
            population_density: None,
        }
    }

    #[inline(always)]
    fn read_field(
        &mut self,
        _met: &mut FieldsSeen<'de>,
        alloc: Global,
        name: &'de [u8],
        d: &mut Decoder<'de>,
    ) -> Result<(), Failed> {
        fields_by_name!(alloc, name, d;
            "average_income" => try_once(&mut self.average_income),
            "population_density" => try_once(&mut self.population_density),
            _ => try_skip_scalar(),
        )
    }
}

/// The domain of an address.
#[derive(Clone, Copy, Debug)]
pub struct Domain<'a> {
    /// The domain of the second level, like "example.com".
    pub domain: Option<&'a str>,
}

impl<'de> Fields<'de> for Domain<'de> {
    ghost table = { domain_table };

    fn empty(_alloc: Global) -> Domain<'de> {
        Domain { domain: None }
    }

    #[inline(always)]
    fn read_field(
        &mut self,
        _met: &mut FieldsSeen<'de>,
        alloc: Global,
        name: &'de [u8],
        d: &mut Decoder<'de>,
    ) -> Result<(), Failed> {
        fields_by_name!(alloc, name, d;
            "domain" => try_once(&mut self.domain),
            _ => try_skip_scalar(),
        )
    }
}

/// The autonomous system of an address.
#[derive(Clone, Copy, Debug)]
pub struct Asn<'a> {
    /// The number of the autonomous system.
    pub autonomous_system_number: Option<u32>,
    /// The organization that the autonomous system is registered for.
    pub autonomous_system_organization: Option<&'a str>,
}

impl<'de> Fields<'de> for Asn<'de> {
    ghost table = { asn_table };

    fn empty(_alloc: Global) -> Asn<'de> {
        Asn {
            autonomous_system_number: None,
            autonomous_system_organization: None,
        }
    }

    #[inline(always)]
    fn read_field(
        &mut self,
        _met: &mut FieldsSeen<'de>,
        alloc: Global,
        name: &'de [u8],
        d: &mut Decoder<'de>,
    ) -> Result<(), Failed> {
        fields_by_name!(alloc, name, d;
            "autonomous_system_number" => try_once(&mut self.autonomous_system_number),
            "autonomous_system_organization" => try_once(&mut self.autonomous_system_organization),
            _ => try_skip_scalar(),
        )
    }
}
