//! The records of whole databases.
#![tactic(auto, unfolding(mmdb_record::specs::Tables::fields_of, mmdb_record::specs::Tables::part_field, mmdb_decode::specs::State::decoded, mmdb_decode::specs::Names::named, mmdb_record::specs::Records::field, mmdb_record::specs::Records::skipped, crate::specs::RecordTables::top_country_table, crate::specs::RecordTables::top_city_table, crate::specs::RecordTables::top_enterprise_table))]

ghost use Rattle.std.specs.Prelude.{◌≡◌, false};
ghost use Rattle.std.specs.Vec.{vec_capacity};
ghost use Rattle.mmdb_record.specs.Memos.{part_at};
ghost use Rattle.mmdb_record.specs.Tables.{data_of, no_data};
ghost use Rattle.mmdb_geoip2.specs.CountryTables.{country_table};
ghost use Rattle.mmdb_geoip2.specs.EnterpriseTables.{enterprise_country_table};
ghost use Rattle.mmdb_geoip2.specs.RecordTables.{top_country_table, top_city_table, top_enterprise_table};

use crate::fields::{fields_by_name, read_few_once};
use crate::{city, country, enterprise};
use mmdb_decode::decoder::Decoder;
use mmdb_decode::failed::Failed;
use mmdb_record::fields::{Fields, FieldsSeen, read_part};
use mmdb_record::memo::{read_part_noting, read_part_or_reuse};
use mmdb_record::record::named;
use std::alloc::Global;

/// The country of an address.
#[derive(Clone, Copy, Debug, Default)]
pub struct Country<'a> {
    /// The continent.
    pub continent: country::Continent<'a>,
    /// The country where the address is thought to be.
    pub country: country::Country<'a>,
    /// The country in which the provider registered the network.
    pub registered_country: country::Country<'a>,
    /// The country that users of the address represent, as at a military base.
    pub represented_country: country::RepresentedCountry<'a>,
    /// What else is known of the address.
    pub traits: country::Traits,
}

impl<'de> Fields<'de> for Country<'de> {
    ghost table = { top_country_table };

    ghost kept = { part_at country_table (λ v. v.country) };

    fn empty(alloc: Global) -> Country<'de> {
        Country {
            continent: country::Continent::empty(alloc),
            country: country::Country::empty(alloc),
            registered_country: country::Country::empty(alloc),
            represented_country: country::RepresentedCountry::empty(alloc),
            traits: country::Traits::empty(alloc),
        }
    }

    #[inline(always)]
    fn read_field(
        &mut self,
        met: &mut FieldsSeen<'de>,
        alloc: Global,
        name: &'de [u8],
        d: &mut Decoder<'de>,
    ) -> Result<(), Failed> {
        fields_by_name!(alloc, name, d;
            "continent" => read_part(&mut met.0, &mut self.continent),
            "country" => read_part_noting(&mut met.1, &mut self.country, &mut met.9),
            "registered_country" => read_part_or_reuse(&mut met.2, &mut self.registered_country, &self.country, &met.9),
            "represented_country" => read_part(&mut met.3, &mut self.represented_country),
            "traits" => read_part(&mut met.4, &mut self.traits),
            _ => try_skip(),
        )
    }
}

/// The city of an address.
///
///     if let Some(city) = found.decode::<City<'_>>(rt.alloc())? {
///         println!(rt; "city: {}", city.city.names.english.unwrap_or("-"))?;
///         for part in &city.subdivisions {
///             println!(rt; "part: {}", part.iso_code.unwrap_or("-"))?;
///         }
///     }
#[derive(Clone, Debug, Drop)]
pub struct City<'a> {
    /// The city.
    pub city: city::City<'a>,
    /// The continent.
    pub continent: city::Continent<'a>,
    /// The country where the address is thought to be.
    pub country: city::Country<'a>,
    /// The place, with coordinates and time zone.
    pub location: city::Location<'a>,
    /// The postal code.
    pub postal: city::Postal<'a>,
    /// The country in which the provider registered the network.
    pub registered_country: city::Country<'a>,
    /// The country that users of the address represent, as at a military base.
    pub represented_country: city::RepresentedCountry<'a>,
    /// The parts of the country that the place lies in, from the largest to the smallest: at most 32.
    pub subdivisions: Vec<city::Subdivision<'a>>,
    /// What else is known of the address.
    pub traits: city::Traits,
}

impl<'de> Fields<'de> for City<'de> {
    ghost table = { top_city_table };

    ghost free = { false };

    ghost kept = { part_at country_table (λ v. v.country) };

    fn empty(alloc: Global) -> City<'de> {
        City::empty(alloc)
    }

    #[inline(always)]
    fn read_field(
        &mut self,
        met: &mut FieldsSeen<'de>,
        alloc: Global,
        name: &'de [u8],
        d: &mut Decoder<'de>,
    ) -> Result<(), Failed> {
        fields_by_name!(alloc, name, d;
            "city" => read_part(&mut met.0, &mut self.city),
            "continent" => read_part(&mut met.1, &mut self.continent),
            "country" => read_part_noting(&mut met.2, &mut self.country, &mut met.9),
            "location" => read_part(&mut met.3, &mut self.location),
            "postal" => read_part(&mut met.4, &mut self.postal),
            "registered_country" => read_part_or_reuse(&mut met.5, &mut self.registered_country, &self.country, &met.9),
            "represented_country" => read_part(&mut met.6, &mut self.represented_country),
            "subdivisions" => read_few_once(&mut met.7, &mut self.subdivisions),
            "traits" => read_part(&mut met.8, &mut self.traits),
            _ => try_skip(),
        )
    }
}

/// What an enterprise database says of an address.
#[derive(Clone, Debug, Drop)]
pub struct Enterprise<'a> {
    /// The city.
    pub city: enterprise::City<'a>,
    /// The continent.
    pub continent: enterprise::Continent<'a>,
    /// The country where the address is thought to be.
    pub country: enterprise::Country<'a>,
    /// The place, with coordinates and time zone.
    pub location: enterprise::Location<'a>,
    /// The postal code.
    pub postal: enterprise::Postal<'a>,
    /// The country in which the provider registered the network.
    pub registered_country: enterprise::Country<'a>,
    /// The country that users of the address represent, as at a military base.
    pub represented_country: enterprise::RepresentedCountry<'a>,
    /// The parts of the country that the place lies in, from the largest to the smallest: at most 32.
    pub subdivisions: Vec<enterprise::Subdivision<'a>>,
    /// What else is known of the address.
    pub traits: enterprise::Traits<'a>,
}

impl<'de> Fields<'de> for Enterprise<'de> {
    ghost table = { top_enterprise_table };

    ghost free = { false };

    ghost kept = { part_at enterprise_country_table (λ v. v.country) };

    fn empty(alloc: Global) -> Enterprise<'de> {
        Enterprise::empty(alloc)
    }

    #[inline(always)]
    fn read_field(
        &mut self,
        met: &mut FieldsSeen<'de>,
        alloc: Global,
        name: &'de [u8],
        d: &mut Decoder<'de>,
    ) -> Result<(), Failed> {
        fields_by_name!(alloc, name, d;
            "city" => read_part(&mut met.0, &mut self.city),
            "continent" => read_part(&mut met.1, &mut self.continent),
            "country" => read_part_noting(&mut met.2, &mut self.country, &mut met.9),
            "location" => read_part(&mut met.3, &mut self.location),
            "postal" => read_part(&mut met.4, &mut self.postal),
            "registered_country" => read_part_or_reuse(&mut met.5, &mut self.registered_country, &self.country, &met.9),
            "represented_country" => read_part(&mut met.6, &mut self.represented_country),
            "subdivisions" => read_few_once(&mut met.7, &mut self.subdivisions),
            "traits" => read_part(&mut met.8, &mut self.traits),
            _ => try_skip(),
        )
    }
}

impl<'de> City<'de> {
    /// A record none of whose fields is there, in place of a default. It takes no memory.
    pub fn empty(alloc: Global) -> City<'de>
        ensures none { data_of top_city_table result ≡ no_data top_city_table }
        ensures no_memory { vec_capacity result.subdivisions ≡ 0 }
    {
        City {
            city: city::City::empty(alloc),
            continent: city::Continent::empty(alloc),
            country: city::Country::empty(alloc),
            location: city::Location::empty(alloc),
            postal: city::Postal::empty(alloc),
            registered_country: city::Country::empty(alloc),
            represented_country: city::RepresentedCountry::empty(alloc),
            subdivisions: Vec::new(alloc),
            traits: city::Traits::empty(alloc),
        }
    }
}

impl<'de> Enterprise<'de> {
    /// A record none of whose fields is there, in place of a default. It takes no memory.
    pub fn empty(alloc: Global) -> Enterprise<'de>
        ensures none { data_of top_enterprise_table result ≡ no_data top_enterprise_table }
        ensures no_memory { vec_capacity result.subdivisions ≡ 0 }
    {
        Enterprise {
            city: enterprise::City::empty(alloc),
            continent: enterprise::Continent::empty(alloc),
            country: enterprise::Country::empty(alloc),
            location: enterprise::Location::empty(alloc),
            postal: enterprise::Postal::empty(alloc),
            registered_country: enterprise::Country::empty(alloc),
            represented_country: enterprise::RepresentedCountry::empty(alloc),
            subdivisions: Vec::new(alloc),
            traits: enterprise::Traits::empty(alloc),
        }
    }
}
