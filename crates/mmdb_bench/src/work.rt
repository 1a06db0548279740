//! What is done with a database while the clock runs.

use crate::subject::{Subject, node_count};
use maxminddb::geoip2::{City, Country};
use maxminddb::{LookupResult, MaxMindDbError, Reader, Value, WithinOptions, path};
use std::alloc::Global;
use std::net::IpAddr;

/// A piece of work, whose answer is a sum over all that it found. Two programs that did the same work
/// have the same sum.
#[derive(Clone, Copy)]
pub(crate) enum Work {
    LoadFile,
    LoadFromMemory,
    LookupIpv4,
    LookupIpv4Many,
    LookupIpv4Network,
    LookupIpv6,
    LookupIpv6Many,
    DecodeCity,
    DecodeCountry,
    PathIsoCode,
    DecodeValue,
    Walk,
    WalkNetwork,
    WalkEmpty,
    WalkSkipEmptyValues,
    WalkCountry,
    Verify,
}

impl Work {
    /// All pieces of work, in the order in which they are done.
    pub(crate) const ALL: [Work; 17] = [
        Work::LoadFile,
        Work::LoadFromMemory,
        Work::LookupIpv4,
        Work::LookupIpv4Many,
        Work::LookupIpv4Network,
        Work::LookupIpv6,
        Work::LookupIpv6Many,
        Work::DecodeCity,
        Work::DecodeCountry,
        Work::PathIsoCode,
        Work::DecodeValue,
        Work::Walk,
        Work::WalkNetwork,
        Work::WalkEmpty,
        Work::WalkSkipEmptyValues,
        Work::WalkCountry,
        Work::Verify,
    ];

    /// Its name, as the programs of `bench/` print it too.
    pub(crate) fn name(self) -> &'static str {
        match self {
            Work::LoadFile => "load_file",
            Work::LoadFromMemory => "load_from_memory",
            Work::LookupIpv4 => "lookup_v4",
            Work::LookupIpv4Many => "lookup_v4_many",
            Work::LookupIpv4Network => "lookup_v4_network",
            Work::LookupIpv6 => "lookup_v6",
            Work::LookupIpv6Many => "lookup_v6_many",
            Work::DecodeCity => "lookup_decode_city",
            Work::DecodeCountry => "lookup_decode_country",
            Work::PathIsoCode => "lookup_path_iso_code",
            Work::DecodeValue => "lookup_decode_value",
            Work::Walk => "networks_walk",
            Work::WalkNetwork => "networks_walk_network",
            Work::WalkEmpty => "networks_walk_empty",
            Work::WalkSkipEmptyValues => "networks_walk_skip_empty_values",
            Work::WalkCountry => "networks_walk_country",
            Work::Verify => "verify",
        }
    }

    /// Whether the database has what it works on.
    pub(crate) fn suits(self, subject: &Subject<'_>) -> bool {
        match self {
            Work::LookupIpv6 | Work::LookupIpv6Many => !subject.ipv6.is_empty(),
            Work::DecodeCity | Work::DecodeCountry | Work::PathIsoCode | Work::WalkCountry => {
                subject.has_places()
            }
            _ => true,
        }
    }

    /// How many addresses it looks up, or None where it is one whole.
    pub(crate) fn lookups(self, subject: &Subject<'_>) -> Option<usize> {
        match self {
            Work::LookupIpv4 | Work::LookupIpv4Many | Work::LookupIpv4Network => Some(
                subject.ipv4.len(),
            ),
            Work::LookupIpv6 | Work::LookupIpv6Many => Some(subject.ipv6.len()),
            Work::DecodeCity | Work::DecodeCountry | Work::PathIsoCode | Work::DecodeValue => {
                Some(subject.fewer().len())
            }
            _ => None,
        }
    }

    /// Does it once.
    pub(crate) fn run(
        self,
        rt: &HostRuntime,
        subject: &Subject<'_>,
    ) -> Result<u64, MaxMindDbError> {
        let alloc = rt.alloc();
        let reader = &subject.reader;
        let options = WithinOptions::default();
        match self {
            Work::LoadFile => load_file(rt, subject.path),
            Work::LoadFromMemory => load_from_memory(alloc, subject.bytes.as_slice()),
            Work::LookupIpv4 => lookups(reader, subject.ipv4.as_slice()),
            Work::LookupIpv4Many => many_lookups(reader, subject.ipv4.as_slice()),
            Work::LookupIpv4Network => lookup_networks(reader, subject.ipv4.as_slice()),
            Work::LookupIpv6 => lookups(reader, subject.ipv6.as_slice()),
            Work::LookupIpv6Many => many_lookups(reader, subject.ipv6.as_slice()),
            Work::DecodeCity => decode_cities(alloc, reader, subject.fewer()),
            Work::DecodeCountry => decode_countries(alloc, reader, subject.fewer()),
            Work::PathIsoCode => path_iso_codes(alloc, reader, subject.fewer()),
            Work::DecodeValue => decode_values(alloc, reader, subject.fewer()),
            Work::Walk => walk(alloc, reader, options),
            Work::WalkNetwork => walk_networks(alloc, reader, options),
            Work::WalkEmpty => walk(alloc, reader, options.include_networks_without_data()),
            Work::WalkSkipEmptyValues => walk(alloc, reader, options.skip_empty_values()),
            Work::WalkCountry => walk_country(alloc, subject),
            Work::Verify => reader.verify(alloc).map(|()| 1),
        }
    }
}

fn load_file(rt: &HostRuntime, path: &str) -> Result<u64, MaxMindDbError> {
    let reader = Reader::open_readfile(rt, rt.alloc(), path)?;
    Ok(node_count(reader.metadata()))
}

fn load_from_memory(alloc: Global, bytes: &[u8]) -> Result<u64, MaxMindDbError> {
    let reader = Reader::from_source(alloc, bytes)?;
    Ok(node_count(reader.metadata()))
}

// 1 where there is no data, and else 2 more than the offset.
fn offset_term(found: &LookupResult<'_, Vec<u8>>) -> u64 {
    match found.offset() {
        Some(offset) => (offset as u64).wrapping_add(2),
        None => 1,
    }
}

fn prefix_term(found: &LookupResult<'_, Vec<u8>>) -> Result<u64, MaxMindDbError> {
    Ok(u64::from(found.network()?.prefix()))
}

fn lookups(reader: &Reader<Vec<u8>>, addresses: &[IpAddr]) -> Result<u64, MaxMindDbError> {
    let mut sum = 0u64;
    for &address in addresses {
        let found = reader.lookup(address)?;
        sum = sum.wrapping_add(offset_term(&found));
    }
    Ok(sum)
}

// The same, by the walks that go on side by side.
fn many_lookups(reader: &Reader<Vec<u8>>, addresses: &[IpAddr]) -> Result<u64, MaxMindDbError> {
    let mut sum = 0u64;
    for (_, answer) in reader.lookup_many(addresses) {
        sum = sum.wrapping_add(offset_term(&answer?));
    }
    Ok(sum)
}

fn lookup_networks(reader: &Reader<Vec<u8>>, addresses: &[IpAddr]) -> Result<u64, MaxMindDbError> {
    let mut sum = 0u64;
    for &address in addresses {
        let found = reader.lookup(address)?;
        sum = sum.wrapping_add(prefix_term(&found)?);
    }
    Ok(sum)
}

fn length(text: Option<&str>) -> u64 {
    match text {
        Some(text) => text.len() as u64,
        None => 0,
    }
}

// 1, and the lengths of the English name and of the country's code.
fn city_term(city: &City<'_>) -> u64 {
    1u64.wrapping_add(length(city.city.names.english))
        .wrapping_add(length(city.country.iso_code))
}

// 1, and the length of the country's code.
fn country_term(country: &Country<'_>) -> u64 {
    1u64.wrapping_add(length(country.country.iso_code))
}

fn decode_cities(
    alloc: Global,
    reader: &Reader<Vec<u8>>,
    addresses: &[IpAddr],
) -> Result<u64, MaxMindDbError> {
    let mut sum = 0u64;
    for &address in addresses {
        let city: Option<City<'_>> = reader.lookup(address)?.decode(alloc)?;
        if let Some(city) = &city {
            sum = sum.wrapping_add(city_term(city));
        }
    }
    Ok(sum)
}

fn decode_countries(
    alloc: Global,
    reader: &Reader<Vec<u8>>,
    addresses: &[IpAddr],
) -> Result<u64, MaxMindDbError> {
    let mut sum = 0u64;
    for &address in addresses {
        let country: Option<Country<'_>> = reader.lookup(address)?.decode(alloc)?;
        if let Some(country) = &country {
            sum = sum.wrapping_add(country_term(country));
        }
    }
    Ok(sum)
}

// How long the codes of the countries are.
fn path_iso_codes(
    alloc: Global,
    reader: &Reader<Vec<u8>>,
    addresses: &[IpAddr],
) -> Result<u64, MaxMindDbError> {
    let path = path!["country", "iso_code"];
    let mut sum = 0u64;
    for &address in addresses {
        let code: Option<&str> = reader.lookup(address)?.decode_path(alloc, &path)?;
        if let Some(code) = code {
            sum = sum.wrapping_add(code.len() as u64);
        }
    }
    Ok(sum)
}

// How many pairs the maps have.
fn decode_values(
    alloc: Global,
    reader: &Reader<Vec<u8>>,
    addresses: &[IpAddr],
) -> Result<u64, MaxMindDbError> {
    let mut sum = 0u64;
    for &address in addresses {
        let value: Option<Value<'_>> = reader.lookup(address)?.decode(alloc)?;
        if let Some(Value::Map(pairs)) = &value {
            sum = sum.wrapping_add(pairs.len() as u64);
        }
    }
    Ok(sum)
}

// How many networks are listed.
fn walk(
    alloc: Global,
    reader: &Reader<Vec<u8>>,
    options: WithinOptions,
) -> Result<u64, MaxMindDbError> {
    let mut sum = 0u64;
    for item in reader.networks(alloc, options)? {
        if item.is_ok() {
            sum = sum.wrapping_add(1);
        }
    }
    Ok(sum)
}

fn walk_networks(
    alloc: Global,
    reader: &Reader<Vec<u8>>,
    options: WithinOptions,
) -> Result<u64, MaxMindDbError> {
    let mut sum = 0u64;
    for item in reader.networks(alloc, options)? {
        sum = sum.wrapping_add(prefix_term(&item?)?);
    }
    Ok(sum)
}

// What is known of a record.
const UNKNOWN: u8 = 0;

const AMERICAN: u8 = 1;

const OTHER: u8 = 2;

// Whether the record at an offset has the code of the United States, by what is known of each offset. The code is read as a
// value of any type, since the reading of a text has to stay in line in `path_iso_codes`.
fn is_american(
    alloc: Global,
    found: &LookupResult<'_, Vec<u8>>,
    known: &mut [u8],
) -> Result<bool, MaxMindDbError> {
    let Some(kept) = known.get_mut(found.offset().unwrap_or(0)) else {
        return Ok(false);
    };
    if *kept == UNKNOWN {
        let code: Option<Value<'_>> = found.decode_path(alloc, &path!["country", "iso_code"])?;
        *kept = match code {
            Some(Value::String("US")) => AMERICAN,
            _ => OTHER,
        };
    }
    Ok(*kept == AMERICAN)
}

// How many networks are of the United States. The code is read once a record.
fn walk_country(alloc: Global, subject: &Subject<'_>) -> Result<u64, MaxMindDbError> {
    let mut known = Vec::new(alloc);
    known.resize(subject.bytes.len(), UNKNOWN)?;
    let mut sum = 0u64;
    for item in subject.reader.networks(alloc, WithinOptions::default())? {
        if is_american(alloc, &item?, known.as_mut_slice())? {
            sum = sum.wrapping_add(1);
        }
    }
    Ok(sum)
}
