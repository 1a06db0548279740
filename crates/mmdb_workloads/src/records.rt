//! Lookups with records as structs, as any value, and along paths.
use crate::cities::{Day, Size, city_database, country_database};
use crate::digest::Digest;
use crate::logs::Clients;
use crate::random::Random;
use maxminddb::geoip2::{City, Country, Names};
use maxminddb::{LookupResult, MaxMindDbError, Reader, Value, path};
use std::alloc::{AllocError, Global};
use std::io::Write;
use std::net::{IpAddr, Ipv4Addr, Ipv6Addr};

const CITY: Size = Size {
    records: 40_000,
    ipv4: 300_000,
    ipv6: 100_000,
};

const COUNTRY: Size = Size {
    records: 250,
    ipv4: 200_000,
    ipv6: 50_000,
};

/// A Country database in which each network has a record of its own kind, and is registered anywhere.
const APART: Size = Size {
    records: 60_000,
    ipv4: 100_000,
    ipv6: 20_000,
};

type Database = Reader<Vec<u8>>;

type Found<'r> = LookupResult<'r, Vec<u8>>;

// The next address: of a client that may come again, or one in eight of IPv6.
fn next_address(clients: &mut Clients) -> IpAddr {
    if clients.random.chance(32) {
        let high = (clients.random.word() >> 3) | (1 << 61);
        let bits = u128::from(high) << 64;
        return IpAddr::V6(Ipv6Addr::from_bits(bits));
    }
    IpAddr::V4(Ipv4Addr::from_bits(clients.any_ipv4()))
}

fn addresses_of(
    alloc: Global,
    clients: &mut Clients,
    count: u32,
) -> Result<Vec<IpAddr>, AllocError> {
    let mut addresses = Vec::new(alloc);
    for _ in 0..count {
        addresses.push(next_address(clients))?;
    }
    Ok(addresses)
}

fn put_text(text: Option<&str>, digest: &mut Digest) {
    if let Some(text) = text {
        let _ = digest.write_all(text.as_bytes());
    }
    digest.number(u64::from(text.is_some()));
}

fn put_names(names: &Names<'_>, digest: &mut Digest) {
    put_text(names.english, digest);
    put_text(names.japanese, digest);
    put_text(names.russian, digest);
}

// What a City record has.
fn put_city(city: &City<'_>, digest: &mut Digest) {
    digest.number(u64::from(city.city.geoname_id.unwrap_or(0)));
    put_names(&city.city.names, digest);
    put_text(city.continent.code, digest);
    put_text(city.country.iso_code, digest);
    put_names(&city.country.names, digest);
    put_text(city.location.time_zone, digest);
    if let Some(latitude) = city.location.latitude {
        digest.number(latitude.bits);
    }
    put_text(city.postal.code, digest);
    put_text(city.registered_country.iso_code, digest);
    for part in &city.subdivisions {
        put_text(part.iso_code, digest);
        put_names(&part.names, digest);
    }
}

// What a Country record has.
fn put_country(country: &Country<'_>, digest: &mut Digest) {
    put_text(country.continent.code, digest);
    put_names(&country.continent.names, digest);
    put_text(country.country.iso_code, digest);
    put_names(&country.country.names, digest);
    put_text(country.registered_country.iso_code, digest);
    put_names(&country.registered_country.names, digest);
    digest.number(u64::from(country.traits.is_anycast.unwrap_or(false)));
}

// The texts and the numbers of a value.
fn put_value(value: &Value<'_>, digest: &mut Digest) {
    match value {
        Value::String(text) => put_text(Some(*text), digest),
        Value::Bool(truth) => digest.number(u64::from(*truth)),
        Value::U16(number) => digest.number(u64::from(*number)),
        Value::U32(number) => digest.number(u64::from(*number)),
        Value::Double(number) => digest.number(number.bits),
        Value::Array(values) => {
            for value in values {
                put_value(value, digest);
            }
        }
        Value::Map(pairs) => {
            for (key, value) in pairs {
                digest.number(key.len() as u64);
                put_value(value, digest);
            }
        }
        _ => {}
    }
}

/// What is asked of an address.
#[derive(Clone, Copy)]
enum Question {
    City,
    Country,
    Value,
    Path,
    Network,
}

// The record as the struct of a city. Each question has a function that is called, since what a function holds at most is
// cleared at its entry.
#[inline(never)]
fn ask_city(alloc: Global, found: &Found<'_>, digest: &mut Digest) -> Result<(), MaxMindDbError> {
    if let Some(city) = found.decode::<City<'_>>(alloc)? {
        put_city(&city, digest);
    }
    Ok(())
}

// The record as the struct of a country.
#[inline(never)]
fn ask_country(
    alloc: Global,
    found: &Found<'_>,
    digest: &mut Digest,
) -> Result<(), MaxMindDbError> {
    if let Some(country) = found.decode::<Country<'_>>(alloc)? {
        put_country(&country, digest);
    }
    Ok(())
}

// The record as any value.
#[inline(never)]
fn ask_value(alloc: Global, found: &Found<'_>, digest: &mut Digest) -> Result<(), MaxMindDbError> {
    let value: Option<Value<'_>> = found.decode(alloc)?;
    if let Some(value) = &value {
        put_value(value, digest);
    }
    Ok(())
}

// A text along a path.
#[inline(never)]
fn ask_path(alloc: Global, found: &Found<'_>, digest: &mut Digest) -> Result<(), MaxMindDbError> {
    let code: Option<&str> = found.decode_path(alloc, &path!["country", "iso_code"])?;
    put_text(code, digest);
    Ok(())
}

// The offset and the network.
#[inline(never)]
fn ask_network(found: &Found<'_>, digest: &mut Digest) -> Result<(), MaxMindDbError> {
    digest.number(found.offset().unwrap_or(1) as u64);
    digest.number(u64::from(found.network()?.prefix()));
    Ok(())
}

// What is known of an address.
fn answer(
    alloc: Global,
    found: &Found<'_>,
    question: Question,
    digest: &mut Digest,
) -> Result<(), MaxMindDbError> {
    match question {
        Question::City => ask_city(alloc, found, digest),
        Question::Country => ask_country(alloc, found, digest),
        Question::Value => ask_value(alloc, found, digest),
        Question::Path => ask_path(alloc, found, digest),
        Question::Network => ask_network(found, digest),
    }
}

// What is known of addresses, one after another.
fn ask(
    alloc: Global,
    reader: &Database,
    clients: &mut Clients,
    question: Question,
    count: u32,
    digest: &mut Digest,
) -> Result<(), MaxMindDbError> {
    for address in &addresses_of(alloc, clients, count)? {
        answer(alloc, &reader.lookup(*address)?, question, digest)?;
    }
    Ok(())
}

// The offsets of many addresses at once.
fn ask_many(
    alloc: Global,
    reader: &Database,
    clients: &mut Clients,
    count: u32,
    digest: &mut Digest,
) -> Result<(), MaxMindDbError> {
    let addresses = addresses_of(alloc, clients, count)?;
    for (_, answer) in reader.lookup_many(addresses.as_slice()) {
        digest.number(answer?.offset().unwrap_or(1) as u64);
    }
    Ok(())
}

const OF_CITY: &[(Question, u32)] = &[
    (Question::City, 160_000),
    (Question::Country, 160_000),
    (Question::Value, 100_000),
    (Question::Path, 800_000),
    (Question::Network, 1_600_000),
];

const OF_COUNTRY: &[(Question, u32)] = &[
    (Question::Country, 300_000),
    (Question::Value, 120_000),
    (Question::Path, 800_000),
];

// All questions about a database.
fn ask_all(
    alloc: Global,
    bytes: Vec<u8>,
    seed: u64,
    questions: &[(Question, u32)],
    divisor: u32,
    digest: &mut Digest,
) -> Result<(), MaxMindDbError> {
    let reader = Reader::from_source(alloc, bytes)?;
    let mut clients = Clients::new(alloc, seed, 100)?;
    for (question, count) in questions {
        let count = *count / divisor.max(1);
        ask(alloc, &reader, &mut clients, *question, count, digest)?;
    }
    ask_many(
        alloc,
        &reader,
        &mut clients,
        800_000 / divisor.max(1),
        digest,
    )
}

/// Lookups in a City and in two Country databases.
pub(crate) fn records(
    alloc: Global,
    seed: u64,
    divisor: u32,
    digest: &mut Digest,
) -> anyhow::Result<()> {
    let mut random = Random::of(seed);
    let city = city_database(alloc, seed, Day::First, CITY.over(divisor))?;
    ask_all(alloc, city, random.word(), OF_CITY, divisor, digest)?;
    let country = country_database(alloc, seed, 5, COUNTRY.over(divisor.min(10)))?;
    ask_all(alloc, country, random.word(), OF_COUNTRY, divisor, digest)?;
    let apart = country_database(alloc, seed, 255, APART.over(divisor.min(100)))?;
    ask_all(
        alloc,
        apart,
        random.word(),
        OF_COUNTRY,
        divisor.saturating_mul(2),
        digest,
    )?;
    Ok(())
}
