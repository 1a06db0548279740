//! Exports, and lists for firewalls.
use crate::cities::{Day, Size, city_database, country_database};
use crate::digest::Digest;
use crate::program::{files_of, run_program};
use std::alloc::Global;

/// A City database to be exported.
const CITY: Size = Size {
    records: 60_000,
    ipv4: 500_000,
    ipv6: 150_000,
};

/// A Country database to be exported.
const COUNTRY: Size = Size {
    records: 250,
    ipv4: 1_200_000,
    ipv6: 400_000,
};

/// All of a City database as lines of JSON.
pub(crate) fn export_city(
    alloc: Global,
    seed: u64,
    divisor: u32,
    digest: &mut Digest,
) -> anyhow::Result<()> {
    let bytes = city_database(alloc, seed, Day::First, CITY.over(divisor))?;
    let files = files_of(bytes.as_slice(), &[]);
    run_program(alloc, &files, &["mmdb", "export", "here.mmdb"], &[], digest)
}

#[rattlefmt::skip]
const COUNTRY_RUNS: &[&[&str]] = &[
    &["mmdb", "export", "here.mmdb", "--format", "csv", "--field", "country.iso_code", "--field", "country.names.en"],
    &["mmdb", "export", "here.mmdb", "--field", "country.iso_code"],
    &["mmdb", "export", "here.mmdb"],
];

/// All of a Country database as CSV, by a field, and as lines of JSON.
pub(crate) fn export_country(
    alloc: Global,
    seed: u64,
    divisor: u32,
    digest: &mut Digest,
) -> anyhow::Result<()> {
    let bytes = country_database(alloc, seed, 5, COUNTRY.over(divisor.min(10)))?;
    let files = files_of(bytes.as_slice(), &[]);
    for words in COUNTRY_RUNS {
        run_program(alloc, &files, words, &[], digest)?;
    }
    Ok(())
}
