//! Logs with fields behind their lines.
use crate::cities::{Day, Size, city_database, country_database};
use crate::digest::Digest;
use crate::logs::Clients;
use crate::program::{files_of, run_program};
use mmdb_vectors::file::TestFiles;
use std::alloc::{AllocError, Global};

const CITY: Size = Size {
    records: 30_000,
    ipv4: 300_000,
    ipv6: 50_000,
};

const COUNTRY: Size = Size {
    records: 250,
    ipv4: 200_000,
    ipv6: 50_000,
};

/// The forms of lines.
#[derive(Clone, Copy)]
enum Form {
    Plain,
    Access,
    Csv,
    Json,
}

// So many lines.
fn lines_of(
    alloc: Global,
    clients: &mut Clients,
    form: Form,
    count: u32,
) -> Result<Vec<u8>, AllocError> {
    let mut lines = Vec::new(alloc);
    for _ in 0..count {
        match form {
            Form::Plain => clients.put_plain(&mut lines)?,
            Form::Access => clients.put_access(&mut lines)?,
            Form::Csv => clients.put_csv(&mut lines)?,
            Form::Json => clients.put_json(&mut lines)?,
        }
    }
    Ok(lines)
}

#[rattlefmt::skip]
const RUNS: &[(Form, u32, &[&str])] = &[
    (Form::Plain, 1_000_000, &["mmdb", "enrich", "here.mmdb", "--field", "country.iso_code", "--field", "city.names.en"]),
    (Form::Access, 400_000, &["mmdb", "enrich", "here.mmdb", "--field", "country.iso_code"]),
    (Form::Csv, 600_000, &["mmdb", "enrich", "here.mmdb", "--delimiter", ",", "--column", "3", "--field", "country.iso_code", "--field", "city.names.en"]),
    (Form::Json, 400_000, &["mmdb", "enrich", "here.mmdb", "--json", "client.ip", "--field", "country.iso_code", "--field", "location"]),
];

// Lines of each form, with what a database has.
fn enrich_all(
    alloc: Global,
    clients: &mut Clients,
    files: &TestFiles<'_>,
    divisor: u32,
    digest: &mut Digest,
) -> anyhow::Result<()> {
    for (form, count, words) in RUNS {
        let lines = lines_of(alloc, clients, *form, *count / divisor.max(1))?;
        run_program(alloc, files, words, lines.as_slice(), digest)?;
    }
    Ok(())
}

/// Logs of each form, with fields of a City and of a Country database.
pub(crate) fn enrich(
    alloc: Global,
    seed: u64,
    divisor: u32,
    digest: &mut Digest,
) -> anyhow::Result<()> {
    let mut clients = Clients::new(alloc, seed, 190)?;
    let city = city_database(alloc, seed, Day::First, CITY.over(divisor))?;
    enrich_all(
        alloc,
        &mut clients,
        &files_of(city.as_slice(), &[]),
        divisor,
        digest,
    )?;
    let country = country_database(alloc, seed, 5, COUNTRY.over(divisor.min(10)))?;
    enrich_all(
        alloc,
        &mut clients,
        &files_of(country.as_slice(), &[]),
        divisor.saturating_mul(4),
        digest,
    )
}
