//! Verification, differences, and lists for firewalls.
use crate::cities::{Day, Size, city_database};
use crate::digest::Digest;
use crate::program::{files_of, run_program};
use std::alloc::Global;

const CITY: Size = Size {
    records: 60_000,
    ipv4: 1_800_000,
    ipv6: 500_000,
};

#[rattlefmt::skip]
const RUNS: &[&[&str]] = &[
    &["mmdb", "verify", "here.mmdb", "new.mmdb"],
    &["mmdb", "diff", "here.mmdb", "new.mmdb"],
    &["mmdb", "export", "here.mmdb", "--where", "country.iso_code=US", "--format", "cidr"],
    &["mmdb", "export", "new.mmdb", "--where-not", "country.iso_code=US", "--where", "continent.code=AF", "--format", "nft"],
];

/// A City database of one day and that of the next, in which some records and networks changed.
pub(crate) fn checks(
    alloc: Global,
    seed: u64,
    divisor: u32,
    digest: &mut Digest,
) -> anyhow::Result<()> {
    let size = CITY.over(divisor);
    let old = city_database(alloc, seed, Day::First, size)?;
    let newer = city_database(alloc, seed, Day::Next, size)?;
    let files = files_of(old.as_slice(), newer.as_slice());
    for words in RUNS {
        run_program(alloc, &files, words, &[], digest)?;
    }
    Ok(())
}
