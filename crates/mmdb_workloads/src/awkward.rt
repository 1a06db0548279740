//! Inputs that are hard: long containers, deep values, pointers to pointers' targets, records met once, odd logs.
use crate::cities::{Day, Size, city_database, country_database};
use crate::database::{RecordSize, Records, file_of};
use crate::digest::Digest;
use crate::keys::Key;
use crate::logs::Clients;
use crate::program::{files_of, run_program};
use crate::random::Random;
use crate::section::{Kind, Section};
use crate::tree::{To, Tree};
use std::alloc::{AllocError, Global};

/// A City database whose records are mostly met once, by addresses of IPv6 alone.
const ONCE: Size = Size {
    records: 80_000,
    ipv4: 100,
    ipv6: 100_000,
};

/// A Country database whose networks are registered anywhere.
const APART: Size = Size {
    records: 80_000,
    ipv4: 120_000,
    ipv6: 40_000,
};

/// How many values a long array has.
const LONG: usize = 4000;

/// How deep maps nest.
const DEEP: usize = 60;

// An array of integers and of texts of Russian.
fn put_long(random: &mut Random, section: &mut Section) -> Result<u32, AllocError> {
    let place = section.place();
    section.header(Kind::Map, 2)?;
    section.key(Key::List)?;
    section.header(Kind::Array, LONG)?;
    for _ in 0..LONG / 2 {
        section.integer(Kind::U32, u64::from(random.bits()))?;
        section.text("Нижний Новгород")?;
    }
    section.key(Key::Code)?;
    section.integer(Kind::U64, random.word())?;
    Ok(place)
}

// A map with a map in it, and so on; each but the first behind a pointer to the one that was put before it.
fn put_chain(random: &mut Random, section: &mut Section) -> Result<u32, AllocError> {
    let mut inner = section.place();
    section.text("こんにちは")?;
    for _ in 0..DEEP {
        let place = section.place();
        section.header(Kind::Map, 2)?;
        section.key(Key::Code)?;
        section.integer(Kind::U16, u64::from(random.bits() & 0xffff))?;
        section.key(Key::Next)?;
        section.pointer(inner)?;
        inner = place;
    }
    Ok(inner)
}

// Records that are long or deep; where each stands.
fn put_hard(
    alloc: Global,
    random: &mut Random,
    count: usize,
    section: &mut Section,
) -> Result<Vec<u32>, AllocError> {
    let mut records = Vec::new(alloc);
    for number in 0..count {
        if number % 16 == 0 {
            records.push(put_long(random, section)?)?;
        } else {
            records.push(put_chain(random, section)?)?;
        }
    }
    Ok(records)
}

// A tree that has one leaf 128 levels down, and so many of IPv4.
fn hard_tree(
    alloc: Global,
    random: &mut Random,
    records: &[u32],
    count: u32,
) -> Result<Tree, AllocError> {
    let mut tree = Tree::new(alloc)?;
    let below = tree.add_way(0, 0, 95)?;
    let mut leaves = Records::new(random.word(), records, false, 0);
    tree.grow(alloc, random, (below, 32, count), 16, &mut leaves)?;
    let deepest = tree.add_way(1, random.word() as u128 * 0x1_0000_0001, 127)?;
    tree.set(deepest, To::Data(records.first().copied().unwrap_or(0)));
    Ok(tree)
}

// A database of hard records.
fn hard_database(alloc: Global, seed: u64, divisor: u32) -> Result<Vec<u8>, AllocError> {
    let mut random = Random::of(seed);
    let mut section = Section::new(alloc)?;
    let count = 400 / divisor.clamp(1, 20);
    let records = put_hard(alloc, &mut random, count as usize, &mut section)?;
    let tree = hard_tree(
        alloc,
        &mut random,
        records.as_slice(),
        count.saturating_mul(8),
    )?;
    file_of(alloc, "Hard", &tree, RecordSize::Bits28, &section)
}

#[rattlefmt::skip]
const ONCE_RUNS: &[&[&str]] = &[
    &["mmdb", "export", "here.mmdb"],
    &["mmdb", "export", "here.mmdb", "--format", "csv", "--field", "city.names", "--field", "location.latitude"],
    &["mmdb", "export", "here.mmdb", "--where", "city.names.en=Karito", "--format", "cidr"],
];

#[rattlefmt::skip]
const APART_RUNS: &[&[&str]] = &[
    &["mmdb", "verify", "here.mmdb"],
    &["mmdb", "export", "here.mmdb", "--format", "csv", "--field", "registered_country.iso_code"],
    &["mmdb", "diff", "here.mmdb", "new.mmdb", "--format", "csv", "--field", "registered_country.iso_code"],
];

#[rattlefmt::skip]
const HARD_RUNS: &[&[&str]] = &[
    &["mmdb", "verify", "here.mmdb"],
    &["mmdb", "export", "here.mmdb"],
    &["mmdb", "export", "here.mmdb", "--field", "list.-1", "--field", "next.next.next.code"],
];

#[rattlefmt::skip]
const ODD: &[&str] = &["mmdb", "enrich", "here.mmdb", "--column", "101", "--field", "country.iso_code"];

#[rattlefmt::skip]
const ODD_JSON: &[&str] = &["mmdb", "enrich", "here.mmdb", "--json", "peer.ip", "--into", "place", "--field", "country"];

#[rattlefmt::skip]
const LONG_ROWS: &[&str] = &["mmdb", "enrich", "here.mmdb", "--field", "country.iso_code"];

// Runs over two databases.
fn run_all(
    alloc: Global,
    here: &[u8],
    newer: &[u8],
    runs: &[&[&str]],
    digest: &mut Digest,
) -> anyhow::Result<()> {
    let files = files_of(here, newer);
    for words in runs {
        run_program(alloc, &files, words, &[], digest)?;
    }
    Ok(())
}

// Odd logs, with what a database has.
fn enrich_odd(
    alloc: Global,
    here: &[u8],
    seed: u64,
    divisor: u32,
    digest: &mut Digest,
) -> anyhow::Result<()> {
    let files = files_of(here, &[]);
    let mut clients = Clients::new(alloc, seed, 30)?;
    let mut lines = Vec::new(alloc);
    for _ in 0..120_000 / divisor.max(1) {
        clients.put_odd(&mut lines)?;
    }
    run_program(alloc, &files, ODD, lines.as_slice(), digest)?;
    lines.clear();
    for _ in 0..60_000 / divisor.max(1) {
        clients.put_odd_json(&mut lines)?;
    }
    run_program(alloc, &files, ODD_JSON, lines.as_slice(), digest)?;
    lines.clear();
    for _ in 0..200 / divisor.clamp(1, 50) {
        clients.put_long(&mut lines)?;
    }
    run_program(alloc, &files, LONG_ROWS, lines.as_slice(), digest)
}

/// All of them.
pub(crate) fn awkward(
    alloc: Global,
    seed: u64,
    divisor: u32,
    digest: &mut Digest,
) -> anyhow::Result<()> {
    let once = city_database(alloc, seed, Day::First, ONCE.over(divisor))?;
    run_all(alloc, once.as_slice(), &[], ONCE_RUNS, digest)?;
    let size = APART.over(divisor.min(100));
    let apart = country_database(alloc, seed, 255, size)?;
    let newer = country_database(alloc, seed.wrapping_add(1), 255, size)?;
    run_all(
        alloc,
        apart.as_slice(),
        newer.as_slice(),
        APART_RUNS,
        digest,
    )?;
    let hard = hard_database(alloc, seed, divisor)?;
    run_all(alloc, hard.as_slice(), &[], HARD_RUNS, digest)?;
    enrich_odd(alloc, apart.as_slice(), seed, divisor, digest)
}
