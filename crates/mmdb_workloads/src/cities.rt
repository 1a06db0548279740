//! Databases of the shape of GeoLite2.
use crate::database::{RecordSize, file_of, tree_of};
use crate::places::Places;
use crate::random::Random;
use crate::section::Section;
use std::alloc::{AllocError, Global};

/// How large a database is.
#[derive(Clone, Copy)]
pub(crate) struct Size {
    pub(crate) records: usize,
    pub(crate) ipv4: u32,
    pub(crate) ipv6: u32,
}

impl Size {
    /// A part of the size.
    pub(crate) fn over(self, divisor: u32) -> Size {
        Size {
            records: self.records / divisor.max(1) as usize,
            ipv4: self.ipv4 / divisor.max(1),
            ipv6: self.ipv6 / divisor.max(1),
        }
    }
}

/// Of which day a database is. On the next one some records have changed, and some networks have others.
#[derive(Clone, Copy, PartialEq, Eq)]
pub(crate) enum Day {
    First,
    Next,
}

/// So many records of one country stand behind one another.
const TOGETHER: usize = 40;

/// Of so many records one has changed on the next day.
const CHANGED: usize = 130;

// What the draws of a record begin with.
fn seed_of_record(seed: u64, number: usize, day: Day) -> u64 {
    let own = seed.wrapping_mul(1_000_003).wrapping_add(number as u64);
    if day == Day::Next && number % CHANGED == 7 {
        own ^ (1 << 60)
    } else {
        own
    }
}

// Records of cities; where each stands.
fn put_cities(
    alloc: Global,
    random: &mut Random,
    places: &Places,
    origin: (u64, Day),
    count: usize,
    section: &mut Section,
) -> Result<Vec<u32>, AllocError> {
    let mut records = Vec::new(alloc);
    let mut country = 0;
    let mut city = None;
    for number in 0..count {
        if number % TOGETHER == 0 {
            country = Places::any_country(random);
            city = None;
        }
        let mut own = Random::of(seed_of_record(origin.0, number, origin.1));
        records.push(places.put_city_record(alloc, &mut own, country, &mut city, section)?)?;
    }
    Ok(records)
}

/// A City database of a day.
pub(crate) fn city_database(
    alloc: Global,
    seed: u64,
    day: Day,
    size: Size,
) -> Result<Vec<u8>, AllocError> {
    let mut random = Random::of(seed);
    let mut section = Section::new(alloc)?;
    let places = Places::put(alloc, &mut random, &mut section)?;
    let origin = (seed, day);
    let records = put_cities(
        alloc,
        &mut random,
        &places,
        origin,
        size.records,
        &mut section,
    )?;
    let moved_of_256 = if day == Day::Next { 1 } else { 0 };
    let tree = tree_of(
        alloc,
        seed,
        records.as_slice(),
        (size.ipv4, size.ipv6),
        moved_of_256,
    )?;
    file_of(alloc, "GeoLite2-City", &tree, RecordSize::Bits28, &section)
}

/// A Country database, of which some records in 256 are registered in any other country.
pub(crate) fn country_database(
    alloc: Global,
    seed: u64,
    others_of_256: u32,
    size: Size,
) -> Result<Vec<u8>, AllocError> {
    let mut random = Random::of(seed);
    let mut section = Section::new(alloc)?;
    let places = Places::put(alloc, &mut random, &mut section)?;
    let mut records = Vec::new(alloc);
    for _ in 0..size.records {
        records.push(places.put_country_record(&mut random, others_of_256, &mut section)?)?;
    }
    let leaves = (size.ipv4, size.ipv6);
    let tree = tree_of(alloc, seed, records.as_slice(), leaves, 0)?;
    file_of(
        alloc,
        "GeoLite2-Country",
        &tree,
        RecordSize::Bits24,
        &section,
    )
}
