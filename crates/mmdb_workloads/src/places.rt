//! Continents, countries and subdivisions, which records share.
use crate::keys::Key;
use crate::names::{Languages, put_names};
use crate::random::Random;
use crate::section::{Kind, Section};
use std::alloc::{AllocError, Global};

/// How many countries there are.
pub(crate) const COUNTRIES: usize = 250;

/// How many subdivisions a country has.
pub(crate) const SUBDIVISIONS: usize = 12;

const CONTINENTS: &[&str] = &["AF", "AN", "AS", "EU", "NA", "OC", "SA"];

/// The maps that records share, by where each stands.
#[derive(Drop)]
pub(crate) struct Places {
    continents: Vec<u32>,
    countries: Vec<u32>,
    subdivisions: Vec<u32>,
}

// One of the letters from A on.
fn letter(number: usize) -> char {
    char::from((number % 26) as u8 + b'A')
}

// A code of two letters, another one for each of the first 676 numbers. The first one is US.
fn code_of(alloc: Global, number: usize) -> Result<String, AllocError> {
    let code = (number % 676 + 538) % 676;
    let mut text = String::new(alloc);
    text.push(letter(code / 26))?;
    text.push(letter(code % 26))?;
    Ok(text)
}

// A number of a place.
fn put_geoname_id(random: &mut Random, section: &mut Section) -> Result<(), AllocError> {
    section.key(Key::GeonameId)?;
    let id = random.below(12_000_000) as u64;
    section.integer(Kind::U32, id)
}

fn put_continent(
    alloc: Global,
    random: &mut Random,
    code: &str,
    section: &mut Section,
) -> Result<(), AllocError> {
    section.header(Kind::Map, 3)?;
    section.key(Key::Code)?;
    section.text(code)?;
    put_geoname_id(random, section)?;
    put_names(alloc, random, Languages::All, section)
}

fn put_country(
    alloc: Global,
    random: &mut Random,
    number: usize,
    section: &mut Section,
) -> Result<(), AllocError> {
    let is_in_union = number % 9 == 5;
    section.header(Kind::Map, 3 + usize::from(is_in_union))?;
    put_geoname_id(random, section)?;
    if is_in_union {
        section.key(Key::IsInEuropeanUnion)?;
        section.truth(true)?;
    }
    section.key(Key::IsoCode)?;
    let code = code_of(alloc, number)?;
    section.text(code.as_str())?;
    put_names(alloc, random, Languages::All, section)
}

fn put_subdivision(
    alloc: Global,
    random: &mut Random,
    number: usize,
    section: &mut Section,
) -> Result<(), AllocError> {
    section.header(Kind::Map, 3)?;
    put_geoname_id(random, section)?;
    section.key(Key::IsoCode)?;
    let code = code_of(alloc, number % 676 * 7 % 676)?;
    section.text(code.as_str())?;
    let languages = if random.chance(128) {
        Languages::All
    } else {
        Languages::English
    };
    put_names(alloc, random, languages, section)
}

fn put_city(alloc: Global, random: &mut Random, section: &mut Section) -> Result<(), AllocError> {
    section.header(Kind::Map, 2)?;
    put_geoname_id(random, section)?;
    let languages = if random.chance(64) {
        Languages::All
    } else {
        Languages::English
    };
    put_names(alloc, random, languages, section)
}

// The offset at a place of some.
fn at(offsets: &Vec<u32>, place: usize) -> u32 {
    offsets.get(place).copied().unwrap_or(0)
}

impl Places {
    /// New ones, which stand in a section from now on.
    pub(crate) fn put(
        alloc: Global,
        random: &mut Random,
        section: &mut Section,
    ) -> Result<Places, AllocError> {
        let mut places = Places {
            continents: Vec::new(alloc),
            countries: Vec::new(alloc),
            subdivisions: Vec::new(alloc),
        };
        for code in CONTINENTS {
            places.continents.push(section.place())?;
            put_continent(alloc, random, *code, section)?;
        }
        for number in 0..COUNTRIES {
            places.countries.push(section.place())?;
            put_country(alloc, random, number, section)?;
        }
        for number in 0..COUNTRIES * SUBDIVISIONS {
            places.subdivisions.push(section.place())?;
            put_subdivision(alloc, random, number, section)?;
        }
        Ok(places)
    }

    /// A country, which is met the more often the lower its number is.
    pub(crate) fn any_country(random: &mut Random) -> usize {
        if random.chance(40) {
            return 0;
        }
        let first = random.below(COUNTRIES);
        first.min(random.below(COUNTRIES))
    }

    // The continent and the country of a record.
    fn put_country_of(&self, country: usize, section: &mut Section) -> Result<(), AllocError> {
        section.key(Key::Continent)?;
        section.pointer(at(&self.continents, country % 7))?;
        section.key(Key::Country)?;
        section.pointer(at(&self.countries, country))
    }

    // The country that a record's network is registered in: mostly the same.
    fn put_registered(
        &self,
        random: &mut Random,
        country: usize,
        others_of_256: u32,
        section: &mut Section,
    ) -> Result<(), AllocError> {
        let registered = if random.chance(others_of_256) {
            random.below(COUNTRIES)
        } else {
            country
        };
        section.key(Key::RegisteredCountry)?;
        section.pointer(at(&self.countries, registered))
    }

    /// A record of a country, of which some in 256 are registered in any other; where it stands.
    pub(crate) fn put_country_record(
        &self,
        random: &mut Random,
        others_of_256: u32,
        section: &mut Section,
    ) -> Result<u32, AllocError> {
        let country = Places::any_country(random);
        let has_traits = random.chance(3);
        let place = section.place();
        section.header(Kind::Map, 3 + usize::from(has_traits))?;
        self.put_country_of(country, section)?;
        self.put_registered(random, country, others_of_256, section)?;
        if has_traits {
            section.key(Key::Traits)?;
            section.header(Kind::Map, 1)?;
            section.key(Key::IsAnycast)?;
            section.truth(true)?;
        }
        Ok(place)
    }

    /// A record of a city in a country, with the map of a city where one is given; where it stands.
    pub(crate) fn put_city_record(
        &self,
        alloc: Global,
        random: &mut Random,
        country: usize,
        city: &mut Option<u32>,
        section: &mut Section,
    ) -> Result<u32, AllocError> {
        let is_known = random.chance(218);
        let has_postal = is_known && random.chance(180);
        let has_part = is_known && random.chance(200);
        let place = section.place();
        let count = 4 + usize::from(is_known) + usize::from(has_postal) + usize::from(has_part);
        section.header(Kind::Map, count)?;
        if is_known {
            put_city_of(alloc, random, city, section)?;
        }
        self.put_country_of(country, section)?;
        put_location(random, country, section)?;
        if has_postal {
            put_postal(alloc, random, section)?;
        }
        self.put_registered(random, country, 13, section)?;
        if has_part {
            self.put_subdivisions(random, country, section)?;
        }
        Ok(place)
    }

    // One subdivision of a country, or in one of eight records two.
    fn put_subdivisions(
        &self,
        random: &mut Random,
        country: usize,
        section: &mut Section,
    ) -> Result<(), AllocError> {
        let count = 1 + usize::from(random.chance(32));
        section.key(Key::Subdivisions)?;
        section.header(Kind::Array, count)?;
        for _ in 0..count {
            let part = random.below(SUBDIVISIONS);
            let place = (country % COUNTRIES * SUBDIVISIONS).saturating_add(part);
            section.pointer(at(&self.subdivisions, place))?;
        }
        Ok(())
    }
}

// The city of a record: the last one of its country, or a new one.
fn put_city_of(
    alloc: Global,
    random: &mut Random,
    last: &mut Option<u32>,
    section: &mut Section,
) -> Result<(), AllocError> {
    section.key(Key::City)?;
    let is_new = random.chance(141);
    match *last {
        Some(place) if !is_new => section.pointer(place),
        _ => {
            *last = Some(section.place());
            put_city(alloc, random, section)
        }
    }
}

// A number with four decimal digits, between one and another.
fn degrees(random: &mut Random, most: usize) -> f64 {
    let steps = (random.below(most.saturating_mul(20_000)) as u64 & 0xffff_ffff) as u32;
    f64::from(steps) / 10_000.0 - f64::from((most & 0xff) as u32)
}

const ZONES: &[&str] = &[
    "America/New_York",
    "America/Chicago",
    "Europe/Berlin",
    "Europe/London",
    "Asia/Tokyo",
    "Asia/Shanghai",
    "Australia/Sydney",
    "America/Argentina/Buenos_Aires",
    "Africa/Lagos",
    "Pacific/Auckland",
];

// Where a record's address is.
fn put_location(
    random: &mut Random,
    country: usize,
    section: &mut Section,
) -> Result<(), AllocError> {
    let has_metro = country == 0 && random.chance(205);
    section.key(Key::Location)?;
    section.header(Kind::Map, 4 + usize::from(has_metro))?;
    section.key(Key::AccuracyRadius)?;
    section.integer(Kind::U16, 1 << (random.below(10) & 15))?;
    section.key(Key::Latitude)?;
    section.double(degrees(random, 90))?;
    section.key(Key::Longitude)?;
    section.double(degrees(random, 180))?;
    if has_metro {
        section.key(Key::MetroCode)?;
        section.integer(Kind::U16, random.below(380).saturating_add(500) as u64)?;
    }
    section.key(Key::TimeZone)?;
    section.text(random.text_of(ZONES))
}

// A postal code.
fn put_postal(alloc: Global, random: &mut Random, section: &mut Section) -> Result<(), AllocError> {
    section.key(Key::Postal)?;
    section.header(Kind::Map, 1)?;
    section.key(Key::Code)?;
    let number = random.below(100_000);
    let code: String = format!(in alloc; "{number:05}")?;
    section.text(code.as_str())
}
