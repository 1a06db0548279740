//! Worked rows: bytes, and what is read of them or reported.
use super::parts::{Parts, parts_reported, rejected};
use mmdb_geoip2::{City, Country, Domain, Enterprise, MAX_SUBDIVISIONS};
use mmdb_record::decode::Decode;
use mmdb_record::first_value::decode;
use mmdb_vectors::answer::{OK, reported};
use mmdb_vectors::failures::Failures;
use mmdb_vectors::section::section_of;
use std::alloc::{AllocError, Global};

/// A record of which rows report.
#[derive(Clone, Copy, Debug)]
enum Kind {
    Country,
    City,
    Enterprise,
    Domain,
}

// What is reported of a section that is read as a record.
fn reported_as(alloc: Global, kind: Kind, section: &[u8]) -> Result<String, AllocError> {
    match kind {
        Kind::Country => reported(alloc, decode::<Country<'_>>(alloc, section)),
        Kind::City => reported(alloc, decode::<City<'_>>(alloc, section)),
        Kind::Enterprise => reported(alloc, decode::<Enterprise<'_>>(alloc, section)),
        Kind::Domain => reported(alloc, decode::<Domain<'_>>(alloc, section)),
    }
}

// A field of each part of the record that a section is read as.
fn parts_as(alloc: Global, kind: Kind, section: &[u8]) -> Result<String, AllocError> {
    match kind {
        Kind::Country => parts_reported::<Country<'_>>(alloc, section),
        Kind::City => parts_reported::<City<'_>>(alloc, section),
        Kind::Enterprise => parts_reported::<Enterprise<'_>>(alloc, section),
        Kind::Domain => String::from_str(alloc, "no parts"),
    }
}

/// A record, the beginning of its section, bytes behind it so many times, and a field of each part: of a city its
/// number, its English name and whether it is empty, and how many subdivisions there are.
#[rattlefmt::skip]
const PARTS: &[(Kind, &[u8], &[u8], usize, &str)] = &[
    (
        Kind::City,
        b"\xE1\x44city\xE1\x45names\xE1\x42en\x41A", b"", 0,
        "((None, Some(\"A\"), false), [None, None, None, None, None, None], (0, (None, None)), None)",
    ),
    (
        Kind::Enterprise,
        b"\xE1\x44city\xE1\x4Aconfidence\xA1\x07", b"", 0,
        "([Some(7), None, None, None], [None, None, None, None], [None, None])",
    ),
    (
        Kind::Country,
        b"\xE1\x53represented_country\xE1\x44type\x48military", b"", 0,
        "([None, None, None, Some(\"military\")], None)",
    ),
    (
        Kind::City,
        b"\xE1\x4Csubdivisions\x1D\x04\x03", b"\xE0", 32,
        "((None, None, true), [None, None, None, None, None, None], (32, (None, None)), None)",
    ),
];

#[test]
fn parts_of_records(rt: HostRuntime) -> Result<(), Failures> {
    let (alloc, mut failures) = (rt.alloc(), Failures::new(rt.alloc()));
    for (kind, start, unit, times, text) in PARTS {
        let section = section_of(alloc, &[(*start, 1), (*unit, *times)]);
        failures.expect_text(start, parts_as(alloc, *kind, section.as_slice()), text);
    }
    failures.expect(&"subdivisions", MAX_SUBDIVISIONS == 32);
    failures.verdict()
}

/// Two countries, and bytes behind them so many times; the code of each. They are one map, two maps, or a map and
/// another that begins at its second byte, so that the pairs of both begin at one place.
#[rattlefmt::skip]
const COUNTRIES: &[(&[u8], usize, Option<&str>, Option<&str>)] = &[
    (b"\xE2\x47country\x20\x20\x52registered_country\x20\x20\xE1\x48iso_code\x41c", 0, Some("c"), Some("c")),
    (b"\xE2\x52registered_country\x20\x20\x47country\x20\x20\xE1\x48iso_code\x41c", 0, Some("c"), Some("c")),
    (b"\xE2\x47country\xE1\x48iso_code\x41c\x52registered_country\x20\x09", 0, Some("c"), Some("c")),
    (b"\xE2\x47country\xE1\x48iso_code\x41c\x52registered_country\xE1\x48iso_code\x41g", 0, Some("c"), Some("g")),
    (b"\xE2\x47country\x20\x20\x52registered_country\x20\x2C\xE1\x48iso_code\x41c\xE1\x48iso_code\x41g", 0, Some("c"), Some("g")),
    (b"\xE2\x47country\x20\x20\x52registered_country\x20\x21\xFD\xE0\x48iso_code\x41c", 504, Some("c"), None),
    (b"\xE2\x52registered_country\x20\x20\x47country\x20\x21\xFD\xE0\x48iso_code\x41c", 504, None, Some("c")),
];

type Codes<'a> = (Option<&'a str>, Option<&'a str>);

// Whether the two countries of a record have these codes.
fn has_codes<'de, T: Decode<'de> + Parts>(
    alloc: Global,
    section: &'de [u8],
    codes: Codes<'_>,
) -> bool {
    match decode::<T>(alloc, section) {
        Ok(record) => record.codes() == codes,
        Err(error) => rejected(error),
    }
}

#[test]
fn countries_of_one_map(rt: HostRuntime) -> Result<(), Failures> {
    let (alloc, mut failures) = (rt.alloc(), Failures::new(rt.alloc()));
    for (start, times, country, registered) in COUNTRIES {
        let section = section_of(alloc, &[(*start, 1), (b"\x40", *times)]);
        let (section, codes) = (section.as_slice(), (*country, *registered));
        failures.expect(start, has_codes::<Country<'_>>(alloc, section, codes));
        failures.expect(start, has_codes::<City<'_>>(alloc, section, codes));
    }
    failures.verdict()
}

/// Cities.
#[rattlefmt::skip]
const CITIES: &[(&[u8], &str)] = &[
    (b"\xE0", OK),
    (b"\x20\x02\xE1\x44city\x20\x0A\xE0", OK),
    (b"\x41x", "decoding error at offset 0: expected map, got type 2"),
    (b"\xE1\xA1\x07\xA1\x07", "invalid database at offset 1: expected string, got type 5"),
    (b"\xE2\x44city\xE0\x44city\xE0", "decoding error at offset 12: duplicate field `city`"),
    // A field that stands again is rejected before its value is read.
    (b"\xE2\x44city\xE0\x44city", "decoding error at offset 12: duplicate field `city`"),
    (b"\xE1\x46postal\xE2\x44code\x41x\x44code\x41y", "decoding error at offset 21: duplicate field `code`"),
    (b"\xE2\x4Csubdivisions\x00\x04\x4Csubdivisions\x00\x04", "decoding error at offset 29: duplicate field `subdivisions`"),
    // All numbers but confidences are of exactly their type.
    (b"\xE1\x48location\xE1\x4Ametro_code\xA1\x07", OK),
    (b"\xE1\x48location\xE1\x4Ametro_code\xC1\x07", "decoding error at offset 22: expected u16, got type 6"),
    (b"\xE1\x44city\xE1\x4Ageoname_id\xA1\x07", "decoding error at offset 18: expected u32, got type 5"),
    (b"\xE1\x46traits\xE1\x4Ais_anycast\xA1\x01", "decoding error at offset 20: expected bool, got type 5"),
    (b"\xE1\x46postal\xE1\x44code\x42\xFF\xFE", "invalid database at offset 17: invalid UTF-8 in string"),
    (b"\xE1\x44city\xE1\x45names\x41x", "decoding error at offset 13: expected map, got type 2"),
    (b"\xE1\x48location\xE1\x48latitude\xA1\x07", "decoding error at offset 20: expected double, got type 5"),
    (b"\xE1\x4Csubdivisions\xE0", "decoding error at offset 14: expected array, got type 7"),
    (b"\xE1\x44city\xE1\x42z", "invalid database at offset 7: string length exceeds buffer"),
    // What stands behind an unknown name is skipped: a value of an unknown type, too many values.
    (b"\xE1\x41z\x00\x05", "invalid database at offset 3: unknown data type: 12"),
    (
        b"\xE1\x41z\x1E\x04\xFE\xE3",
        "resource limit exceeded at offset 3: exceeded maximum number of data structure values",
    ),
];

/// Enterprises.
#[rattlefmt::skip]
const ENTERPRISES: &[(&[u8], &str)] = &[
    (b"\xE1\x44city\xE1\x4Aconfidence\xA1\x07", OK),
    (b"\xE1\x44city\xE1\x4Aconfidence\xC1\xFF", OK),
    (b"\xE1\x44city\xE1\x4Aconfidence\x01\x01\x00", OK),
    (b"\xE1\x44city\xE1\x4Aconfidence\x01\x02\x01", OK),
    (b"\xE1\x44city\xE1\x4Aconfidence\xA2\x01\x00", "decoding error at offset 21: number out of range"),
    (b"\xE1\x44city\xE1\x4Aconfidence\x04\x01\xFF\xFF\xFF\xFF", "decoding error at offset 24: number out of range"),
    (b"\xE1\x44city\xE1\x4Aconfidence\x41x", "decoding error at offset 18: expected a whole number"),
    (b"\xE1\x46postal\xE2\x44code\x41x\x4Aconfidence\xA1\x64", OK),
];

/// Domains.
#[rattlefmt::skip]
const DOMAINS: &[(&[u8], &str)] = &[
    (b"\xE2\x46domain\x41x\x46domain\x41y", "decoding error at offset 17: duplicate field `domain`"),
    (b"\xE1\x46domain\x81x", "decoding error at offset 8: expected string, got type 4"),
    (b"\xE1\x46domain\x20\x0A\x41\xFF", "invalid database at offset 10: invalid UTF-8 in string"),
    (b"\xE1\x46domain\x20\x0A\x81x", "decoding error at offset 8: expected string, got type 4"),
];

/// The rows of one record.
type Rows = (Kind, &'static [(&'static [u8], &'static str)]);

const TOLD: &[Rows] = &[
    (Kind::City, CITIES),
    (Kind::Enterprise, ENTERPRISES),
    (Kind::Domain, DOMAINS),
];

#[test]
fn records_reported(rt: HostRuntime) -> Result<(), Failures> {
    let (alloc, mut failures) = (rt.alloc(), Failures::new(rt.alloc()));
    for (kind, rows) in TOLD {
        for (section, text) in *rows {
            failures.expect_text(section, reported_as(alloc, *kind, section), text);
        }
    }
    failures.verdict()
}

/// The beginning of a section, bytes behind it so many times, and what is reported.
type Long = (&'static [u8], &'static [u8], usize, &'static str);

/// Two countries that are one map, and bytes of it so many times: each is charged.
#[rattlefmt::skip]
const CHARGED: &[Long] = &[
    (b"\xE2\x47country\x20\x20\x52registered_country\x20\x20\xFE\x3E\xE1", b"\x40", 32_764, OK),
    (b"\xE2\x47country\x20\x20\x52registered_country\x20\x20\xFE\x3E\xE2", b"\x40", 32_766, "resource limit exceeded at offset 30: exceeded maximum number of data structure values"),
];

/// Arrays of so many empty maps as subdivisions.
#[rattlefmt::skip]
const SUBDIVISIONS: &[Long] = &[
    (b"\xE1\x4Csubdivisions\x00\x04", b"\xE0", 0, OK),
    (b"\xE1\x4Csubdivisions\x1D\x04\x03", b"\xE0", 32, OK),
    (b"\xE1\x4Csubdivisions\x1D\x04\x04", b"\xE0", 33, "decoding error at offset 17: subdivisions exceeds maximum length of 32"),
    (b"\xE1\x4Csubdivisions\x1E\x04\x00\x00", b"\xE0", 285, "decoding error at offset 18: subdivisions exceeds maximum length of 32"),
    (b"\xE1\x4Csubdivisions\x1D\x04\x04", b"\xE0", 32, "invalid database at offset 49: unexpected end of buffer"),
    (b"\xE1\x4Csubdivisions\x1D\x04\x04", b"\xE0", 1, "invalid database at offset 18: unexpected end of buffer"),
];

/// The beginnings of domains of so many letters.
#[rattlefmt::skip]
const LONG_DOMAINS: &[Long] = &[
    (b"\xE1\x46domain\x5F\x1E\xFE\xE3", b"a", 2_097_152, OK),
    (b"\xE1\x46domain\x5F\x1E\xFE\xE4", b"a", 2_097_153, "resource limit exceeded at offset 8: exceeded maximum size of data structure string and bytes values"),
];

/// Unknown fields, whose values are so many arrays within each other: at most 128 are skipped.
#[rattlefmt::skip]
const NESTED: &[Long] = &[
    (b"\xE1\x41z", b"\x01\x04", 127, "invalid database at offset 257: unexpected end of buffer"),
    (b"\xE1\x41z", b"\x01\x04", 128, "invalid database at offset 259: unexpected end of buffer"),
    (
        b"\xE1\x41z",
        b"\x01\x04",
        129,
        "invalid database at offset 259: exceeded maximum data structure depth; database is likely corrupt",
    ),
];

/// Records, and the rows that are reported of each.
const AT_LIMITS: &[(Kind, &[Long])] = &[
    (Kind::Country, CHARGED),
    (Kind::City, CHARGED),
    (Kind::Enterprise, CHARGED),
    (Kind::City, SUBDIVISIONS),
    (Kind::Enterprise, SUBDIVISIONS),
    (Kind::Domain, LONG_DOMAINS),
    (Kind::Domain, NESTED),
];

// What is reported of a row's section.
fn long_reported(alloc: Global, kind: Kind, row: &Long) -> Result<String, AllocError> {
    let section = section_of(alloc, &[(row.0, 1), (row.1, row.2)]);
    reported_as(alloc, kind, section.as_slice())
}

#[test]
fn records_at_limits(rt: HostRuntime) -> Result<(), Failures> {
    let (alloc, mut failures) = (rt.alloc(), Failures::new(rt.alloc()));
    for (kind, rows) in AT_LIMITS {
        for row in *rows {
            failures.expect_text(
                &(*kind, row.0, row.2),
                long_reported(alloc, *kind, row),
                row.3,
            );
        }
    }
    failures.verdict()
}
