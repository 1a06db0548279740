//! Which records are equal, and which say nothing.
use super::parts::{Empty, Parts, rejected};
use mmdb_geoip2::{City, Country, Enterprise, city, country};
use mmdb_record::decode::Decode;
use mmdb_record::first_value::decode;
use mmdb_vectors::equality::equality;
use mmdb_vectors::failures::Failures;
use std::alloc::{AllocError, Global};

/// Countries of which the second is spelled in another way, or differs in one field.
#[rattlefmt::skip]
const COUNTRIES: &[(&[u8], &[u8], bool)] = &[
    (b"\xE0", b"\xE1\x41x\x41y", true),
    (b"\xE0", b"\xE1\x45names\xE0", true),
    (b"\xE0", b"\xE1\x45names\xE1\x42en\x40", false),
    (b"\xE0", b"\xE1\x4Ageoname_id\xC0", false),
    (b"\xE1\x4Ageoname_id\xC1\x07", b"\xE1\x4Ageoname_id\xC2\x00\x07", true),
    (b"\xE1\x4Ageoname_id\xC1\x07", b"\xE1\x4Ageoname_id\xC1\x08", false),
    (b"\xE1\x48iso_code\x41x", b"\xE1\x48iso_code\x41y", false),
    (b"\xE1\x54is_in_european_union\x01\x07", b"\xE1\x54is_in_european_union\x00\x07", false),
    (b"\xE1\x45names\xE1\x42en\x41x", b"\xE1\x45names\xE1\x42de\x41x", false),
];

// What equality says of a value and of what a section is read as.
fn reported_beside<'de, T: Decode<'de> + PartialEq>(
    alloc: Global,
    left: &T,
    section: &'de [u8],
) -> Option<bool> {
    match decode::<T>(alloc, section) {
        Ok(right) => equality(left, &right),
        Err(error) => no_answer(error),
    }
}

fn no_answer<E: Drop>(_error: E) -> Option<bool> {
    None
}

// What equality says of two values.
fn reported_of_two<'de, T: Decode<'de> + PartialEq>(
    alloc: Global,
    a: &'de [u8],
    b: &'de [u8],
) -> Option<bool> {
    match decode::<T>(alloc, a) {
        Ok(left) => reported_beside(alloc, &left, b),
        Err(error) => no_answer(error),
    }
}

// Whether a clone was made, and is the same.
fn is_same<T: PartialEq + Drop>(value: &T, clone: Result<T, AllocError>) -> bool {
    match clone {
        Ok(same) => same == *value,
        Err(_) => false,
    }
}

// Whether a value is empty exactly where it equals the default, and equals its clone.
fn is_sound<'de, T: Decode<'de> + Default + PartialEq + Clone + Empty>(
    alloc: Global,
    section: &'de [u8],
) -> bool {
    match decode::<T>(alloc, section) {
        Ok(value) => {
            let is_default = value == T::default();
            value.says_nothing() == is_default && is_same(&value, value.clone())
        }
        Err(error) => rejected(error),
    }
}

#[test]
fn countries_equal(rt: HostRuntime) -> Result<(), Failures> {
    let (alloc, mut failures) = (rt.alloc(), Failures::new(rt.alloc()));
    for (a, b, is_equal) in COUNTRIES {
        let reported = reported_of_two::<country::Country<'_>>(alloc, a, b);
        failures.expect(&[*a, *b], reported == Some(*is_equal));
        failures.expect(a, is_sound::<country::Country<'_>>(alloc, a));
        failures.expect(b, is_sound::<country::Country<'_>>(alloc, b));
    }
    failures.verdict()
}

// Whether something stands in what a section is read as.
fn stands<'de, T: Decode<'de> + Empty>(alloc: Global, section: &'de [u8]) -> bool {
    match decode::<T>(alloc, section) {
        Ok(value) => !value.says_nothing(),
        Err(error) => rejected(error),
    }
}

// A coordinate is compared by its bits: the two zeros differ. Neither is nothing.
#[test]
fn zeros_differ(rt: HostRuntime) {
    let zero = b"\xE1\x48latitude\x68\0\0\0\0\0\0\0\0";
    let minus = b"\xE1\x48latitude\x68\x80\0\0\0\0\0\0\0";
    let alloc = rt.alloc();
    let reported = reported_of_two::<city::Location<'_>>(alloc, zero, minus);
    let both_stand = stands::<city::Location<'_>>(alloc, zero)
        && stands::<city::Location<'_>>(alloc, minus);
    assert!(rt; both_stand && reported == Some(false));
}

// Whether the record that says nothing has only empty parts.
fn is_nothing<T: Parts + Drop>(alloc: Global) -> bool {
    T::nothing(alloc).says_nothing()
}

// Whether a map without a pair is read as such a record.
fn reads_nothing<'de, T: Decode<'de> + Parts>(alloc: Global) -> bool {
    match decode::<T>(alloc, b"\xE0") {
        Ok(record) => record.says_nothing(),
        Err(error) => rejected(error),
    }
}

#[test]
fn nothing_stands(rt: HostRuntime) {
    let alloc = rt.alloc();
    let city = is_nothing::<City<'_>>(alloc) && reads_nothing::<City<'_>>(alloc);
    let country = is_nothing::<Country<'_>>(alloc);
    let enterprise = is_nothing::<Enterprise<'_>>(alloc);
    assert!(rt;
        city && country && enterprise,
        "{city} {country} {enterprise}"
    );
}
