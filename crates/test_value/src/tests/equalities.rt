//! Which values are equal, and which are not.
use mmdb_value::{Decode, Double, Float, Kind, OwnedBytes, RawValue, Value, fuzzing};
use mmdb_vectors::equality::equality;
use mmdb_vectors::failures::Failures;
use std::alloc::Global;

type Pairs = &'static [(&'static [u8], &'static [u8], bool)];

// What equality says of the values of two sections.
fn reported<'de, T: Decode<'de> + PartialEq>(
    alloc: Global,
    a: &'de [u8],
    b: &'de [u8],
) -> Option<bool> {
    let left = fuzzing::decode::<T>(alloc, a).ok()?;
    let right = fuzzing::decode::<T>(alloc, b).ok()?;
    equality(&left, &right)
}

// Notes the pairs of sections of whose values equality says something else.
fn expect_equalities<'de, T: Decode<'de> + PartialEq>(
    failures: &mut Failures,
    alloc: Global,
    pairs: &[(&'de [u8], &'de [u8], bool)],
) {
    for (a, b, is_equal) in pairs {
        failures.expect(&[*a, *b], reported::<T>(alloc, a, b) == Some(*is_equal));
    }
}

/// Values of which the second is spelled in another way, or differs in one part.
#[rattlefmt::skip]
const VALUES: Pairs = &[
    (b"\x41x", b"\x20\x02\x41x", true),
    (b"\x41x", b"\x41y", false),
    (b"\x41x", b"\x81x", false),
    (b"\x81x", b"\x81x", true),
    (b"\x81x", b"\x81y", false),
    (b"\x01\x07", b"\x01\x07", true),
    (b"\x01\x07", b"\x00\x07", false),
    (b"\xA1\x07", b"\xA2\x00\x07", true),
    (b"\xA1\x07", b"\xA1\x08", false),
    (b"\xA1\x07", b"\xC1\x07", false),
    (b"\xC1\x07", b"\xC2\x00\x07", true),
    (b"\xC1\x07", b"\xC1\x08", false),
    (b"\x01\x01\x07", b"\x02\x01\x00\x07", true),
    (b"\x01\x01\x07", b"\x01\x01\x08", false),
    (b"\x01\x02\x07", b"\x02\x02\x00\x07", true),
    (b"\x01\x02\x07", b"\x01\x02\x08", false),
    (b"\x01\x03\x07", b"\x02\x03\x00\x07", true),
    (b"\x01\x03\x07", b"\x01\x03\x08", false),
    (b"\x01\x02\x07", b"\x01\x03\x07", false),
    (b"\x68\0\0\0\0\0\0\0\0", b"\x68\0\0\0\0\0\0\0\0", true),
    (b"\x68\0\0\0\0\0\0\0\0", b"\x68\x80\0\0\0\0\0\0\0", false),
    (b"\x04\x08\0\0\0\0", b"\x04\x08\0\0\0\0", true),
    (b"\x04\x08\0\0\0\0", b"\x04\x08\x80\0\0\0", false),
    (b"\x00\x04", b"\x00\x04", true),
    (b"\x00\x04", b"\xE0", false),
    (b"\xE0", b"\xE0", true),
    (b"\x01\x04\xA1\x07", b"\x01\x04\xA1\x07", true),
    (b"\x01\x04\xA1\x07", b"\x01\x04\xA1\x08", false),
    (b"\x01\x04\xA1\x07", b"\x02\x04\xA1\x07\xA1\x07", false),
    (b"\x02\x04\xA1\x07\xA1\x08", b"\x02\x04\xA1\x08\xA1\x07", false),
    (b"\xE1\x41a\xA1\x07", b"\xE1\x41a\xA1\x07", true),
    (b"\xE1\x41a\xA1\x07", b"\xE1\x41b\xA1\x07", false),
    (b"\xE1\x41a\xA1\x07", b"\xE1\x41a\xA1\x08", false),
    (b"\xE1\x41a\xA1\x07", b"\xE2\x41a\xA1\x07\x41a\xA1\x07", false),
    // The pairs of a map are in file order.
    (b"\xE2\x41a\xA0\x41b\xA0", b"\xE2\x41b\xA0\x41a\xA0", false),
];

#[rattlefmt::skip]
const RAW_TEXTS: Pairs = &[
    (b"\x42\xFF\xFE", b"\x42\xFF\xFE", true),
    (b"\x42\xFF\xFE", b"\x42\xFF\xFF", false),
    (b"\xE1\x41\xFF\xA0", b"\xE1\x41\xFF\xA0", true),
    (b"\xE1\x41\xFF\xA0", b"\xE1\x41\xFE\xA0", false),
];

/// Numbers are compared as bits: zeros of two signs differ, and a NaN is equal to itself.
#[rattlefmt::skip]
const DOUBLES: Pairs = &[
    (b"\x68\x40\x04\0\0\0\0\0\x01", b"\x68\x40\x04\0\0\0\0\0\x01", true),
    (b"\x68\x40\x04\0\0\0\0\0\x01", b"\x68\x40\x04\0\0\0\0\0\x00", false),
    (b"\x68\0\0\0\0\0\0\0\0", b"\x68\x80\0\0\0\0\0\0\0", false),
    (b"\x68\x7F\xF8\0\0\0\0\0\0", b"\x68\x7F\xF8\0\0\0\0\0\0", true),
    (b"\x68\x7F\xF8\0\0\0\0\0\0", b"\x68\x7F\xF8\0\0\0\0\0\x01", false),
];

#[rattlefmt::skip]
const FLOATS: Pairs = &[
    (b"\x04\x08\x40\x20\0\0", b"\x04\x08\x40\x20\0\0", true),
    (b"\x04\x08\x40\x20\0\0", b"\x04\x08\x40\x20\0\x01", false),
    (b"\x04\x08\0\0\0\0", b"\x04\x08\x80\0\0\0", false),
    (b"\x04\x08\x7F\xC0\0\0", b"\x04\x08\x7F\xC0\0\0", true),
];

#[rattlefmt::skip]
const BYTES: Pairs = &[
    (b"\x82\xFF\xFE", b"\x82\xFF\xFE", true),
    (b"\x82\xFF\xFE", b"\x82\xFF\xFF", false),
    (b"\x82\xFF\xFE", b"\x81\xFF", false),
    (b"\x80", b"\x80", true),
];

#[test]
fn values_that_are_equal(rt: HostRuntime) -> Result<(), Failures> {
    let (alloc, mut failures) = (rt.alloc(), Failures::new(rt.alloc()));
    expect_equalities::<Value<'_>>(&mut failures, alloc, VALUES);
    expect_equalities::<RawValue<'_>>(&mut failures, alloc, VALUES);
    expect_equalities::<RawValue<'_>>(&mut failures, alloc, RAW_TEXTS);
    expect_equalities::<Double>(&mut failures, alloc, DOUBLES);
    expect_equalities::<Float>(&mut failures, alloc, FLOATS);
    expect_equalities::<OwnedBytes>(&mut failures, alloc, BYTES);
    failures.verdict()
}

const KINDS: [Kind; 14] = [
    Kind::Text,
    Kind::Double,
    Kind::Bytes,
    Kind::U16,
    Kind::U32,
    Kind::Map,
    Kind::I32,
    Kind::U64,
    Kind::U128,
    Kind::Array,
    Kind::Bool,
    Kind::Float,
    Kind::Unknown(12),
    Kind::Unknown(13),
];

#[test]
fn kinds(rt: HostRuntime) -> Result<(), Failures> {
    let mut failures = Failures::new(rt.alloc());
    for (i, a) in KINDS.iter().enumerate() {
        for (j, b) in KINDS.iter().enumerate() {
            failures.expect(&[*a, *b], equality(a, b) == Some(i == j));
        }
    }
    failures.verdict()
}
