//! Hostile values: cycles, fans, overlaps, cut sections, unknown types.
use super::sections::{fan, overlap};
use mmdb_value::fuzzing::{decode, verify};
use mmdb_value::{RawValue, Value};
use mmdb_vectors::answer::{OK, reported};
use mmdb_vectors::failures::Failures;
use std::alloc::Global;

const TOO_DEEP: &str = "exceeded maximum data structure depth; database is likely corrupt";

// Notes where what is said of a section's first value ends otherwise: read as any value, the same not tested,
// and checked.
fn expect_verdicts(failures: &mut Failures, alloc: Global, section: &[u8], endings: [&str; 3]) {
    let [value, raw_value, check] = endings;
    let reported_value = reported(alloc, decode::<Value<'_>>(alloc, section));
    failures.expect_ending(&section, reported_value, value);
    let reported_raw_value = reported(alloc, decode::<RawValue<'_>>(alloc, section));
    failures.expect_ending(&section, reported_raw_value, raw_value);
    failures.expect_ending(&section, reported(alloc, verify(alloc, section)), check);
}

#[test]
fn fans_and_overlaps(rt: HostRuntime) -> Result<(), Failures> {
    let (alloc, mut failures) = (rt.alloc(), Failures::new(rt.alloc()));
    let many = "exceeded maximum number of data structure values";
    let work = "exceeded maximum verification work";
    let section = fan(alloc, 15);
    expect_verdicts(&mut failures, alloc, section.as_slice(), [OK, OK, OK]);
    let section = fan(alloc, 16);
    expect_verdicts(&mut failures, alloc, section.as_slice(), [many, many, OK]);
    let section = overlap(alloc, 41);
    expect_verdicts(&mut failures, alloc, section.as_slice(), [OK, OK, OK]);
    let section = overlap(alloc, 42);
    expect_verdicts(&mut failures, alloc, section.as_slice(), [OK, OK, work]);
    failures.verdict()
}

#[test]
fn cycles(rt: HostRuntime) -> Result<(), Failures> {
    let mut failures = Failures::new(rt.alloc());
    let endings = [
        TOO_DEEP,
        TOO_DEEP,
        "cyclic data pointer references offset 0",
    ];
    for section in [
        b"\x20\x00".as_slice(),
        b"\x20\x02\x20\x00",
        b"\xE1\x41a\x20\x00",
    ] {
        expect_verdicts(&mut failures, rt.alloc(), section, endings);
    }
    failures.verdict()
}

/// Sections each byte of which belongs to their first value.
const WHOLE: &[&[u8]] = &[
    b"\x42\xFF\xFE",
    b"\x82\xFF\xFE",
    b"\x02\x00\x41a\x20\x0A\x41b\x41y\x41x",
    b"\x3D\x00\x00\x00\x05\x41x",
    b"\xE2\x41a\xA1\x01\x41a\xA1\x02",
    b"\xE2\x46domain\x41x\x46domain\x41y",
    b"\x04\x01\xFF\xFF\xFF\xFE",
    b"\x03\x01\xFF\xFF\xFF",
    b"\x01\x07",
    b"\x04\x08\x40\x20\x00\x00",
    b"\x20\x02\x20\x04\x41x",
];

// Whether the value at the beginning of a section is rejected by each reading and by the check.
fn is_rejected(alloc: Global, section: &[u8]) -> bool {
    decode::<Value<'_>>(alloc, section).is_err()
        && decode::<RawValue<'_>>(alloc, section).is_err()
        && verify(alloc, section).is_err()
}

#[test]
fn proper_beginnings(rt: HostRuntime) -> Result<(), Failures> {
    let (alloc, mut failures) = (rt.alloc(), Failures::new(rt.alloc()));
    for section in WHOLE {
        failures.expect(section, decode::<RawValue<'_>>(alloc, section).is_ok());
        for len in 0..section.len() {
            failures.expect(&(*section, len), is_rejected(alloc, &section[..len]));
        }
    }
    failures.verdict()
}

// Notes where a value of an unknown type is not rejected with the type's number.
fn expect_unknown(failures: &mut Failures, alloc: Global, byte: u8) {
    match format!(in alloc; "unknown data type: {}", u32::from(byte) + 7) {
        Ok(text) => expect_verdicts(failures, alloc, &[0x00, byte], [text.as_str(); 3]),
        Err(_) => failures.expect(&byte, false),
    }
}

#[test]
fn unknown_types(rt: HostRuntime) -> Result<(), Failures> {
    let mut failures = Failures::new(rt.alloc());
    for byte in 5..=255u8 {
        if byte != 7 && byte != 8 {
            expect_unknown(&mut failures, rt.alloc(), byte);
        }
    }
    failures.verdict()
}
