//! Verdicts on values.
use super::sections::{deep, fan, overlap};
use mmdb_value::fuzzing::verify;
use mmdb_value::laws::{no_place_is_met_again, order_is_free};
use mmdb_value::{Checked, check_value};
use mmdb_vectors::answer::{OK, reported};
use mmdb_vectors::failures::Failures;
use mmdb_vectors::section::section_of;
use std::alloc::Global;

/// Too many levels: behind a pointer to a value that is known, and in the last array.
const KNOWN_TOO_DEEP: &str =
    "invalid database at offset 0: exceeded maximum data structure depth; database is likely corrupt";

const LAST_TOO_DEEP: &str =
    "invalid database at offset 198: exceeded maximum data structure depth; database is likely corrupt";

const FAILED: &str = "invalid input: this check has already failed";

/// Sections, and what the check of their first value says.
#[rattlefmt::skip]
const FIRST_VALUES: &[(&[u8], &str)] = &[
    // A pointer to itself, to a pointer, and to the map around it.
    (b"\x20\x00", "invalid database at offset 0: cyclic data pointer references offset 0"),
    (b"\x20\x02\x20\x00", "invalid database at offset 0: cyclic data pointer references offset 0"),
    (b"\x20\x02\x20\x04\x41x", OK),
    (b"\xE1\x41a\x20\x00", "invalid database at offset 0: cyclic data pointer references offset 0"),
    // A key of any type, and one behind a pointer.
    (b"\xE1\xA1\x07\x01\x07", OK),
    (b"\xE1\x20\x05\x01\x07\x41k", OK),
    // Texts are UTF-8, of keys too; bytes need not be.
    (b"\x42\xFF\xFE", "invalid database at offset 0: invalid UTF-8 in string"),
    (b"\xE1\x41\xFF\x01\x07", "invalid database at offset 1: invalid UTF-8 in string"),
    (b"\x82\xFF\xFE", OK),
    // What can't be read.
    (b"", "invalid database at offset 0: unexpected end of buffer"),
    (b"\x28", "invalid database at offset 0: unexpected end of buffer"),
    (b"\x20\x05", "invalid database at offset 5: unexpected end of buffer"),
    (b"\x00\x06", "invalid database at offset 0: unknown data type: 13"),
    (b"\x02\x07", "invalid database at offset 0: bool of size 2"),
    (b"\xA3\x00\x00\x00", "invalid database at offset 0: u16 of size 3"),
    (b"\x41", "invalid database at offset 0: string of size 1"),
    (b"\x02\x04\xA1\x05", "invalid database at offset 4: unexpected end of buffer"),
    // What stands after the first value, and what it does not lead to, is not looked at.
    (b"\x00\x07\x00\x06", OK),
];

#[test]
fn first_values(rt: HostRuntime) -> Result<(), Failures> {
    let (alloc, mut failures) = (rt.alloc(), Failures::new(rt.alloc()));
    for (section, text) in FIRST_VALUES {
        failures.expect_text(section, reported(alloc, verify(alloc, section)), text);
    }
    failures.verdict()
}

/// So many arrays within each other, what stands in the last one, and what the check says.
#[rattlefmt::skip]
const LEVELS: [(usize, &[u8], &str); 4] = [
    (128, b"\x00\x07", OK),
    (
        129,
        b"\x00\x07",
        "invalid database at offset 256: exceeded maximum data structure depth; database is likely corrupt",
    ),
    // A pointer to the bool behind it is a level too.
    (127, b"\x21\x00\x00\x07", OK),
    (
        128,
        b"\x21\x02\x00\x07",
        "invalid database at offset 256: exceeded maximum data structure depth; database is likely corrupt",
    ),
];

#[test]
fn levels_at_the_limit(rt: HostRuntime) -> Result<(), Failures> {
    let (alloc, mut failures) = (rt.alloc(), Failures::new(rt.alloc()));
    for (arrays, last, text) in LEVELS {
        let section = section_of(alloc, &[(b"\x01\x04", arrays), (last, 1)]);
        failures.expect_text(
            &(arrays, last),
            reported(alloc, verify(alloc, section.as_slice())),
            text,
        );
    }
    failures.verdict()
}

// Notes where a section is not of this length, or the check of its first value says something else.
fn expect_verdict(failures: &mut Failures, alloc: Global, section: &[u8], len: usize, text: &str) {
    failures.expect(&section, section.len() == len);
    failures.expect_text(&section, reported(alloc, verify(alloc, section)), text);
}

#[test]
fn work_at_the_limit(rt: HostRuntime) -> Result<(), Failures> {
    let (alloc, mut failures) = (rt.alloc(), Failures::new(rt.alloc()));
    let good = overlap(alloc, 41);
    expect_verdict(&mut failures, alloc, good.as_slice(), 154, OK);
    // An array, 42 pointers and 42 texts of 28 bytes cost 1261, and 8 times 157 is 1256: rejected at the last text.
    let rejected = overlap(alloc, 42);
    let text = "resource limit exceeded at offset 128: exceeded maximum verification work";
    expect_verdict(&mut failures, alloc, rejected.as_slice(), 157, text);
    // What is shared costs once.
    let shared = fan(alloc, 16);
    expect_verdict(&mut failures, alloc, shared.as_slice(), 98, OK);
    failures.verdict()
}

// Notes what checks of places of a section, one after the other, say otherwise.
fn expect_checks(failures: &mut Failures, alloc: Global, section: &[u8], places: &[(usize, &str)]) {
    let Ok(mut checked) = Checked::new(alloc, section) else {
        failures.expect(&places, false);
        return;
    };
    for (place, text) in places {
        let verdict = reported(alloc, check_value(alloc, &mut checked, *place));
        failures.expect_text(&(*place, places), verdict, text);
    }
}

#[test]
fn exact_checks(rt: HostRuntime) -> Result<(), Failures> {
    let (alloc, mut failures) = (rt.alloc(), Failures::new(rt.alloc()));
    // 27 arrays, a pointer and a hundred arrays are 128 levels, in whatever order they are met.
    let good = deep(alloc, 27);
    for places in [[0, 202], [202, 0], [202, 202]] {
        let rows = places.map(|place| (place, OK));
        expect_checks(&mut failures, alloc, good.as_slice(), &rows);
    }
    let rejected = deep(alloc, 28);
    let rows = [(0, OK), (202, KNOWN_TOO_DEEP)];
    expect_checks(&mut failures, alloc, rejected.as_slice(), &rows);
    let rows = [(202, LAST_TOO_DEEP), (0, FAILED)];
    expect_checks(&mut failures, alloc, rejected.as_slice(), &rows);
    failures.verdict()
}

#[test]
fn check_after_an_error(rt: HostRuntime) -> Result<(), Failures> {
    let (alloc, mut failures) = (rt.alloc(), Failures::new(rt.alloc()));
    let rows = [
        (
            0,
            "invalid database at offset 0: cyclic data pointer references offset 0",
        ),
        (0, FAILED),
    ];
    expect_checks(&mut failures, alloc, b"\x20\x00", &rows);
    failures.verdict()
}

#[test]
fn laws_are_called() {
    no_place_is_met_again();
    order_is_free();
}
