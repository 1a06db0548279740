//! Paths at the limits of values and bytes.
use super::vectors::{Wanted, is_other_met, reported_at};
use maxminddb::PathElement;
use maxminddb::PathElement::{Index, Key};
use mmdb_vectors::failures::Failures;
use mmdb_vectors::section::section_of;

/// What an array begins with, how many falses follow, a path into it, what is asked for at its end, and the
/// answer.
#[rattlefmt::skip]
const ARRAYS: &[(&[u8], usize, &[PathElement<'static>], Wanted, &str)] = &[
    (b"\x1E\x04\xFE\xE2", 65_535, &[Index(0)], Wanted::Bool, "Some(false)"),
    (
        b"\x1E\x04\xFE\xE2",
        65_535,
        &[Key("k")],
        Wanted::Bool,
        "decoding error at offset 0 (path: /k): expected map for Key(\"k\"), got type 11",
    ),
    (
        b"\x1E\x04\xFE\xE3",
        65_536,
        &[Index(0)],
        Wanted::Bool,
        "resource limit exceeded at offset 0 (path: /0): exceeded maximum number of data structure values",
    ),
    (
        b"\x1E\x04\xFE\xE3",
        65_536,
        &[Key("k")],
        Wanted::Bool,
        "resource limit exceeded at offset 0 (path: /k): exceeded maximum number of data structure values",
    ),
    // 65,534 elements, of which the first is an array of one false or of two
    (
        b"\x1E\x04\xFE\xE1\x01\x04\x00\x07",
        65_533,
        &[Index(0)],
        Wanted::Bools,
        "Some([false])",
    ),
    (
        b"\x1E\x04\xFE\xE1\x02\x04\x00\x07\x00\x07",
        65_533,
        &[Index(0)],
        Wanted::Bools,
        "resource limit exceeded at offset 4 (path: /0): exceeded maximum number of data structure values",
    ),
];

/// So many arrays within each other before the value that a path leads to, and the answer. The first array is at 3
/// in the data, which begin at 22 in the file.
#[rattlefmt::skip]
const PASSED: &[(usize, &str)] = &[
    (128, "Some(7)"),
    (129, "invalid database at offset 281: exceeded maximum data structure depth; database is likely corrupt"),
];

#[test]
fn values_that_are_passed(rt: HostRuntime) -> Result<(), Failures> {
    let (alloc, mut failures) = (rt.alloc(), Failures::new(rt.alloc()));
    for (arrays, text) in PASSED {
        let parts: [(&[u8], usize); 3] = [
            (b"\xE2\x41a", 1),
            (b"\x01\x04", *arrays),
            (b"\x00\x07\x41k\xA1\x07", 1),
        ];
        let data = section_of(alloc, &parts);
        let reported = reported_at(alloc, data.as_slice(), &[Key("k")], Wanted::U16);
        failures.expect_text(arrays, reported, text);
    }
    failures.verdict()
}

#[test]
fn values_on_the_way_and_at_its_end(rt: HostRuntime) -> Result<(), Failures> {
    let (alloc, mut failures) = (rt.alloc(), Failures::new(rt.alloc()));
    for (head, count, path, wanted, text) in ARRAYS {
        let data = section_of(alloc, &[(*head, 1), (b"\x00\x07", *count)]);
        let reported = reported_at(alloc, data.as_slice(), path, *wanted);
        failures.expect_text(&(*head, *path), reported, text);
        let is_met = is_other_met(alloc, data.as_slice(), path);
        failures.expect(
            &(*head, *path),
            is_met == Some(text.contains("): expected map for ")),
        );
    }
    failures.verdict()
}

/// What a map with long keys begins with, a pair of it and how many there are, and what is reported of a path to a
/// key that it lacks. The key of each pair is a pointer to one text of 65,536 letters behind the pairs, and its
/// value is a false.
#[rattlefmt::skip]
const MAPS: &[(&[u8], &[u8], usize, &str)] = &[
    (b"\xFD\x03", b"\x20\x82\x00\x07", 32, "None"),
    (
        b"\xFD\x04",
        b"\x20\x86\x00\x07",
        33,
        "resource limit exceeded at offset 130 (path: /k): exceeded maximum size of data structure string and bytes values",
    ),
];

#[test]
fn bytes_of_keys(rt: HostRuntime) -> Result<(), Failures> {
    let (alloc, mut failures) = (rt.alloc(), Failures::new(rt.alloc()));
    for (head, pair, pairs, text) in MAPS {
        let parts = [
            (*head, 1),
            (*pair, *pairs),
            (b"\x5E\xFE\xE3", 1),
            (b"a", 65_536),
        ];
        let data = section_of(alloc, &parts);
        let reported = reported_at(alloc, data.as_slice(), &[Key("k")], Wanted::Bool);
        failures.expect_text(pairs, reported, text);
    }
    failures.verdict()
}
