//! Values at the limits of what is read, and just past them.
use crate::probe::read_probe;
use mmdb_value::{Value, fuzzing};
use mmdb_vectors::answer::{reported, shown};
use mmdb_vectors::failures::Failures;
use mmdb_vectors::section::section_of;
use std::alloc::{AllocError, Global};
use std::collections::BTreeMap;

/// Bytes in parts, each as often as it says.
type Parts = &'static [(&'static [u8], usize)];

/// What a section is read as, and what is reported of it.
#[derive(Clone, Copy)]
enum Wanted {
    /// Any value, of which only is reported that it is read, or the error.
    Any,
    /// Any value, as it is printed. So are the others.
    Value,
    Bools,
    Text,
    Map,
    Probe,
}

/// A name, a section, what it is read as, and what is reported of it.
type Row = (&'static str, Parts, Wanted, Parts);

const FALSES: Parts = &[(b"\x1E\x04\xFE\xE2", 1), (b"\x00\x07", 65_535)];

const ONE_FALSE_MORE: Parts = &[(b"\x1E\x04\xFE\xE3", 1), (b"\x00\x07", 65_536)];

const TOO_MANY_VALUES: Parts = &[(
    b"resource limit exceeded at offset 0: exceeded maximum number of data structure values",
    1,
)];

const OK: Parts = &[(b"ok", 1)];

const LARGE_TEXT: Parts = &[(b"\x5F\x1E\xFE\xE4", 1), (b"a", 2_097_153)];

const LARGE_FIELD: Parts = &[(b"\xE1\x41k\x5F\x1E\xFE\xE3", 1), (b"a", 2_097_152)];

#[rattlefmt::skip]
const ROWS: &[Row] = &[
    (
        "a list of falses",
        FALSES,
        Wanted::Bools,
        &[(b"[", 1), (b"false, ", 65_534), (b"false]", 1)],
    ),
    (
        "any value of falses",
        FALSES,
        Wanted::Value,
        &[(b"Array([", 1), (b"Bool(false), ", 65_534), (b"Bool(false)])", 1)],
    ),
    ("a list of one false more", ONE_FALSE_MORE, Wanted::Bools, TOO_MANY_VALUES),
    ("any value of one false more", ONE_FALSE_MORE, Wanted::Any, TOO_MANY_VALUES),
    // Arrays of pointers to one text of 65,536 bytes, which stands after the head and the pointers: at 3 + 2 * 33 in
    // the second section.
    (
        "32 texts",
        &[(b"\x1D\x04\x03", 1), (b"\x20\x43", 32), (b"\x5E\xFE\xE3", 1), (b"a", 65_536)],
        Wanted::Any,
        OK,
    ),
    (
        "33 texts",
        &[(b"\x1D\x04\x04", 1), (b"\x20\x45", 33), (b"\x5E\xFE\xE3", 1), (b"a", 65_536)],
        Wanted::Any,
        &[(b"resource limit exceeded at offset 69: exceeded maximum size of data structure string and bytes values", 1)],
    ),
    // Arrays of one element around a tail, each of two bytes.
    ("512 levels", &[(b"\x01\x04", 512), (b"\x00\x07", 1)], Wanted::Any, OK),
    (
        "513 levels",
        &[(b"\x01\x04", 513), (b"\x00\x07", 1)],
        Wanted::Any,
        &[(b"invalid database at offset 1024: exceeded maximum data structure depth; database is likely corrupt", 1)],
    ),
    (
        "the pointer of a key, which is no level",
        &[(b"\x01\x04", 511), (b"\x01\x00\x24\x04\x01\x07\x41k", 1)],
        Wanted::Any,
        OK,
    ),
    (
        "the pointer of a value, which is one",
        &[(b"\x01\x04", 511), (b"\x01\x00\x24\x04\x24\x04\x41k", 1)],
        Wanted::Any,
        &[(b"invalid database at offset 1026: exceeded maximum data structure depth; database is likely corrupt", 1)],
    ),
    (
        "a text at the start, which has no budget",
        LARGE_TEXT,
        Wanted::Text,
        &[(b"\"", 1), (b"a", 2_097_153), (b"\"", 1)],
    ),
    (
        "any value that is a text",
        LARGE_TEXT,
        Wanted::Any,
        &[(b"resource limit exceeded at offset 0: exceeded maximum size of data structure string and bytes values", 1)],
    ),
    (
        "a record, whose field has a name that is free",
        LARGE_FIELD,
        Wanted::Probe,
        &[(b"Probe { a: None, k: Some(\"", 1), (b"a", 2_097_152), (b"\") }", 1)],
    ),
    (
        "a map, whose key is charged",
        LARGE_FIELD,
        Wanted::Map,
        &[(b"resource limit exceeded at offset 3: exceeded maximum size of data structure string and bytes values", 1)],
    ),
    (
        "a key that is too long, which is charged in full",
        &[(b"\xE1\x5F\x1E\xFE\xE4", 1), (b"a", 2_097_153), (b"\x41x", 1)],
        Wanted::Map,
        &[(b"resource limit exceeded at offset 1: exceeded maximum size of data structure string and bytes values", 1)],
    ),
    (
        "a name that is too long by one byte, its first 32 free",
        &[(b"\xE1\x5F\x1E\xFF\x04", 1), (b"a", 2_097_185), (b"\x41x", 1)],
        Wanted::Probe,
        &[(b"resource limit exceeded at offset 1: exceeded maximum size of data structure string and bytes values", 1)],
    ),
    (
        "an unknown field of 129 arrays, which is skipped",
        &[(b"\xE1\x41z", 1), (b"\x01\x04", 129), (b"\x00\x07", 1)],
        Wanted::Probe,
        &[(b"invalid database at offset 259: exceeded maximum data structure depth; database is likely corrupt", 1)],
    ),
    (
        "a pointer to the first place that two bytes reach",
        &[(b"\x28\x00\x00", 1), (b"\x00", 2_045), (b"\x41x", 1)],
        Wanted::Value,
        &[(b"String(\"x\")", 1)],
    ),
];

// What is reported of a section.
fn reported_as(alloc: Global, section: &[u8], wanted: Wanted) -> Result<String, AllocError> {
    match wanted {
        Wanted::Any => reported(alloc, fuzzing::decode::<Value<'_>>(alloc, section)),
        Wanted::Value => shown(alloc, fuzzing::decode::<Value<'_>>(alloc, section)),
        Wanted::Bools => shown(alloc, fuzzing::decode::<Vec<bool>>(alloc, section)),
        Wanted::Text => shown(alloc, fuzzing::decode::<&str>(alloc, section)),
        Wanted::Map => shown(
            alloc,
            fuzzing::decode::<BTreeMap<String, &str>>(alloc, section),
        ),
        Wanted::Probe => shown(alloc, read_probe(alloc, section)),
    }
}

// Whether a text has these bytes.
fn is_text(text: &Result<String, AllocError>, bytes: &[u8]) -> bool {
    match text {
        Ok(text) => text.as_bytes() == bytes,
        Err(_) => false,
    }
}

// Whether a row's section is reported as the row wants.
fn is_reported(alloc: Global, row: &Row) -> bool {
    let (_, section, wanted, text) = row;
    let section = section_of(alloc, section);
    let text = section_of(alloc, text);
    is_text(
        &reported_as(alloc, section.as_slice(), *wanted),
        text.as_slice(),
    )
}

#[test]
fn sections_at_the_limits(rt: HostRuntime) -> Result<(), Failures> {
    let mut failures = Failures::new(rt.alloc());
    for row in ROWS {
        failures.expect(&row.0, is_reported(rt.alloc(), row));
    }
    failures.verdict()
}
