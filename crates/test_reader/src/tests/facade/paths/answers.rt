//! What paths into small records find, and how they fail.
use super::vectors::{RECORD, Wanted, file_of, is_other_met, reported_at};
use maxminddb::PathElement::{Index, IndexFromEnd, Key};
use maxminddb::{LookupResult, PathElement, Reader, Value, path};
use mmdb_vectors::base::{high, low};
use mmdb_vectors::failures::Failures;
use std::alloc::Global;

/// Data, a path, what is asked for at its end, and the answer. The data begin at 22 in the file: there an
/// offset of `InvalidDatabase` counts from the start of the file, any other from that of the data.
#[rattlefmt::skip]
const ROWS: &[(&[u8], &[PathElement<'static>], Wanted, &str)] = &[
    (RECORD, &[Key("a"), Index(0)], Wanted::U16, "Some(5)"),
    (RECORD, &[Key("a"), IndexFromEnd(0)], Wanted::U16, "Some(6)"),
    (RECORD, &[Key("a"), IndexFromEnd(1)], Wanted::SmallNumber, "Some(5)"),
    (RECORD, &[Key("a")], Wanted::List, "Some([5, 6])"),
    (RECORD, &[Key("b"), Key("c")], Wanted::Text, "Some(\"x\")"),
    (RECORD, &[Key("a"), Index(2)], Wanted::U16, "None"),
    (RECORD, &[Key("a"), IndexFromEnd(2)], Wanted::U16, "None"),
    (RECORD, &[Key("c"), Key("x")], Wanted::U16, "None"),
    (
        RECORD,
        &[Key("b"), Index(0)],
        Wanted::U16,
        "decoding error at offset 11 (path: /b/0): expected array for Index(0), got type 7",
    ),
    (
        RECORD,
        &[Key("b"), IndexFromEnd(0), Key("y")],
        Wanted::U16,
        "decoding error at offset 11 (path: /b/-1): expected array for IndexFromEnd(0), got type 7",
    ),
    (
        RECORD,
        &[Key("a"), Key("x")],
        Wanted::U16,
        "decoding error at offset 3 (path: /a/x): expected map for Key(\"x\"), got type 11",
    ),
    (
        RECORD,
        &[Key("a"), Index(0)],
        Wanted::Text,
        "decoding error at offset 5 (path: /a/0): expected string, got type 5",
    ),
    (RECORD, &[], Wanted::U16, "decoding error at offset 0: expected u16, got type 7"),
    // two equal keys
    (b"\xE2\x41a\xA1\x01\x41a\xA1\x02", &[Key("a")], Wanted::U16, "Some(1)"),
    (b"\xE2\x41a\xA1\x01\x41a\xA1\x02", &[Key("b")], Wanted::U16, "None"),
    (
        b"\xE2\x41a\xA1\x01\x41a\xA1\x02",
        &[Index(0)],
        Wanted::U16,
        "decoding error at offset 0 (path: /0): expected array for Index(0), got type 7",
    ),
    // containers behind pointers
    (b"\xE1\x41a\x20\x06\xA0\x01\x04\xA1\x07", &[Key("a"), Index(0)], Wanted::U16, "Some(7)"),
    (
        b"\xE1\x41a\x20\x05\x20\x00",
        &[Key("a"), Key("x")],
        Wanted::U16,
        "invalid database at offset 25: pointer points to another pointer",
    ),
    // what stands behind the value that a path leads to is not looked at: no key, and a value of no type
    (b"\xE2\x41a\xA1\x07\xFF", &[Key("a")], Wanted::U16, "Some(7)"),
    (b"\x02\x04\xA1\x07\x00\x05", &[Index(0)], Wanted::U16, "Some(7)"),
    // elements that are missing: none of them is passed where the index is out of range
    (b"\x02\x04", &[Index(2)], Wanted::U16, "None"),
    (b"\x02\x04", &[IndexFromEnd(2)], Wanted::U16, "None"),
    (b"\x02\x04", &[Index(1)], Wanted::U16, "invalid database at offset 24: unexpected end of buffer"),
    (
        b"\x02\x04\xA1\x07",
        &[IndexFromEnd(0)],
        Wanted::U16,
        "invalid database at offset 26: unexpected end of buffer",
    ),
    // types that are unknown, up to 255 and above
    (
        b"\xE1\x41a\x00\x05",
        &[Key("a"), Key("x")],
        Wanted::U16,
        "decoding error at offset 3 (path: /a/x): expected map for Key(\"x\"), got type 12",
    ),
    (
        b"\xE1\x41a\x00\xFF",
        &[Key("a"), Key("x")],
        Wanted::U16,
        "invalid database at offset 25: unknown data type: 262",
    ),
    (
        b"\xE1\x41a\x00\xFF",
        &[Key("a"), Index(0)],
        Wanted::U16,
        "invalid database at offset 25: unknown data type: 262",
    ),
    (
        b"\xE1\x41a\x00\xFF",
        &[Key("a")],
        Wanted::U16,
        "invalid database at offset 25: unknown data type: 262",
    ),
    (
        b"\xE2\x41a\x00\x05\x41b\xA1\x01",
        &[Key("b")],
        Wanted::U16,
        "invalid database at offset 25: unknown data type: 12",
    ),
    // bytes that are no key and no value
    (
        b"\xE1\xA1\x07\xA0",
        &[Key("a")],
        Wanted::U16,
        "invalid database at offset 23: expected string, got type 5",
    ),
    (b"\xE1\x41a\x42x", &[Key("a")], Wanted::Text, "invalid database at offset 25: string of size 2"),
];

#[test]
fn paths(rt: HostRuntime) -> Result<(), Failures> {
    let (alloc, mut failures) = (rt.alloc(), Failures::new(rt.alloc()));
    for (data, path, wanted, text) in ROWS {
        failures.expect_text(
            &(*data, *path),
            reported_at(alloc, data, path, *wanted),
            text,
        );
    }
    failures.verdict()
}

/// What the error says of a path that meets a value of another type.
const OTHER_TYPE: &[&str] = &["): expected map for ", "): expected array for "];

#[test]
fn values_of_another_type(rt: HostRuntime) -> Result<(), Failures> {
    let (alloc, mut failures) = (rt.alloc(), Failures::new(rt.alloc()));
    for (data, path, _, text) in ROWS {
        let wanted = OTHER_TYPE.iter().any(|words| text.contains(*words));
        failures.expect(
            &(*data, *path),
            is_other_met(alloc, data, path) == Some(wanted),
        );
    }
    failures.verdict()
}

// Whether a value was read, and another time the same.
fn is_same<T: PartialEq + Drop>(by_path: Option<Option<T>>, whole: Option<Option<T>>) -> bool {
    matches!(&by_path, Some(Some(_))) && by_path == whole
}

// Whether the empty path reads a value, and the one that stands there.
fn is_whole_by_empty_path(alloc: Global, found: LookupResult<'_, &[u8]>) -> bool {
    is_same::<Value<'_>>(found.decode_path(alloc, &[]).ok(), found.decode(alloc).ok())
}

fn is_nothing(alloc: Global, found: LookupResult<'_, &[u8]>, path: &[PathElement<'_>]) -> bool {
    found.decode_path::<u16>(alloc, path).ok() == Some(None)
}

// Whether a record is read whole by the empty path, and where no record stands no path leads to a value.
fn is_whole(alloc: Global, reader: &Reader<&[u8]>) -> bool {
    match (reader.lookup(high()).ok(), reader.lookup(low()).ok()) {
        (Some(found), Some(without)) => {
            is_whole_by_empty_path(alloc, found)
                && is_nothing(alloc, without, &path!["a"])
                && is_nothing(alloc, without, &[])
        }
        _ => false,
    }
}

// The same of a file that may be rejected.
fn is_opened_whole(alloc: Global, opened: Option<Reader<&[u8]>>) -> bool {
    match opened {
        Some(reader) => is_whole(alloc, &reader),
        None => false,
    }
}

#[test]
fn paths_of_whole_records(rt: HostRuntime) {
    let file = file_of(rt.alloc(), RECORD);
    let opened = Reader::from_source(rt.alloc(), file.as_slice()).ok();
    assert!(rt; is_opened_whole(rt.alloc(), opened));
}
