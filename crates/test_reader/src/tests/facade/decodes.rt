//! What stands behind a lookup that is not read as it is asked for.
use super::answers::{assert_holds, assert_text, opened, reader_of, reported, to_error};
use maxminddb::geoip2::City;
use maxminddb::{
    Decode, Double, Float, LookupResult, MaxMindDbError, Metadata, OwnedBytes, RawValue, Reader,
    Value,
};
use mmdb_vectors::base::{high, low};
use mmdb_vectors::builder::{BASE, BASE_NODE, file};
use std::alloc::{AllocError, Global};
use std::collections::BTreeMap;
use std::process::Abort;

/// The node of the base file with offset 1 on the right.
const SECOND_NODE: &[u8] = b"\x00\x00\x01\x00\x00\x12";

/// What is asked for.
enum Wanted {
    U16,
    SmallNumber,
    Double,
    Float,
    Text,
    Bytes,
    List,
    Map,
    Record,
    City,
    Any,
    Raw,
}

/// Data, what is asked for at its beginning, and the error.
type Row = (&'static [u8], Wanted, &'static str);

/// The data begin at 22 in the file:
/// there an offset of `InvalidDatabase` counts from the start of the file, any other from that of the data.
#[rattlefmt::skip]
const ROWS: &[Row] = &[
    (b"\x41x", Wanted::U16, "decoding error at offset 0: expected u16, got type 2"),
    (b"\x41x", Wanted::SmallNumber, "decoding error at offset 0: expected a whole number"),
    (b"\xA2\x01\x00", Wanted::SmallNumber, "decoding error at offset 3: number out of range"),
    (b"\xA1\x07", Wanted::Double, "decoding error at offset 0: expected double, got type 5"),
    (b"\xA1\x07", Wanted::Float, "decoding error at offset 0: expected float, got type 5"),
    (b"\xA1\x07", Wanted::Text, "decoding error at offset 0: expected string, got type 5"),
    (b"\x41x", Wanted::Bytes, "decoding error at offset 0: expected bytes, got type 2"),
    (b"\x41x", Wanted::List, "decoding error at offset 0: expected array, got type 2"),
    (b"\x41x", Wanted::Map, "decoding error at offset 0: expected map, got type 2"),
    (b"\x41x", Wanted::Record, "decoding error at offset 0: expected map, got type 2"),
    (
        b"\xE0",
        Wanted::Record,
        "decoding error at offset 1: missing field `binary_format_major_version`",
    ),
    (b"\xE1\x44city\x41x", Wanted::City, "decoding error at offset 6: expected map, got type 2"),
    (
        b"\xE1\x44city\xE1\x45names\xE1\x42en\x41\xFF",
        Wanted::City,
        "invalid database at offset 41: invalid UTF-8 in string",
    ),
    (b"\xA3\0\0\0", Wanted::U16, "invalid database at offset 22: u16 of size 3"),
    (b"\x42x", Wanted::Text, "invalid database at offset 22: string of size 2"),
    (b"\x41\xFF", Wanted::Text, "invalid database at offset 24: invalid UTF-8 in string"),
    (
        b"\x20\x02\x20\x00",
        Wanted::Text,
        "invalid database at offset 22: pointer points to another pointer",
    ),
    (b"\x02\x04\xA1\x07", Wanted::List, "invalid database at offset 26: unexpected end of buffer"),
    (b"\xE1\xA1\x07\xA0", Wanted::Map, "invalid database at offset 23: expected string, got type 5"),
    (b"\x00\x05", Wanted::Any, "invalid database at offset 22: unknown data type: 12"),
    (b"\x20\x05", Wanted::Any, "invalid database at offset 27: unexpected end of buffer"),
    (b"\x41\xFF", Wanted::Any, "invalid database at offset 24: invalid UTF-8 in string"),
    (
        b"\x20\x00",
        Wanted::Any,
        "invalid database at offset 22: exceeded maximum data structure depth; database is likely corrupt",
    ),
    (
        b"\x1E\x04\xFE\xE3",
        Wanted::Any,
        "resource limit exceeded at offset 0: exceeded maximum number of data structure values",
    ),
    (b"\x42x", Wanted::Raw, "invalid database at offset 22: string of size 2"),
];

// What comes of decoding as a type, whose value is let go here.
fn decoded<'a, T: Decode<'a>>(
    alloc: Global,
    found: LookupResult<'a, Vec<u8>>,
) -> Result<(), MaxMindDbError> {
    match found.decode::<T>(alloc) {
        Ok(_) => Ok(()),
        Err(error) => Err(error),
    }
}

fn decoded_as(
    alloc: Global,
    found: LookupResult<'_, Vec<u8>>,
    wanted: &Wanted,
) -> Result<(), MaxMindDbError> {
    match wanted {
        Wanted::U16 => decoded::<u16>(alloc, found),
        Wanted::SmallNumber => decoded::<u8>(alloc, found),
        Wanted::Double => decoded::<Double>(alloc, found),
        Wanted::Float => decoded::<Float>(alloc, found),
        Wanted::Text => decoded::<&str>(alloc, found),
        Wanted::Bytes => decoded::<OwnedBytes>(alloc, found),
        Wanted::List => decoded::<Vec<u16>>(alloc, found),
        Wanted::Map => decoded::<BTreeMap<String, u16>>(alloc, found),
        Wanted::Record => decoded::<Metadata>(alloc, found),
        Wanted::City => decoded::<City<'_>>(alloc, found),
        Wanted::Any => decoded::<Value<'_>>(alloc, found),
        Wanted::Raw => decoded::<RawValue<'_>>(alloc, found),
    }
}

/// Rows for a value at offset 1.
#[rattlefmt::skip]
const SECOND_ROWS: &[Row] = &[
    (b"\xA0\xA1\x07", Wanted::U16, "read"),
    (b"\xA0\xA1\x07", Wanted::Text, "decoding error at offset 1: expected string, got type 5"),
    (b"\xA0\x42x", Wanted::Text, "invalid database at offset 23: string of size 2"),
    (b"\xA0\x42x", Wanted::Any, "invalid database at offset 23: string of size 2"),
    (
        b"\xA0\x1E\x04\xFE\xE3",
        Wanted::Raw,
        "resource limit exceeded at offset 1: exceeded maximum number of data structure values",
    ),
];

// The error of what a lookup leads to, or `read`.
fn lookup_reported(
    alloc: Global,
    found: Result<LookupResult<'_, Vec<u8>>, MaxMindDbError>,
    wanted: &Wanted,
) -> Result<String, AllocError> {
    match found {
        Ok(found) => reported(alloc, decoded_as(alloc, found, wanted), "read"),
        Err(error) => to_error(alloc, error),
    }
}

// The same of the upper half of a file.
fn file_reported(
    alloc: Global,
    opened: Result<Reader<Vec<u8>>, MaxMindDbError>,
    wanted: &Wanted,
) -> Result<String, AllocError> {
    match opened {
        Ok(reader) => lookup_reported(alloc, reader.lookup(high()), wanted),
        Err(error) => to_error(alloc, error),
    }
}

// Asserts the text of the error of what stands behind the upper half of a file of a node and data, or `read`.
fn assert_decoded(rt: &impl Abort, alloc: Global, node: &[u8], row: &Row) {
    let (data, wanted, text) = row;
    let opened = reader_of(alloc, file(alloc, node, data, BASE));
    assert_text(rt, file_reported(alloc, opened, wanted), text);
}

#[test]
fn values_rejected(rt: HostRuntime) {
    for row in ROWS {
        assert_decoded(&rt, rt.alloc(), BASE_NODE, row);
    }
    for row in SECOND_ROWS {
        assert_decoded(&rt, rt.alloc(), SECOND_NODE, row);
    }
}

/// A record with a name.
trait Named {
    /// The name in English.
    fn english(&self) -> Option<&str>;
}

impl Named for City<'_> {
    fn english(&self) -> Option<&str> {
        self.city.names.english
    }
}

fn rejected<E: Drop>(_error: E) -> bool {
    false
}

// Whether a record has this name, or there is none where none is wanted.
fn is_named<'a, T: Decode<'a> + Named>(
    alloc: Global,
    found: LookupResult<'a, Vec<u8>>,
    name: Option<&str>,
) -> bool {
    match found.decode::<T>(alloc) {
        Ok(Some(record)) => name.is_some() && record.english() == name,
        Ok(None) => name.is_none(),
        Err(error) => rejected(error),
    }
}

// Whether the city of a lookup has this name.
fn is_city(
    alloc: Global,
    found: Result<LookupResult<'_, Vec<u8>>, MaxMindDbError>,
    name: Option<&str>,
) -> bool {
    match found {
        Ok(found) => is_named::<City<'_>>(alloc, found, name),
        Err(error) => rejected(error),
    }
}

#[test]
fn city_of_a_lookup(rt: HostRuntime) {
    let alloc = rt.alloc();
    let data = b"\xE1\x44city\xE1\x45names\xE1\x42en\x41A";
    let reader = opened(&rt, alloc, file(alloc, BASE_NODE, data, BASE));
    let is_right = is_city(alloc, reader.lookup(high()), Some("A"));
    assert_holds(&rt, is_right, "the name of a city");
    let is_right = is_city(alloc, reader.lookup(low()), None);
    assert_holds(&rt, is_right, "no city");
}
