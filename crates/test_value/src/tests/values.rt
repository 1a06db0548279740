//! Any value.
use mmdb_value::fuzzing::{decode_raw_value, decode_value};
use mmdb_value::{RawValue, Value, fuzzing};
use mmdb_vectors::answer::shown;
use mmdb_vectors::failures::Failures;
use std::alloc::Global;

/// Sections, and the value at the beginning of each, as it is printed, or the error.
type Rows = &'static [(&'static [u8], &'static str)];

#[rattlefmt::skip]
const SCALARS: Rows = &[
    (b"\x04\x01\xFF\xFF\xFF\xFE", "I32(-2)"),
    (b"\x03\x01\xFF\xFF\xFF", "I32(16777215)"),
    (b"\x00\x01", "I32(0)"),
    (b"\x01\x07", "Bool(true)"),
    (b"\x00\x07", "Bool(false)"),
    (b"\x04\x08\x40\x20\x00\x00", "Float(Float { bits: 1075838976 })"),
    (b"\x68\x40\x04\0\0\0\0\0\x01", "Double(Double { bits: 4612811918334230529 })"),
    (b"\x40", "String(\"\")"),
    (b"\x43\xE6\x97\xA5", "String(\"日\")"),
    (b"\x82\xFF\xFE", "Bytes([255, 254])"),
    (b"\xA0", "U16(0)"),
    (b"\xA2\x01\x02", "U16(258)"),
    (b"\xC3\x01\x02\x03", "U32(66051)"),
    (b"\xC4\xFF\xFF\xFF\xFF", "U32(4294967295)"),
    (b"\x02\x02\x01\x02", "U64(258)"),
    (b"\x08\x02\x80\0\0\0\0\0\0\0", "U64(9223372036854775808)"),
    (b"\x01\x03\x07", "U128(7)"),
    (b"\x10\x03\x80\0\0\0\0\0\0\0\0\0\0\0\0\0\0\x01", "U128(170141183460469231731687303715884105729)"),
    (b"\x3D\x00\x00\x00\x05\x41x", "String(\"x\")"),
    (b"\x20\x02\x20\x04\x41x", "String(\"x\")"),
];

#[rattlefmt::skip]
const CONTAINERS: Rows = &[
    (
        b"\x02\x00\x41a\x20\x0A\x41b\x41y\x41x",
        "Map([(\"a\", String(\"x\")), (\"b\", String(\"y\"))])",
    ),
    (b"\xE2\x41a\xA1\x01\x41a\xA1\x02", "Map([(\"a\", U16(1)), (\"a\", U16(2))])"),
    (b"\x01\x00\x20\x06\x41y\x41k", "Map([(\"k\", String(\"y\"))])"),
    (b"\x02\x04\xA1\x01\x41x", "Array([U16(1), String(\"x\")])"),
    (b"\xE0", "Map([])"),
    (b"\x00\x04", "Array([])"),
];

/// What is read where texts are not tested.
#[rattlefmt::skip]
const RAW: Rows = &[
    (b"\x42\xFF\xFE", "String([255, 254])"),
    (b"\x82\xFF\xFE", "Bytes([255, 254])"),
    (b"\xE1\x41\xFF\x42\xFF\xFE", "Map([([255], String([255, 254]))])"),
];

/// Sections at whose beginning no value stands, and the error.
#[rattlefmt::skip]
const REJECTED: Rows = &[
    (b"\xA1", "invalid database at offset 0: u16 of size 1"),
    (b"\xA3\x00\x00\x00", "invalid database at offset 0: u16 of size 3"),
    (b"\xC5\0\0\0\0\0", "invalid database at offset 0: u32 of size 5"),
    (b"\x05\x01\0\0\0\0\0", "invalid database at offset 0: i32 of size 5"),
    (b"\x09\x02\0\0\0\0\0\0\0\0\0", "invalid database at offset 0: u64 of size 9"),
    (b"\x11\x03\0\0\0\0\0\0\0\0\0\0\0\0\0\0\0\0\0", "invalid database at offset 0: u128 of size 17"),
    (b"\x02\x07", "invalid database at offset 0: bool of size 2"),
    (b"\x03\x08\0\0\0", "invalid database at offset 0: float of size 3"),
    (b"\x67\0\0\0\0\0\0\0", "invalid database at offset 0: double of size 7"),
    (b"\x81", "invalid database at offset 0: bytes of size 1"),
    (b"\x41", "invalid database at offset 0: string of size 1"),
    (b"\x42x", "invalid database at offset 0: string of size 2"),
    (b"\x42\xFF\xFE", "invalid database at offset 3: invalid UTF-8 in string"),
    (b"\x41\xFF", "invalid database at offset 2: invalid UTF-8 in string"),
    (b"\x5D", "invalid database at offset 0: unexpected end of buffer"),
    (b"\x5E\x00", "invalid database at offset 0: unexpected end of buffer"),
    (b"\x5F\x00\x00", "invalid database at offset 0: unexpected end of buffer"),
    (b"\x28", "invalid database at offset 0: unexpected end of buffer"),
    (b"\x20", "invalid database at offset 0: unexpected end of buffer"),
    (b"\x00", "invalid database at offset 0: unexpected end of buffer"),
    (b"", "invalid database at offset 0: unexpected end of buffer"),
    // Behind a pointer it is the target's place.
    (b"\x20\x02", "invalid database at offset 2: unexpected end of buffer"),
    (b"\x20\x03\x40\x41", "invalid database at offset 3: string of size 1"),
    (b"\x00\x05", "invalid database at offset 0: unknown data type: 12"),
    (b"\x00\x06", "invalid database at offset 0: unknown data type: 13"),
    (b"\x00\x09", "invalid database at offset 0: unknown data type: 16"),
    (b"\x00\xFF", "invalid database at offset 0: unknown data type: 262"),
    // In a container it is the place of the key or of the value.
    (
        b"\x01\x00\x20\x06\x41y\x20\x08\x41k",
        "invalid database at offset 2: pointer points to another pointer",
    ),
    (b"\xE1\xA1\x07\x01\x07", "invalid database at offset 1: expected string, got type 5"),
    (b"\xE1\xA1\x07\xA1\x07", "invalid database at offset 1: expected string, got type 5"),
    (b"\xE1\x41", "invalid database at offset 1: string length exceeds buffer"),
    (b"\xE1\x42x", "invalid database at offset 1: string length exceeds buffer"),
    (b"\xE1\x42\xFF\xFE\x01\x07", "invalid database at offset 4: invalid UTF-8 in string"),
    (b"\xE1\x41a", "invalid database at offset 3: unexpected end of buffer"),
    (b"\x02\x04\xA1\x01", "invalid database at offset 4: unexpected end of buffer"),
    (
        b"\x20\x00",
        "invalid database at offset 0: exceeded maximum data structure depth; database is likely corrupt",
    ),
    (
        b"\xE1\x41a\x20\x00",
        "invalid database at offset 0: exceeded maximum data structure depth; database is likely corrupt",
    ),
    (
        b"\x1E\x04\xFE\xE3",
        "resource limit exceeded at offset 0: exceeded maximum number of data structure values",
    ),
];

// Notes the sections that are read as something else: by the call for any type, or by that for any value.
fn expect_values(failures: &mut Failures, alloc: Global, rows: Rows) {
    for (section, text) in rows {
        let by_type = shown(alloc, fuzzing::decode::<Value<'_>>(alloc, section));
        failures.expect_text(section, by_type, text);
        failures.expect_text(section, shown(alloc, decode_value(alloc, section)), text);
    }
}

// The same where texts are not tested.
fn expect_raw_values(failures: &mut Failures, alloc: Global, rows: Rows) {
    for (section, text) in rows {
        let by_type = shown(alloc, fuzzing::decode::<RawValue<'_>>(alloc, section));
        failures.expect_text(section, by_type, text);
        failures.expect_text(
            section,
            shown(alloc, decode_raw_value(alloc, section)),
            text,
        );
    }
}

#[test]
fn any_value(rt: HostRuntime) -> Result<(), Failures> {
    let (alloc, mut failures) = (rt.alloc(), Failures::new(rt.alloc()));
    expect_values(&mut failures, alloc, SCALARS);
    expect_values(&mut failures, alloc, CONTAINERS);
    expect_values(&mut failures, alloc, REJECTED);
    expect_raw_values(&mut failures, alloc, RAW);
    failures.verdict()
}
