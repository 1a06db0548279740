//! Values of one type.
use crate::lone::Lone;
use crate::numbers::Numbers;
use crate::probe::Probe;
use mmdb_value::{Decode, Decoder, Double, Float, OwnedBytes, fuzzing};
use mmdb_vectors::answer::shown;
use mmdb_vectors::failures::Failures;
use std::alloc::Global;
use std::collections::BTreeMap;
use std::fmt::Debug;

type Rows = &'static [(&'static [u8], &'static str)];

// Notes the sections that are read as something else: the value, as it is printed, or the error.
fn expect_shown<'de, T: Decode<'de> + Debug>(
    failures: &mut Failures,
    alloc: Global,
    rows: &[(&'de [u8], &str)],
) {
    for (section, text) in rows {
        failures.expect_text(
            section,
            shown(alloc, fuzzing::decode::<T>(alloc, section)),
            text,
        );
    }
}

#[rattlefmt::skip]
const U8: Rows = &[
    (b"\xA1\x07", "7"),
    (b"\xA1\xFF", "255"),
    (b"\xA2\x01\x00", "decoding error at offset 3: number out of range"),
    (b"\x20\x02\x20\x04\xA1\x07", "7"),
    (b"\x04\x01\xFF\xFF\xFF\xFF", "decoding error at offset 6: number out of range"),
    (b"\x01\x03\x07", "decoding error at offset 0: expected a whole number"),
    (b"\x41x", "decoding error at offset 0: expected a whole number"),
    (b"\x01\x07", "decoding error at offset 0: expected a whole number"),
    (b"\x00\x05", "decoding error at offset 0: expected a whole number"),
    (b"\x00\xF9", "invalid database at offset 0: unknown data type: 256"),
];

#[rattlefmt::skip]
const I16: Rows = &[
    (b"\xA2\x01\x00", "256"),
    (b"\x04\x01\xFF\xFF\x80\x00", "-32768"),
    (b"\xA2\x80\x00", "decoding error at offset 3: number out of range"),
];

#[rattlefmt::skip]
const I8: Rows = &[
    (b"\x04\x01\xFF\xFF\xFF\x80", "-128"),
    (b"\x04\x01\xFF\xFF\xFF\x7F", "decoding error at offset 6: number out of range"),
    (b"\xA1\x80", "decoding error at offset 2: number out of range"),
];

#[rattlefmt::skip]
const I64: Rows = &[
    (b"\xC4\xFF\xFF\xFF\xFF", "4294967295"),
    (b"\x08\x02\x7F\xFF\xFF\xFF\xFF\xFF\xFF\xFF", "9223372036854775807"),
    (b"\x08\x02\x80\0\0\0\0\0\0\0", "decoding error at offset 10: number out of range"),
];

#[rattlefmt::skip]
const BOOL: Rows = &[
    (b"\x01\x07", "true"),
    (b"\xA1\x07", "decoding error at offset 0: expected bool, got type 5"),
    (b"\x41x", "decoding error at offset 0: expected bool, got type 2"),
];

#[rattlefmt::skip]
const U16: Rows = &[
    (b"\xA2\xFF\xFF", "65535"),
    (b"\x20\x02\xA1\x07", "7"),
    (b"\xC1\x07", "decoding error at offset 0: expected u16, got type 6"),
    (b"\x41x", "decoding error at offset 0: expected u16, got type 2"),
    (b"\x00\x05", "decoding error at offset 0: expected u16, got type 12"),
    (b"\x00\xF8", "decoding error at offset 0: expected u16, got type 255"),
    (b"\x00\xF9", "invalid database at offset 0: unknown data type: 256"),
    (b"\xA3\0\0\0", "invalid database at offset 0: u16 of size 3"),
    (
        b"\x20\x02\x20\x04\xA1\x07",
        "invalid database at offset 0: pointer points to another pointer",
    ),
];

#[rattlefmt::skip]
const U32: Rows = &[
    (b"\xC4\xFF\xFF\xFF\xFF", "4294967295"),
    (b"\xA1\x07", "decoding error at offset 0: expected u32, got type 5"),
];

#[rattlefmt::skip]
const U64: Rows = &[
    (b"\x01\x02\x05", "5"),
    (b"\xA1\x07", "decoding error at offset 0: expected u64, got type 5"),
];

#[rattlefmt::skip]
const U128: Rows = &[
    (b"\x02\x03\x01\x00", "256"),
    (b"\xA1\x07", "decoding error at offset 0: expected u128, got type 5"),
];

#[rattlefmt::skip]
const I32: Rows = &[
    (b"\x04\x01\xFF\xFF\xFF\xFE", "-2"),
    (b"\xA1\x07", "decoding error at offset 0: expected i32, got type 5"),
];

#[rattlefmt::skip]
const STR: Rows = &[
    (b"\x41x", "\"x\""),
    (b"\xA1\x07", "decoding error at offset 0: expected string, got type 5"),
    (b"\xA2\x01\x00", "decoding error at offset 0: expected string, got type 5"),
    (b"\x42\xFF\xFE", "invalid database at offset 3: invalid UTF-8 in string"),
    (
        b"\x20\x02\x20\x04\x41x",
        "invalid database at offset 0: pointer points to another pointer",
    ),
];

#[rattlefmt::skip]
const BYTES: Rows = &[
    (b"\x82\xFF\xFE", "[255, 254]"),
    (b"\x41x", "decoding error at offset 0: expected bytes, got type 2"),
];

#[rattlefmt::skip]
const LIST: Rows = &[
    (b"\x20\x02\x02\x04\xA1\x07\xA1\x08", "[7, 8]"),
    (b"\xE0", "decoding error at offset 0: expected array, got type 7"),
    (b"\x41x", "decoding error at offset 0: expected array, got type 2"),
    (b"\x02\x04\xA1\x07\x41x", "decoding error at offset 4: expected u16, got type 2"),
];

#[rattlefmt::skip]
const MAP: Rows = &[
    // Of equal keys the later value stays.
    (b"\xE2\x41a\xA1\x01\x41a\xA1\x02", "{\"a\": 2}"),
    (b"\x00\x04", "decoding error at offset 0: expected map, got type 11"),
    (b"\xE1\xA1\x07\xA1\x08", "invalid database at offset 1: expected string, got type 5"),
];

#[rattlefmt::skip]
const PROBE: Rows = &[
    (b"\xE3\x41z\x20\xFF\x41k\x41x\x41a\xA1\x07", "Probe { a: Some(7), k: Some(\"x\") }"),
    (b"\xE0", "Probe { a: None, k: None }"),
    (b"\xE1\xA1\x07\xA1\x08", "invalid database at offset 1: expected string, got type 5"),
    (b"\xE2\x41a\xA1\x07\x41a\xA1\x08", "decoding error at offset 7: duplicate field `a`"),
    (b"\x00\x04", "decoding error at offset 0: expected map, got type 11"),
];

#[rattlefmt::skip]
const NUMBERS: Rows = &[
    (b"\x02\x04\xA1\x05\xA1\x06", "Numbers([5, 6])"),
    (b"\x00\x04", "Numbers([])"),
    (b"\x01\x04\xC1\x05", "decoding error at offset 2: expected u16, got type 6"),
    (b"\xE0", "decoding error at offset 0: expected array, got type 7"),
];

#[rattlefmt::skip]
const LONE: Rows = &[
    (b"\xE2\x41a\xA1\x07\x41z\x20\xFF", "Lone { a: Some(7) }"),
    (b"\xE0", "Lone { a: None }"),
    (b"\xE2\x41a\xA1\x07\x41a\xA1\x08", "decoding error at offset 7: duplicate field `a`"),
    (b"\xE1\xA1\x07\xA1\x08", "invalid database at offset 1: expected string, got type 5"),
];

#[rattlefmt::skip]
const DOUBLE: Rows = &[
    (b"\x68\x40\x04\0\0\0\0\0\x01", "Double { bits: 4612811918334230529 }"),
    (b"\xA1\x07", "decoding error at offset 0: expected double, got type 5"),
    (b"\x04\x08\x40\x20\x00\x00", "decoding error at offset 0: expected double, got type 15"),
    (b"\x67\0\0\0\0\0\0\0", "invalid database at offset 0: double of size 7"),
];

#[rattlefmt::skip]
const FLOAT: Rows = &[
    (b"\x04\x08\x40\x20\x00\x00", "Float { bits: 1075838976 }"),
    (b"\xA1\x07", "decoding error at offset 0: expected float, got type 5"),
    (
        b"\x68\x40\x04\0\0\0\0\0\x01",
        "decoding error at offset 0: expected float, got type 3",
    ),
    (b"\x03\x08\0\0\0", "invalid database at offset 0: float of size 3"),
];

#[test]
fn small_numbers(rt: HostRuntime) -> Result<(), Failures> {
    let (alloc, mut failures) = (rt.alloc(), Failures::new(rt.alloc()));
    let it = &mut failures;
    expect_shown::<u8>(it, alloc, U8);
    expect_shown::<i16>(it, alloc, I16);
    expect_shown::<i8>(it, alloc, I8);
    expect_shown::<i64>(it, alloc, I64);
    expect_shown::<Vec<u8>>(it, alloc, &[(b"\x02\x04\xA1\x07\xC1\x08", "[7, 8]")]);
    failures.verdict()
}

#[test]
fn scalars(rt: HostRuntime) -> Result<(), Failures> {
    let (alloc, mut failures) = (rt.alloc(), Failures::new(rt.alloc()));
    let it = &mut failures;
    expect_shown::<bool>(it, alloc, BOOL);
    expect_shown::<u16>(it, alloc, U16);
    expect_shown::<u32>(it, alloc, U32);
    expect_shown::<u64>(it, alloc, U64);
    expect_shown::<u128>(it, alloc, U128);
    expect_shown::<i32>(it, alloc, I32);
    expect_shown::<Double>(it, alloc, DOUBLE);
    expect_shown::<Float>(it, alloc, FLOAT);
    expect_shown::<Option<u16>>(it, alloc, &[(b"\xA1\x07", "Some(7)")]);
    failures.verdict()
}

#[test]
fn texts_and_containers(rt: HostRuntime) -> Result<(), Failures> {
    let (alloc, mut failures) = (rt.alloc(), Failures::new(rt.alloc()));
    let it = &mut failures;
    expect_shown::<&str>(it, alloc, STR);
    expect_shown::<String>(it, alloc, &[(b"\x20\x02\x41x", "\"x\"")]);
    expect_shown::<&[u8]>(it, alloc, BYTES);
    expect_shown::<OwnedBytes>(it, alloc, &[(b"\x82\xFF\xFE", "OwnedBytes([255, 254])")]);
    expect_shown::<Vec<u16>>(it, alloc, LIST);
    expect_shown::<BTreeMap<String, u16>>(it, alloc, MAP);
    expect_shown::<Probe<'_>>(it, alloc, PROBE);
    expect_shown::<Lone>(it, alloc, LONE);
    expect_shown::<Numbers>(it, alloc, NUMBERS);
    failures.verdict()
}

#[test]
fn unknown_field_is_skipped(rt: HostRuntime) -> Result<(), Failures> {
    let (alloc, mut failures) = (rt.alloc(), Failures::new(rt.alloc()));
    let mut d = Decoder::new(b"\xE2\x41a\xA1\x07\x41z\x20\xFF", 0);
    let read = shown(alloc, Probe::decode(alloc, &mut d));
    failures.expect_text(&"the record", read, "Probe { a: Some(7), k: None }");
    failures.expect(&"the offset behind it", d.offset() == 9);
    failures.verdict()
}
