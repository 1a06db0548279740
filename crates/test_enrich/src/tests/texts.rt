//! The JSON of small values.
use json::{Token, Writer};
use mmdb_found::{found_json, write_found};
use mmdb_json::{compact, pretty, write_value};
use mmdb_reader::{LookupResult, PathElement, Reader};
use mmdb_value::Value;
use mmdb_value::fuzzing::decode_value;
use mmdb_vectors::base::high;
use mmdb_vectors::builder::{BASE_NODE, changed_file};
use std::alloc::{AllocError, Global};
use std::process::Abort;

/// Data, and the JSON of the value at their start.
#[rattlefmt::skip]
pub(crate) const ROWS: &[(&[u8], &str)] = &[
    (b"\x41x", "\"x\""),
    // what has to be escaped, and what needs not
    (b"\x4A\"\\\n\r\t\x01/\xC3\xA9\x7F", "\"\\\"\\\\\\n\\r\\t\\u0001/\u{e9}\u{7f}\""),
    (b"\x83\x00\xFF\x10", "\"AP8Q\""),
    (b"\x84\x00\xFF\x10\x00", "\"AP8QAA==\""),
    (b"\x01\x07", "true"),
    (b"\x00\x07", "false"),
    (b"\xA0", "0"),
    (b"\xA2\xFF\xFF", "65535"),
    (b"\xC4\xFF\xFF\xFF\xFF", "4294967295"),
    (b"\x04\x01\xFF\xFF\xFF\xFF", "-1"),
    (b"\x04\x01\x80\x00\x00\x00", "-2147483648"),
    (b"\x08\x02\xFF\xFF\xFF\xFF\xFF\xFF\xFF\xFF", "18446744073709551615"),
    (
        b"\x10\x03\xFF\xFF\xFF\xFF\xFF\xFF\xFF\xFF\xFF\xFF\xFF\xFF\xFF\xFF\xFF\xFF",
        "340282366920938463463374607431768211455",
    ),
    (b"\x00\x03", "0"),
    // doubles and floats in the shortest form that reads back
    (b"\x68\x40\x45\x0F\xCD\x67\xFD\x3F\x5B", "42.123456"),
    (b"\x68\x00\x00\x00\x00\x00\x00\x00\x01", "5e-324"),
    (b"\x68\x80\x00\x00\x00\x00\x00\x00\x00", "-0.0"),
    (b"\x04\x08\x3F\x8C\xCC\xCD", "1.1"),
    // infinities, and what is no number
    (b"\x68\x7F\xF0\x00\x00\x00\x00\x00\x00", "null"),
    (b"\x68\xFF\xF8\x00\x00\x00\x00\x00\x00", "null"),
    (b"\x04\x08\xFF\x80\x00\x00", "null"),
    (b"\x04\x08\x7F\xC0\x00\x01", "null"),
    // containers, in file order, with each of equal keys, and behind pointers
    (b"\xE0", "{}"),
    (b"\x00\x04", "[]"),
    (b"\xE3\x41b\xA1\x01\x41a\xA1\x02\x41b\xA1\x03", "{\"b\":1,\"a\":2,\"b\":3}"),
    (b"\xE1\x41a\x02\x04\x20\x01\xE1\x20\x01\x01\x07", "{\"a\":[\"a\",{\"a\":true}]}"),
];

/// A map {"a": [5, 6]}.
const RECORD: &[u8] = b"\xE1\x41a\x02\x04\xA1\x05\xA1\x06";

/// What the value at a path is, over that map.
#[rattlefmt::skip]
const PATHS: &[(&[PathElement<'static>], Option<&str>)] = &[
    (&[], Some("{\"a\":[5,6]}")),
    (&[PathElement::Key("a")], Some("[5,6]")),
    (&[PathElement::Key("a"), PathElement::IndexFromEnd(0)], Some("6")),
    (&[PathElement::Key("a"), PathElement::Index(2)], None),
    (&[PathElement::Key("b")], None),
];

fn assert_holds(rt: &impl Abort, holds: bool, case: &str) {
    assert!(rt; holds, "{case}");
}

// Whether a text is this one, or there is none.
fn is_text(text: Option<Vec<u8>>, wanted: Option<&str>) -> bool {
    match text {
        Some(text) => text.as_slice() == wanted.unwrap_or("").as_bytes(),
        None => wanted.is_none(),
    }
}

// Whether a text was found, and is this one, or none was.
fn is_found<E: Drop>(text: Result<Option<Vec<u8>>, E>, wanted: Option<&str>) -> bool {
    match text {
        Ok(text) => is_text(text, wanted),
        Err(_) => false,
    }
}

// Whether the tokens of what a lookup finds along a path are these, written out.
fn is_written(
    alloc: Global,
    found: &LookupResult<'_, &[u8]>,
    path: &[PathElement<'_>],
    wanted: Option<&str>,
) -> bool {
    let mut out = Writer::new(Vec::new(alloc));
    let is_found = write_found(alloc, found, path, &mut out).ok() == Some(wanted.is_some());
    is_found && out.into_inner().as_slice() == wanted.unwrap_or("null").as_bytes()
}

// Asserts the JSON of what a lookup in a file with these data finds along a path.
fn assert_json(
    rt: &impl Abort,
    alloc: Global,
    data: &[u8],
    path: &[PathElement<'_>],
    wanted: Option<&str>,
) {
    let bytes = changed_file(alloc, BASE_NODE, data, &[]).expect(rt, "a file");
    let reader = Reader::from_source(alloc, bytes.as_slice()).expect(rt, "a reader");
    let found = reader.lookup(high()).expect(rt, "a lookup");
    let case = wanted.unwrap_or("nothing");
    assert_holds(rt, is_found(found_json(alloc, &found, path), wanted), case);
    assert_holds(rt, is_written(alloc, &found, path, wanted), case);
}

#[test]
fn texts_of_values(rt: HostRuntime) {
    for (data, wanted) in ROWS {
        assert_json(&rt, rt.alloc(), data, &[], Some(*wanted));
    }
    for (path, wanted) in PATHS {
        assert_json(&rt, rt.alloc(), RECORD, path, *wanted);
    }
}

// Whether a text was made, and is this.
fn is_made(text: Result<Vec<u8>, AllocError>, wanted: &str) -> bool {
    is_text(text.ok(), Some(wanted))
}

// Whether an array that has a value twice is written so.
fn is_twice(alloc: Global, value: &Value<'_>, wanted: &str) -> bool {
    let mut out = Writer::new(Vec::new(alloc));
    let is_written = out.token(Token::BeginArray).is_ok()
        && write_value(alloc, value, &mut out).is_ok()
        && write_value(alloc, value, &mut out).is_ok()
        && out.token(Token::EndArray).is_ok();
    is_text(Some(out.into_inner()), Some(wanted)) && is_written
}

const PRETTY: &str = "{\n  \"a\": [\n    5,\n    6\n  ]\n}";

#[test]
fn texts_of_a_value(rt: HostRuntime) {
    let alloc = rt.alloc();
    let value = decode_value(alloc, RECORD).expect(&rt, "a value");
    let is_compact = is_made(compact(alloc, &value), "{\"a\":[5,6]}");
    assert_holds(&rt, is_compact, "compact");
    assert_holds(&rt, is_made(pretty(alloc, &value), PRETTY), "pretty");
    let is_twice = is_twice(alloc, &value, "[{\"a\":[5,6]},{\"a\":[5,6]}]");
    assert_holds(&rt, is_twice, "twice");
}
