//! The lines of addresses.
use mmdb_reader::{MaxMindDbError, Reader};
use mmdb_tool::laws::{fault_clones_are_same, faults_equal_where_same, leaf_texts_show_networks};
use mmdb_tool::lookup_line;
use mmdb_vectors::builder::{base_file, base_with_node, file_with_alias, file_without_subtree};
use std::alloc::{AllocError, Global};
use std::process::Abort;

// A line, or the text of the error.
fn line_text(alloc: Global, line: Result<String, MaxMindDbError>) -> Result<String, AllocError> {
    match line {
        Ok(line) => Ok(line),
        Err(error) => format!(in alloc; "{error}"),
    }
}

// Asserts the line of an address, or the error.
fn assert_line(
    rt: &impl Abort,
    alloc: Global,
    reader: &Reader<Vec<u8>>,
    address: &str,
    text: &str,
) {
    let line = lookup_line(alloc, reader, address.parse().expect(rt, address));
    let line = line_text(alloc, line).expect(rt, address);
    assert!(rt; line.as_str() == text, "{address}: {line}");
}

// Asserts the lines of addresses.
fn assert_lines(
    rt: &impl Abort,
    alloc: Global,
    file: Result<Vec<u8>, AllocError>,
    rows: &[(&str, &str)],
) {
    let file = file.expect(rt, "a file");
    let reader = Reader::from_source(alloc, file).expect(rt, "a file that is accepted");
    for (address, text) in rows {
        assert_line(rt, alloc, &reader, address, text);
    }
}

#[rattlefmt::skip]
const BASE_ROWS: &[(&str, &str)] = &[
    ("1.1.1.1", "0.0.0.0/1 -\n"),
    ("200.0.0.1", "128.0.0.0/1 0\n"),
    ("::1", "invalid input: cannot look up IPv6 address in IPv4-only database"),
];

#[rattlefmt::skip]
const FAULT_ROWS: &[(&str, &str)] = &[
    (
        "1.1.1.1",
        "invalid database: the MaxMind DB file's data pointer resolves to an invalid location",
    ),
];

#[rattlefmt::skip]
const ALIAS_ROWS: &[(&str, &str)] = &[
    ("200.0.0.1", "128.0.0.0/1 0\n"),
    ("::200.0.0.1", "0000:0000:0000:0000:0000:0000:8000:0000/97 0\n"),
];

#[rattlefmt::skip]
const SUBTREE_ROWS: &[(&str, &str)] = &[
    ("1.2.3.4", "0000:0000:0000:0000:0000:0000:0000:0000/1 0\n"),
];

#[test]
fn lines_of_addresses(rt: HostRuntime) {
    let alloc = rt.alloc();
    assert_lines(&rt, alloc, base_file(alloc), BASE_ROWS);
    let fault = base_with_node(alloc, b"\x00\x00\x10\x00\x00\x11");
    assert_lines(&rt, alloc, fault, FAULT_ROWS);
    assert_lines(&rt, alloc, file_with_alias(alloc), ALIAS_ROWS);
    assert_lines(&rt, alloc, file_without_subtree(alloc), SUBTREE_ROWS);
}

#[test]
fn laws_are_called() {
    leaf_texts_show_networks();
    faults_equal_where_same();
    fault_clones_are_same();
}
