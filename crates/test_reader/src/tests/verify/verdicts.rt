//! Verdicts on files.
use super::files::{
    alias_fan, badly_separated, deep, deep_last, ladder, of_three_leaves, opened, overlap,
    undescribed, with_data,
};
use mmdb_reader::laws::{aliases_lead_to_ipv4, few_positions_wait, walk_stops, whole_file_answers};
use mmdb_reader::{MaxMindDbError, Steps};
use mmdb_vectors::builder::{
    BASE_DATA, BASE_NODE, Changes, Field, base_file, base_with_node, changed_file, file_with_alias,
    file_without_subtree,
};
use std::alloc::{AllocError, Global};
use std::process::Abort;

const WHOLE: &str = "whole";

const NO_LOCATION: &str =
    "invalid database: the MaxMind DB file's data pointer resolves to an invalid location";

const TOO_LONG: &str =
    "invalid database: search tree appears to have a cycle or invalid structure (traversal exceeded the address bit length)";

const TOO_MANY_12: &str =
    "invalid database: search tree appears to have a cycle or invalid structure (exceeded 12 iterations)";

const TOO_MANY_96: &str =
    "invalid database: search tree appears to have a cycle or invalid structure (exceeded 96 iterations)";

const TOO_MANY_351: &str =
    "invalid database: search tree appears to have a cycle or invalid structure (exceeded 351 iterations)";

// What was found of a file: that it is whole, or the text of the error with its kind and its place.
fn found_text(alloc: Global, found: Result<(), MaxMindDbError>) -> Result<String, AllocError> {
    match found {
        Ok(()) => String::from_str(alloc, WHOLE),
        Err(error) => format!(in alloc; "{error}"),
    }
}

// Asserts what was found of a file.
fn assert_found(rt: &impl Abort, alloc: Global, found: Result<(), MaxMindDbError>, text: &str) {
    let found = found_text(alloc, found).expect(rt, text);
    assert!(rt; found.as_str() == text, "{found}, not {text}");
}

// Asserts the verdict of both calls on a file, and answers how many positions of the tree were taken.
fn assert_verdict(
    rt: &impl Abort,
    alloc: Global,
    file: Result<Vec<u8>, AllocError>,
    text: &str,
) -> u64 {
    let reader = opened(rt, alloc, file);
    assert!(rt; reader.metadata().node_count <= 1000);
    let mut steps = Steps::new();
    assert_found(rt, alloc, reader.verify_counted(alloc, &mut steps), text);
    assert_found(rt, alloc, reader.verify(alloc), text);
    steps.count()
}

#[test]
fn base_file_is_whole(rt: HostRuntime) {
    let reader = opened(&rt, rt.alloc(), base_file(rt.alloc()));
    assert_found(&rt, rt.alloc(), reader.verify(rt.alloc()), WHOLE);
}

// Asserts a verdict, and the number of positions.
fn assert_counted(
    rt: &impl Abort,
    alloc: Global,
    file: Result<Vec<u8>, AllocError>,
    text: &str,
    count: u64,
) {
    let steps = assert_verdict(rt, alloc, file, text);
    assert!(rt; steps == count, "{steps} of {count}: {text}");
}

#[test]
fn counted_verdicts(rt: HostRuntime) {
    let alloc = rt.alloc();
    assert_counted(&rt, alloc, base_file(alloc), WHOLE, 3);
    assert_counted(&rt, alloc, file_with_alias(alloc), WHOLE, 195);
    let outside = base_with_node(alloc, b"\x00\x00\x10\x00\x00\x11");
    assert_counted(&rt, alloc, outside, NO_LOCATION, 2);
    let left_spine = base_with_node(alloc, b"\x00\x00\x00\x00\x00\x11");
    assert_counted(&rt, alloc, left_spine, TOO_LONG, 33);
    assert_counted(&rt, alloc, ladder(alloc, 3), WHOLE, 15);
    assert_counted(&rt, alloc, ladder(alloc, 4), TOO_MANY_12, 27);
}

#[test]
fn hostile_trees(rt: HostRuntime) {
    let alloc = rt.alloc();
    let steps = assert_verdict(&rt, alloc, alias_fan(alloc), TOO_MANY_351);
    assert!(rt; steps <= 832, "{steps}");
    let steps = assert_verdict(&rt, alloc, ladder(alloc, 32), TOO_MANY_96);
    assert!(rt; steps <= 322, "{steps}");
}

/// Data of whole files.
#[rattlefmt::skip]
const WHOLE_DATA: &[&[u8]] = &[
    b"\x41x\x8E\xAB\xCD\xEFMaxMind.com",
    b"\xE0",
    b"\x20\x02\x20\x04\x41x",
    b"\xE1\xA1\x07\x01\x07",
];

// The base file with one more byte at its end.
fn longer(alloc: Global) -> Result<Vec<u8>, AllocError> {
    changed_file(alloc, BASE_NODE, BASE_DATA, &[(Field::More, b"\x00")])
}

#[test]
fn whole_files(rt: HostRuntime) {
    let alloc = rt.alloc();
    assert_verdict(&rt, alloc, longer(alloc), WHOLE);
    let empty = changed_file(alloc, b"\x00\x00\x01\x00\x00\x01", b"", &[]);
    assert_verdict(&rt, alloc, empty, WHOLE);
    for data in WHOLE_DATA {
        assert_verdict(&rt, alloc, with_data(alloc, data), WHOLE);
    }
    assert_verdict(&rt, alloc, file_without_subtree(alloc), WHOLE);
}

/// Data, and the error of their file.
#[rattlefmt::skip]
const REJECTED_DATA: &[(&[u8], &str)] = &[
    (
        b"\x20\x02\x20\x00",
        "invalid database at offset 22: cyclic data pointer references offset 0",
    ),
    (b"\x41\xFF", "invalid database at offset 22: invalid UTF-8 in string"),
    (b"\x00\x06", "invalid database at offset 22: unknown data type: 13"),
    (b"\x02\x04\xA1\x05", "invalid database at offset 26: unexpected end of buffer"),
];

/// Changes of metadata, and the error. The unknown field's pointer leads outside the metadata, which have 165
/// bytes: reading skips it.
#[rattlefmt::skip]
const REJECTED_METADATA: &[(Changes<'static>, &str)] = &[
    (
        &[(Field::Map, b"\xEA"), (Field::More, b"\x41z\x20\xFF")],
        "invalid database at offset 293: unexpected end of buffer",
    ),
    (
        &[(Field::DatabaseType, b"\x40")],
        "invalid database: database_type - Expected: non-empty string Actual: \"\"",
    ),
];

// The file of pointers to texts that overlap.
fn overlapping(rt: &impl Abort, alloc: Global) -> Result<Vec<u8>, AllocError> {
    let data = overlap(alloc).expect(rt, "data");
    with_data(alloc, data.as_slice())
}

#[test]
fn refusal_kinds(rt: HostRuntime) {
    let alloc = rt.alloc();
    for (data, text) in REJECTED_DATA {
        assert_verdict(&rt, alloc, with_data(alloc, data), text);
    }
    for (changes, text) in REJECTED_METADATA {
        let file = changed_file(alloc, BASE_NODE, BASE_DATA, changes);
        assert_verdict(&rt, alloc, file, text);
    }
    let text = "invalid database: description - Expected: non-empty map Actual: {}";
    assert_verdict(&rt, alloc, undescribed(alloc), text);
    let text = "invalid database: unexpected byte in data separator";
    assert_verdict(&rt, alloc, badly_separated(alloc), text);
    let text = "resource limit exceeded at offset 128: exceeded maximum verification work";
    assert_verdict(&rt, alloc, overlapping(&rt, alloc), text);
}

// The ways to put three values at three leaves.
fn orders(offsets: [u16; 3]) -> [[u16; 3]; 6] {
    let [a, b, c] = offsets;
    [
        [a, b, c],
        [a, c, b],
        [b, a, c],
        [b, c, a],
        [c, a, b],
        [c, b, a],
    ]
}

// Asserts a verdict that the leaves' order does not change.
fn assert_in_any_order(
    rt: &impl Abort,
    alloc: Global,
    data: Result<Vec<u8>, AllocError>,
    offsets: [u16; 3],
    text: &str,
) {
    let data = data.expect(rt, text);
    for order in orders(offsets) {
        let file = of_three_leaves(alloc, data.as_slice(), order);
        assert_verdict(rt, alloc, file, text);
    }
}

#[test]
fn records_in_any_order(rt: HostRuntime) {
    let alloc = rt.alloc();
    // 27 arrays, a pointer and a hundred arrays are 128 levels. The place of an error is that of the value to
    // which the pointer leads, where it is known by then, or of the array that is one level too many.
    assert_in_any_order(&rt, alloc, deep(alloc, 27), [0, 202, 258], WHOLE);
    assert_in_any_order(&rt, alloc, deep_last(alloc, 27, 56), [56, 0, 258], WHOLE);
    let known =
        "invalid database at offset 28: exceeded maximum data structure depth; database is likely corrupt";
    assert_in_any_order(&rt, alloc, deep(alloc, 28), [0, 202, 260], known);
    let last =
        "invalid database at offset 284: exceeded maximum data structure depth; database is likely corrupt";
    assert_in_any_order(&rt, alloc, deep_last(alloc, 28, 58), [58, 0, 260], last);
}

#[test]
fn laws_are_called() {
    walk_stops();
    few_positions_wait();
    whole_file_answers();
    aliases_lead_to_ipv4();
}
