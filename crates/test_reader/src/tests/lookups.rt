//! Lookups.
use super::answers::{BASE, File, address, answer, found_text};
use mmdb_reader::laws::{
    errors_hold_their_causes, items_agree_with_lookups, leaves_partition, listed_agrees,
    metadata_equal_where_same, network_clones_are_same, network_holds_address,
    networks_equal_where_same, range_walk, same_leaf_same_answer, scalar_clones_are_same,
    source_decides, step_clones_are_same, whole_walk,
};
use mmdb_reader::{LookupResult, MaxMindDbError, Reader, read_node};
use mmdb_vectors::answer::{OK, reported, shown};
use mmdb_vectors::base::BASE_FILE;
use mmdb_vectors::builder::{BASE_DATA, Field, base_file as make_base_file};
use mmdb_vectors::failures::Failures;
use std::alloc::{AllocError, Global};

const FAULT: &str =
    "invalid database: the MaxMind DB file's data pointer resolves to an invalid location";

/// A left record before the data, and a right one at their start.
const BEFORE: File = File::Of(b"\x00\x00\x10\x00\x00\x11", BASE_DATA, &[]);

/// A left record after the data, and a right one at their end.
const AFTER: File = File::Of(b"\x00\x00\x13\x00\x00\x12", BASE_DATA, &[]);

/// A left record that is the node itself.
const LEFT_SPINE: File = File::Of(b"\x00\x00\x00\x00\x00\x11", BASE_DATA, &[]);

/// The nodes of the base file, in the other two sizes of records.
const OF_28_BITS: File = File::Of(
    b"\x00\x00\x01\x00\x00\x00\x11",
    BASE_DATA,
    &[(Field::RecordSize, b"\xA1\x1C")],
);

const OF_32_BITS: File = File::Of(
    b"\x00\x00\x00\x01\x00\x00\x00\x11",
    BASE_DATA,
    &[(Field::RecordSize, b"\xA1\x20")],
);

/// A file, an address, and the network that is found, whether it has data, and their offset.
#[rattlefmt::skip]
const ROWS: &[(File, &str, &str)] = &[
    (BASE, "1.1.1.1", "0.0.0.0/1 false None"),
    (BASE, "200.0.0.1", "128.0.0.0/1 true Some(0)"),
    (BASE, "::1", "invalid input: cannot look up IPv6 address in IPv4-only database"),
    (BEFORE, "1.1.1.1", FAULT),
    (BEFORE, "200.0.0.1", "128.0.0.0/1 true Some(0)"),
    (AFTER, "1.1.1.1", FAULT),
    (AFTER, "200.0.0.1", "128.0.0.0/1 true Some(1)"),
    (LEFT_SPINE, "0.0.0.0", "0.0.0.0/32 false None"),
    (LEFT_SPINE, "0.0.0.1", "0.0.0.1/32 true Some(0)"),
    (LEFT_SPINE, "0.0.0.3", "0.0.0.2/31 true Some(0)"),
    (LEFT_SPINE, "200.0.0.1", "128.0.0.0/1 true Some(0)"),
    (OF_28_BITS, "1.1.1.1", "0.0.0.0/1 false None"),
    (OF_28_BITS, "200.0.0.1", "128.0.0.0/1 true Some(0)"),
    (OF_32_BITS, "1.1.1.1", "0.0.0.0/1 false None"),
    (OF_32_BITS, "200.0.0.1", "128.0.0.0/1 true Some(0)"),
    (File::WithoutSubtree, "1.2.3.4", "0000:0000:0000:0000:0000:0000:0000:0000/1 true Some(0)"),
    (File::WithAlias, "1.2.3.4", "0.0.0.0/1 false None"),
    (File::WithAlias, "200.0.0.1", "128.0.0.0/1 true Some(0)"),
    (File::WithAlias, "::200.0.0.1", "0000:0000:0000:0000:0000:0000:8000:0000/97 true Some(0)"),
    (File::WithAlias, "c000::1", "c000:0000:0000:0000:0000:0000:0000:0000/2 true Some(0)"),
    (File::WithAlias, "4000::1", "4000:0000:0000:0000:0000:0000:0000:0000/2 false None"),
];

#[test]
fn lookups(rt: HostRuntime) -> Result<(), Failures> {
    let (alloc, mut failures) = (rt.alloc(), Failures::new(rt.alloc()));
    for (file, text, wanted) in ROWS {
        failures.expect_text(&[*text, *wanted], answer(alloc, file, text), wanted);
    }
    failures.verdict()
}

/// An address of the base file, what is found, and the value.
type FoundRow = (&'static str, &'static str, &'static str);

const FOUND: &[FoundRow] = &[
    ("1.1.1.1", "0.0.0.0/1 false None", "None"),
    ("200.0.0.1", "128.0.0.0/1 true Some(0)", "Some(\"x\")"),
];

// Notes what is reported otherwise by a result, a copy and a clone of it, and by its value.
fn expect_found(
    failures: &mut Failures,
    alloc: Global,
    found: LookupResult<'_, &[u8]>,
    row: &FoundRow,
) {
    let (_, wanted, value) = row;
    let copied = found;
    let cloned = found.clone().unwrap_or(found);
    failures.expect_text(row, found_text(alloc, Ok(copied)), wanted);
    failures.expect_text(row, found_text(alloc, Ok(cloned)), wanted);
    failures.expect_text(row, found_text(alloc, Ok(found)), wanted);
    failures.expect_text(row, shown(alloc, found.decode::<&str>(alloc)), value);
}

// The same of an answer that may be an error.
fn expect_answer(
    failures: &mut Failures,
    alloc: Global,
    answer: Result<LookupResult<'_, &[u8]>, MaxMindDbError>,
    row: &FoundRow,
) {
    match answer {
        Ok(found) => expect_found(failures, alloc, found, row),
        Err(error) => failures.expect_text(row, reported(alloc, Err::<(), _>(error)), row.1),
    }
}

// Whether the builder's base file is the one byte for byte.
fn is_base(built: Result<Vec<u8>, AllocError>) -> bool {
    match built {
        Ok(built) => built.len() == 199 && built.as_slice() == BASE_FILE,
        Err(_) => false,
    }
}

// Whether the two records of a node of 28 bits each are read.
fn reads_nodes() -> bool {
    let node = b"\x23\x45\x67\x18\x9A\xBC\xDE";
    read_node(node, 28, 0, 0) == 0x0123_4567 && read_node(node, 28, 0, 1) == 0x089A_BCDE
}

// Notes what a reader of the base file answers otherwise.
fn expect_rows(failures: &mut Failures, alloc: Global, reader: &Reader<&'static [u8]>) {
    for row in FOUND {
        expect_answer(failures, alloc, reader.lookup(address(row.0)), row);
    }
}

// The same of a file that may be rejected.
fn expect_base(
    failures: &mut Failures,
    alloc: Global,
    opened: Result<Reader<&'static [u8]>, MaxMindDbError>,
) {
    match opened {
        Ok(reader) => expect_rows(failures, alloc, &reader),
        Err(error) => failures.expect_text(&"a reader", reported(alloc, Err::<(), _>(error)), OK),
    }
}

#[test]
fn base_file(rt: HostRuntime) -> Result<(), Failures> {
    let (alloc, mut failures) = (rt.alloc(), Failures::new(rt.alloc()));
    failures.expect(&"its length and bytes", is_base(make_base_file(alloc)));
    failures.expect(&"a node of 28 bits", reads_nodes());
    expect_base(&mut failures, alloc, Reader::from_source(alloc, BASE_FILE));
    failures.verdict()
}

#[test]
fn laws_are_called() {
    leaves_partition();
    same_leaf_same_answer();
    network_holds_address();
    source_decides();
    range_walk();
    whole_walk();
    listed_agrees();
    items_agree_with_lookups();
    metadata_equal_where_same();
    networks_equal_where_same();
    network_clones_are_same();
    scalar_clones_are_same();
    step_clones_are_same();
    errors_hold_their_causes();
}
