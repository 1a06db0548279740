//! Lookups that begin from a table, and the nodes that they read.
use super::answers::{File, address, found_text, reader_of};
use mmdb_reader::{MaxMindDbError, Reader, Steps};
use mmdb_vectors::answer::{OK, is_ok, reported};
use mmdb_vectors::builder::{BASE_DATA, Field};
use mmdb_vectors::failures::Failures;
use std::alloc::Global;

/// An IPv6 file of one node, whose left half is the node itself: IPv4 begins on it again.
const SAME_NODE: File = File::Of(
    b"\x00\x00\x00\x00\x00\x11",
    BASE_DATA,
    &[(Field::IpVersion, b"\xA1\x06")],
);

/// A file, an address, what it is answered, and how many nodes are read.
type Counted = (File, &'static str, &'static str, u64);

#[rattlefmt::skip]
const COUNTED: &[Counted] = &[
    // leaves of each length
    (File::TwentyNodes, "0.2.0.1", "0.2.0.0/15 true Some(0)", 0),
    (File::TwentyNodes, "0.1.0.1", "0.1.0.0/16 true Some(0)", 0),
    (File::TwentyNodes, "0.0.128.1", "0.0.128.0/17 true Some(0)", 1),
    (File::TwentyNodes, "0.0.16.1", "0.0.16.0/20 true Some(0)", 4),
    (File::TwentyNodes, "0.0.0.1", "0.0.0.0/20 false None", 4),
    // the edges of leaves
    (File::TwentyNodes, "0.4.0.0", "0.4.0.0/14 true Some(0)", 0),
    (File::TwentyNodes, "0.3.255.255", "0.2.0.0/15 true Some(0)", 0),
    (File::TwentyNodes, "0.2.0.0", "0.2.0.0/15 true Some(0)", 0),
    (File::TwentyNodes, "0.1.255.255", "0.1.0.0/16 true Some(0)", 0),
    (File::TwentyNodes, "0.1.0.0", "0.1.0.0/16 true Some(0)", 0),
    (File::TwentyNodes, "0.0.255.255", "0.0.128.0/17 true Some(0)", 1),
    (File::TwentyNodes, "0.0.128.0", "0.0.128.0/17 true Some(0)", 1),
    (File::TwentyNodes, "0.0.127.255", "0.0.64.0/18 true Some(0)", 2),
    (File::TwentyNodes, "0.0.15.255", "0.0.0.0/20 false None", 4),
    (File::TwentyNodes, "255.255.255.255", "128.0.0.0/1 true Some(0)", 0),
    (File::TwentyNodes, "128.0.0.0", "128.0.0.0/1 true Some(0)", 0),
    (File::TwentyNodes, "127.255.255.255", "64.0.0.0/2 true Some(0)", 0),
    // nodes that several lead to
    (File::SharedNodes, "0.0.0.0", "0.0.0.0/18 false None", 2),
    (File::SharedNodes, "1.2.3.4", "1.2.0.0/18 false None", 2),
    (File::SharedNodes, "1.2.64.1", "1.2.64.0/18 true Some(0)", 2),
    (File::SharedNodes, "9.8.200.1", "9.8.192.0/18 true Some(0)", 2),
    (File::SharedNodes, "255.255.191.255", "255.255.128.0/18 false None", 2),
    (File::SharedNodes, "255.255.255.255", "255.255.192.0/18 true Some(0)", 2),
    // IPv4 begins on the first node
    (SAME_NODE, "0.0.0.0", "0.0.0.0/32 false None", 16),
    (SAME_NODE, "0.0.0.1", "0.0.0.1/32 true Some(0)", 16),
    (SAME_NODE, "0.0.64.1", "0.0.64.0/18 true Some(0)", 2),
    (SAME_NODE, "0.1.2.3", "0.1.0.0/16 true Some(0)", 0),
    (SAME_NODE, "200.0.0.1", "128.0.0.0/1 true Some(0)", 0),
    // IPv4 begins on the last node
    (File::WithAlias, "1.2.3.4", "0.0.0.0/1 false None", 0),
    (File::WithAlias, "200.0.0.1", "128.0.0.0/1 true Some(0)", 0),
];

// Notes where an address is answered otherwise, with a count or without, or other nodes are read.
fn expect_count(failures: &mut Failures, alloc: Global, reader: &Reader<Vec<u8>>, row: &Counted) {
    let (_, text, wanted, nodes) = row;
    let address = address(text);
    let mut steps = Steps::new();
    let counted = reader.lookup_counted(address, &mut steps);
    failures.expect_text(text, found_text(alloc, counted), wanted);
    failures.expect(&(*text, steps.count()), steps.count() == *nodes);
    failures.expect_text(text, found_text(alloc, reader.lookup(address)), wanted);
}

// The same of a file that may be rejected.
fn expect_opened(
    failures: &mut Failures,
    alloc: Global,
    opened: Result<Reader<Vec<u8>>, MaxMindDbError>,
    row: &Counted,
) {
    match opened {
        Ok(reader) => expect_count(failures, alloc, &reader, row),
        Err(error) => failures.expect_text(&row.1, reported(alloc, Err::<(), _>(error)), OK),
    }
}

#[test]
fn nodes_that_are_read(rt: HostRuntime) -> Result<(), Failures> {
    let (alloc, mut failures) = (rt.alloc(), Failures::new(rt.alloc()));
    for row in COUNTED {
        expect_opened(&mut failures, alloc, reader_of(alloc, &row.0), row);
    }
    failures.verdict()
}

/// A file, an address of IPv6, how many nodes are read at most, and whether it is answered. A lookup reads at most
/// one node for each bit of its leaf, one that fails none.
type AtMost = (File, &'static str, u64, bool);

const AT_MOST: &[AtMost] = &[
    (File::WithAlias, "::200.0.0.1", 97, true),
    (File::WithAlias, "c000::1", 2, true),
    (File::WithAlias, "4000::1", 2, true),
    (File::TwentyNodes, "::1", 0, false),
];

// Whether a lookup reads no more nodes, and is answered or not.
fn is_at_most(reader: &Reader<Vec<u8>>, row: &AtMost) -> bool {
    let (_, text, most, is_answered) = row;
    let mut steps = Steps::new();
    let found = is_ok(reader.lookup_counted(address(text), &mut steps));
    found == *is_answered && steps.count() <= *most
}

// Notes where it is not so, or the file is rejected.
fn expect_at_most(
    failures: &mut Failures,
    alloc: Global,
    opened: Result<Reader<Vec<u8>>, MaxMindDbError>,
    row: &AtMost,
) {
    match opened {
        Ok(reader) => failures.expect(&row.1, is_at_most(&reader, row)),
        Err(error) => failures.expect_text(&row.1, reported(alloc, Err::<(), _>(error)), OK),
    }
}

#[test]
fn nodes_of_ipv6(rt: HostRuntime) -> Result<(), Failures> {
    let (alloc, mut failures) = (rt.alloc(), Failures::new(rt.alloc()));
    for row in AT_MOST {
        expect_at_most(&mut failures, alloc, reader_of(alloc, &row.0), row);
    }
    failures.verdict()
}
