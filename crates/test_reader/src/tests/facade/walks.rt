//! Walks over networks, one by one.
use super::answers::{assert_row, assert_text, opened, range_of, reported, to_error};
use maxminddb::{IpNetwork, LookupResult, MaxMindDbError, Within, WithinOptions};
use mmdb_vectors::builder::{BASE, BASE_NODE, base_file, base_with_node, file};
use mmdb_vectors::hoard::Hoard;
use std::alloc::{AllocError, Global};
use std::process::Abort;

// The text of a network and of its offset, or of an error.
fn network_text(
    alloc: Global,
    network: Result<IpNetwork, MaxMindDbError>,
    offset: Option<usize>,
) -> Result<String, AllocError> {
    match network {
        Ok(network) => format!(in alloc; "{network} {offset:?}"),
        Err(error) => to_error(alloc, error),
    }
}

// What an item says.
fn item_text(
    alloc: Global,
    item: Result<LookupResult<'_, Vec<u8>>, MaxMindDbError>,
) -> Result<String, AllocError> {
    match item {
        Ok(found) => network_text(alloc, found.network(), found.offset()),
        Err(error) => network_text(alloc, Err(error), None),
    }
}

// What a call of `next` says: a network and its offset, or that no item is left.
fn call_text(
    alloc: Global,
    called: Option<Result<LookupResult<'_, Vec<u8>>, MaxMindDbError>>,
) -> Result<String, AllocError> {
    match called {
        Some(item) => item_text(alloc, item),
        None => String::from_str(alloc, "end"),
    }
}

/// What the calls of `next` say of a walk over the whole space of the base file, without data too.
const WHOLE_SPACE: &[&str] = &["0.0.0.0/1 None", "128.0.0.0/1 Some(0)", "end", "end"];

// Asserts what the calls of `next` answer of a walk that does not fail.
fn assert_walk(
    rt: &impl Abort,
    alloc: Global,
    walk: Result<Within<'_, Vec<u8>>, MaxMindDbError>,
    texts: &[&str],
) {
    match walk {
        Ok(mut walk) => {
            for text in texts {
                assert_text(rt, call_text(alloc, walk.next()), text);
            }
        }
        Err(error) => assert_text(rt, to_error(alloc, error), "a walk"),
    }
}

#[test]
fn whole_space_and_its_end(rt: HostRuntime) {
    let alloc = rt.alloc();
    let reader = opened(&rt, alloc, base_file(alloc));
    let whole = range_of(&rt, "0.0.0.0/0");
    let options = WithinOptions::default().include_networks_without_data();
    let walk = reader.within(alloc, whole, options);
    assert_walk(&rt, alloc, walk, WHOLE_SPACE);
}

#[test]
fn ipv6_range_in_ipv4_database(rt: HostRuntime) {
    let alloc = rt.alloc();
    let reader = opened(&rt, alloc, base_file(alloc));
    let range = range_of(&rt, "::/0");
    let walk = reader.within(alloc, range, WithinOptions::default());
    let text = "invalid input: cannot iterate IPv6 network in IPv4-only database";
    assert_text(&rt, reported(alloc, walk, "walked"), text);
}

/// Nodes, data, and the first item of a walk that skips empty values.
type FirstItem = (&'static [u8], &'static [u8], &'static str);

/// A fault of the tree has no place; a header that can't be read has that of the value in the file, where the data
/// begin at 22.
#[rattlefmt::skip]
const FIRST_ITEMS: &[FirstItem] = &[
    (BASE_NODE, b"\x41x", "found"),
    (
        b"\x00\x00\x10\x00\x00\x11",
        b"\x41x",
        "invalid database: the MaxMind DB file's data pointer resolves to an invalid location",
    ),
    (
        b"\x00\x00\x00\x00\x00\x11",
        b"\x41x",
        "invalid database: search tree appears to have a cycle or invalid structure (traversal exceeded the address bit length)",
    ),
    (
        BASE_NODE,
        b"\x20\x02\x20\x00",
        "invalid database at offset 22: pointer points to another pointer",
    ),
    (BASE_NODE, b"\x00", "invalid database at offset 22: unexpected end of buffer"),
    (BASE_NODE, b"\x20", "invalid database at offset 22: unexpected end of buffer"),
    (BASE_NODE, b"\x20\x05", "invalid database at offset 22: unexpected end of buffer"),
    (
        b"\x00\x00\x01\x00\x00\x12",
        b"\x40\x5D",
        "invalid database at offset 23: unexpected end of buffer",
    ),
];

// What the first item of a walk says.
fn first_reported(
    alloc: Global,
    walk: Result<Within<'_, Vec<u8>>, MaxMindDbError>,
) -> Result<String, AllocError> {
    match walk {
        Ok(mut walk) => next_reported(alloc, walk.next()),
        Err(error) => to_error(alloc, error),
    }
}

fn next_reported(
    alloc: Global,
    next: Option<Result<LookupResult<'_, Vec<u8>>, MaxMindDbError>>,
) -> Result<String, AllocError> {
    match next {
        Some(item) => reported(alloc, item, "found"),
        None => String::from_str(alloc, "no item"),
    }
}

// Asserts the text of the first item of a walk that skips empty values.
fn assert_first_item(rt: &impl Abort, alloc: Global, row: &FirstItem) {
    let (nodes, data, text) = row;
    let reader = opened(rt, alloc, file(alloc, nodes, data, BASE));
    let options = WithinOptions::default().skip_empty_values();
    let reported = first_reported(alloc, reader.networks(alloc, options));
    assert_text(rt, reported, text);
}

#[test]
fn first_items(rt: HostRuntime) {
    for row in FIRST_ITEMS {
        assert_first_item(&rt, rt.alloc(), row);
    }
}

// How many items of a walk are faults and how many are networks, where every allocation fails.
fn counts_without_memory(alloc: Global, walk: Within<'_, Vec<u8>>) -> (u32, u32) {
    let large = Hoard::of_large_blocks(alloc);
    let small = Hoard::of_all_left(alloc);
    let mut faults = 0u32;
    let mut networks = 0u32;
    for item in walk {
        match item {
            Ok(_found) => networks = networks.saturating_add(1),
            Err(_fault) => faults = faults.saturating_add(1),
        }
    }
    drop(small);
    drop(large);
    (faults, networks)
}

// The same of a walk that does not fail.
fn counts_of(
    alloc: Global,
    walk: Result<Within<'_, Vec<u8>>, MaxMindDbError>,
) -> Option<(u32, u32)> {
    match walk {
        Ok(walk) => Some(counts_without_memory(alloc, walk)),
        Err(error) => no_counts(error),
    }
}

fn no_counts<E: Drop>(_error: E) -> Option<(u32, u32)> {
    None
}

#[test]
fn left_spine_without_memory(rt: HostRuntime) {
    let alloc = rt.alloc();
    let node = b"\x00\x00\x00\x00\x00\x11";
    let reader = opened(&rt, alloc, base_with_node(alloc, node));
    let counts = counts_of(alloc, reader.networks(alloc, WithinOptions::default()));
    assert_row(&rt, counts == Some((1, 32)), &counts);
}
