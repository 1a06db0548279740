//! The fields of records that share values by pointers.
use crate::tests::asserted::assert_of;
use mmdb_vectors::builder::{Field, changed_file, push_node_24};
use std::alloc::{AllocError, Global};
use test_runs::program::run_of;
use test_runs::trees::file_of_nodes;

/// At 0 the map {"x": "s"}, at 5 {"x": true}, and records: at 10 {"a": the first, "l": [the first, the second]}, at 23 {"a": the
/// first, "l": [the second]}, at 34 {"a": the second, "l": [the second]}, at 45 {"a": the first, "a": the first}, at 54 a pointer
/// to the one at 23, at 56 {"a": T} with a text that is not UTF-8.
const DATA: &[u8] =
    b"\xE1\x41x\x41s\xE1\x41x\x01\x07\xE2\x41a\x20\x00\x41l\x02\x04\x20\x00\x20\x05\xE2\x41a\x20\x00\x41l\x01\x04\x20\x05\xE2\x41a\x20\x05\x41l\x01\x04\x20\x05\xE2\x41a\x20\x00\x41a\x20\x00\x20\x17\xE1\x41a\x41\xFF";

/// Three nodes that lead to others, and the records: offset o is 23 + o.
const NODES: &[(u32, u32)] = &[
    (1, 2),
    (3, 4),
    (5, 6),
    (33, 46),
    (57, 68),
    (77, 79),
    (7, 33),
];

/// The words of a run.
const WORDS: &[&str] = &["info", "here.mmdb", "--fields"];

#[test]
fn records_that_share_values(rt: HostRuntime) {
    let bytes = file_of_nodes(rt.alloc(), NODES, b"\xC1\x07", DATA).expect(&rt, "a file");
    let run = run_of(rt.alloc(), bytes.as_slice(), WORDS, "");
    let fields =
        "\nrecords:     5\n5\tmap\t\n5\tmap\ta\n4\tstring\ta.x\n1\tbool\ta.x\n4\tarray\tl\n4\tmap\tl.0\n1\tstring\tl.0.x\n4\tbool\tl.0.x\n";
    let said = "mmdb: here.mmdb: 1 of its records can't be read, the first: ";
    assert_of(
        &rt,
        WORDS,
        &run,
        run.status == 1 && run.out().ends_with(fields) && run.err().starts_with(said),
    );
}

/// How many records share a map, how many keys that has, and where the records begin.
const RECORDS: u32 = 4_096;

const KEYS: u32 = 10_000;

const BEHIND: u32 = 80_003;

// A map of keys from 10000 on, and records {"n": N, "m": the map} of ten bytes each.
fn shared_data(alloc: Global) -> Result<Vec<u8>, AllocError> {
    let mut data = Vec::new(alloc);
    data.extend_from_slice(b"\xFE\x25\xF3")?;
    for number in 0..KEYS {
        let key: String = format!(in alloc; "\x45{}\x01\x07", number + 10_000)?;
        data.extend_from_slice(key.as_bytes())?;
    }
    for record in 0..RECORDS {
        let [_, _, high, low] = record.to_be_bytes();
        data.extend_from_slice(b"\xE2\x41n\xC2")?;
        data.extend_from_slice(&[high, low])?;
        data.extend_from_slice(b"\x41m\x20\x00")?;
    }
    Ok(data)
}

// The number of a record in a tree of so many nodes.
fn leaf_of(record: u32) -> u32 {
    let before = RECORDS + 15 + BEHIND;
    before.saturating_add(record.saturating_mul(10))
}

// A tree of twelve levels, each of whose leaves leads to another record.
fn shared_tree(alloc: Global) -> Result<Vec<u8>, AllocError> {
    let mut nodes = Vec::new(alloc);
    for node in 0..RECORDS - 1 {
        let left = 2 * node + 1;
        if left < RECORDS - 1 {
            push_node_24(&mut nodes, left, left + 1)?;
        } else {
            let record = left - (RECORDS - 1);
            push_node_24(&mut nodes, leaf_of(record), leaf_of(record + 1))?;
        }
    }
    Ok(nodes)
}

// A file of such a tree and such records.
fn shared_file(alloc: Global) -> Result<Vec<u8>, AllocError> {
    let (tree, data) = (shared_tree(alloc)?, shared_data(alloc)?);
    let changes: &[(Field, &[u8])] = &[(Field::NodeCount, b"\xC2\x0F\xFF")];
    changed_file(alloc, tree.as_slice(), data.as_slice(), changes)
}

#[test]
fn records_without_maps_of_their_own(rt: HostRuntime) {
    let bytes = shared_file(rt.alloc()).expect(&rt, "a file");
    let run = run_of(rt.alloc(), bytes.as_slice(), WORDS, "");
    let of_all = run
        .out()
        .lines()
        .filter(|line| line.starts_with("4096\t"))
        .count();
    let last = "4096\tbool\tm.\"19999\"\n4096\tuint32\tn\n";
    assert_of(
        &rt,
        WORDS,
        &run,
        run.status == 0 && of_all == 10_003 && run.out().ends_with(last),
    );
}
