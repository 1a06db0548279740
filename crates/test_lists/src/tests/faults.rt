//! Exports and differences of records of which some can't be read, one after another in many orders: what can be read is
//! written all the same, whichever way it is laid out, and each other one is reported.
ghost use Rattle.std.specs.Prelude.{◌<◌};

use crate::tests::asserted::assert_of;
use mmdb_vectors::builder::{Field, changed_file, nodes_24};
use std::alloc::{AllocError, Global};
use std::process::Abort;
use test_runs::program::{Run, run_over, two_files};

/// How many networks there are, each with a record of its own.
const NETWORKS: u8 = 64;

/// Whether the records of networks can be read (g) or not (b), again and again.
const ORDERS: &[&str] = &[
    "g",
    "b",
    "gb",
    "bg",
    "bgg",
    "bbg",
    "bggg",
    "bgggg",
    "bggggg",
    "bbggggggggggggg",
    "gggggggggb",
    "bbbbbbbbgggggggg",
    "bbbbbgggggggggggggggggggggggggggggggggggggggggggggggggggggggggbg",
];

// Whether the record of a network can be read.
fn is_good(order: &str, network: u8) -> bool {
    let place = usize::from(network) % order.len().max(1);
    order.as_bytes().get(place) != Some(&b'b')
}

// A file of a tree that is full. A record that can be read is a number: its network's, and so many more.
fn file_in(alloc: Global, order: &str, more: u8) -> Result<Vec<u8>, AllocError> {
    let mut data = Vec::new(alloc);
    let mut nodes = Vec::new(alloc);
    for node in 0..31u32 {
        nodes.push((2 * node + 1, 2 * node + 2))?;
    }
    for network in 0..NETWORKS {
        if is_good(order, network) {
            data.extend_from_slice(&[0xA1, network.wrapping_add(more)])?;
        } else {
            data.extend_from_slice(b"\x41\xFF")?;
        }
    }
    for pair in 0..u32::from(NETWORKS / 2) {
        nodes.push((63 + 16 + 4 * pair, 63 + 16 + 4 * pair + 2))?;
    }
    let tree = nodes_24(alloc, nodes.as_slice())?;
    let changes = [
        (Field::NodeCount, b"\xC1\x3F".as_slice()),
        (Field::IpVersion, b"\xA1\x04"),
    ];
    changed_file(alloc, tree.as_slice(), data.as_slice(), &changes)
}

// What an export writes.
fn exported(alloc: Global, order: &str) -> Result<String, AllocError> {
    let mut text = String::new(alloc);
    for network in 0..NETWORKS {
        if is_good(order, network) {
            let first = network.wrapping_mul(4);
            let line: String = format!(in alloc;
                "{{\"network\":\"{first}.0.0.0/6\",\"record\":{network}}}\n"
            )?;
            text.push_str(line.as_str())?;
        }
    }
    Ok(text)
}

// What a comparison with a file writes whose records can be read, and are greater by one.
fn changed(alloc: Global, order: &str) -> Result<String, AllocError> {
    let mut text = String::new(alloc);
    for network in 0..NETWORKS {
        if is_good(order, network) {
            let first = network.wrapping_mul(4);
            let more = network.wrapping_add(1);
            let line: String = format!(in alloc;
                "{{\"network\":\"{first}.0.0.0/6\",\"old\":{network},\"new\":{more}}}\n"
            )?;
            text.push_str(line.as_str())?;
        }
    }
    Ok(text)
}

/// How many networks are named that can't be read. The others are counted.
const MOST_NAMED: usize = 10;

// Whether each of the first records that can't be read is reported once, by its network behind this name, and how many there
// are.
fn are_reported(alloc: Global, name: &str, order: &str, run: &Run) -> Result<bool, AllocError> {
    let mut bad = 0usize;
    for network in 0..NETWORKS {
        let first = network.wrapping_mul(4);
        let line: String = format!(in alloc; "{name}: {first}.0.0.0/6: ")?;
        let count = run.err().split(line.as_str()).count().saturating_sub(1);
        let is_named = !is_good(order, network) && bad < MOST_NAMED;
        if count != usize::from(is_named) {
            return Ok(false);
        }
        bad = bad.saturating_add(usize::from(!is_good(order, network)));
    }
    let count: String = format!(in alloc; "mmdb: {bad} networks could not be read\n")?;
    Ok(run.err().contains(count.as_str()) == (bad > 0))
}

// Asserts that a run writes this, and reports what can't be read.
fn assert_run(
    rt: &impl Abort,
    alloc: Global,
    bytes: (&[u8], &[u8]),
    texts: &[&str],
    order: &str,
    name: &str,
    wanted: &str,
) {
    let run = run_over(alloc, &two_files(bytes.0, bytes.1), texts, "", false);
    let status = u8::from(order.as_bytes().contains(&b'b'));
    assert_of(rt, texts, &run, run.status == status);
    assert!(rt; run.out() == wanted, "{order}: {}", run.out());
    let are_reported = are_reported(alloc, name, order, &run).expect(rt, "names");
    assert!(rt; are_reported, "{order}: {}", run.err());
}

#[test]
fn exports_of_records_in_turn(rt: HostRuntime) {
    let alloc = rt.alloc();
    for order in ORDERS {
        let file = file_in(alloc, order, 0).expect(&rt, "a file");
        let wanted = exported(alloc, order).expect(&rt, "a text");
        let bytes = (file.as_slice(), b"".as_slice());
        let texts = &["export", "here.mmdb"];
        assert_run(&rt, alloc, bytes, texts, order, "mmdb", wanted.as_str());
    }
}

#[test]
fn differences_of_records_in_turn(rt: HostRuntime) {
    let alloc = rt.alloc();
    for order in ORDERS {
        let good = file_in(alloc, "g", 1).expect(&rt, "a file");
        let file = file_in(alloc, order, 0).expect(&rt, "a file");
        let wanted = changed(alloc, order).expect(&rt, "a text");
        let bytes = (file.as_slice(), good.as_slice());
        let texts = &["diff", "here.mmdb", "new.mmdb"];
        assert_run(
            &rt,
            alloc,
            bytes,
            texts,
            order,
            "here.mmdb",
            wanted.as_str(),
        );
    }
}
