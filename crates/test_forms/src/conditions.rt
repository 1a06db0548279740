//! Networks that meet conditions, of one database of IPv4 and of two side by side, which can be seen in their nodes.
use mmdb_blocks::BlockKind;
use mmdb_compare::AskedDatabase;
use mmdb_layout::{Condition, Requirement, Texts};
use mmdb_query::{Addresses, Answer, Fault, Faults, Many, One, QueryError, Walk, blocks, gather};
use mmdb_query_forms::AllOf;
use mmdb_reader::{IpNetwork, MaxMindDbError, PathElement, Reader, WithinOptions};
use mmdb_vectors::builder::{Field, changed_file, nodes_24};
use mmdb_vectors::failures::Failures;
use std::alloc::{AllocError, Global};
use std::net::{IpAddr, Ipv4Addr};

/// `{"c":"A1"}` at 0, `{"c":{},"n":7}` at 6, `{"c":"B1","n":5}` at 14, and at 24 a map whose text has no end.
const DATA: &[u8] =
    b"\xE1\x41c\x42A1\xE2\x41c\xE0\x41n\xA1\x07\xE2\x41c\x42B1\x41n\xA1\x05\xE1\x41c\x5D";

/// The three nodes of a database: a record of 3 has no data, and one of 19 has that at 0.
type Tree = [(u32, u32); 3];

/// 64.0.0.0/2 has A1, 128.0.0.0/2 a map and 7, 192.0.0.0/2 B1 and 5.
const FIRST: Tree = [(1, 2), (3, 19), (25, 33)];

/// 0.0.0.0/2 has what can't be read, 128.0.0.0/2 B1 and 5, 192.0.0.0/2 A1.
const BROKEN: Tree = [(1, 2), (43, 3), (33, 19)];

/// Nobody is told of networks that can't be read.
#[derive(Drop)]
struct Silent;

impl Faults for Silent {
    fn report<A: Answer>(
        &mut self,
        _fault: &Fault<'_, A>,
        _error: &MaxMindDbError,
    ) -> Result<(), AllocError> {
        Ok(())
    }

    fn passed(&mut self, _networks: u64) {}
}

/// What a condition is on, what is wanted there, and one text.
type Wanted = (&'static str, Requirement, &'static str);

/// Databases in their order, and conditions; the blocks of the networks that meet all of them, and of how many that can't be read.
struct Row {
    trees: &'static [Tree],
    wanted: &'static [Wanted],
    blocks: &'static str,
}

#[rattlefmt::skip]
const ROWS: &[Row] = &[
    Row { trees: &[FIRST], wanted: &[], blocks: "64.0.0.0/2 128.0.0.0/1 0" },
    Row { trees: &[FIRST], wanted: &[("c", Requirement::OneOf, "A1")], blocks: "64.0.0.0/2 0" },
    // a map is none of the texts
    Row { trees: &[FIRST], wanted: &[("c", Requirement::NoneOf, "A1")], blocks: "128.0.0.0/1 0" },
    Row { trees: &[FIRST], wanted: &[("n", Requirement::OneOf, "7.0")], blocks: "128.0.0.0/2 0" },
    Row { trees: &[FIRST], wanted: &[("n", Requirement::Above, "5")], blocks: "128.0.0.0/2 0" },
    // the last condition counts as much as the first
    Row { trees: &[FIRST], wanted: &[("c", Requirement::Part, "1"), ("n", Requirement::Present, "")], blocks: "192.0.0.0/2 0" },
    Row { trees: &[FIRST], wanted: &[("n", Requirement::Present, ""), ("c", Requirement::Part, "1")], blocks: "192.0.0.0/2 0" },
    Row { trees: &[BROKEN], wanted: &[], blocks: "0.0.0.0/2 128.0.0.0/1 0" },
    Row { trees: &[BROKEN], wanted: &[("c", Requirement::Present, "")], blocks: "128.0.0.0/1 1" },
    // a value is that of the first database that has one, and what can't be read is not passed over
    Row { trees: &[FIRST, BROKEN], wanted: &[("c", Requirement::OneOf, "B1")], blocks: "192.0.0.0/2 1" },
    Row { trees: &[BROKEN, FIRST], wanted: &[("c", Requirement::OneOf, "B1")], blocks: "128.0.0.0/2 1" },
    Row { trees: &[BROKEN, FIRST], wanted: &[("n", Requirement::Below, "7")], blocks: "128.0.0.0/1 1" },
];

// A reader of a database.
fn reader_of(alloc: Global, tree: &Tree) -> Result<Reader<Vec<u8>>, MaxMindDbError> {
    let nodes = nodes_24(alloc, tree)?;
    let changes = &[(Field::NodeCount, b"\xC1\x03".as_slice())];
    let bytes = changed_file(alloc, nodes.as_slice(), DATA, changes)?;
    Reader::from_source(alloc, bytes)
}

// The conditions of a row.
fn conditions_of(alloc: Global, wanted: &[Wanted]) -> Result<Vec<Condition<'static>>, AllocError> {
    let mut conditions = Vec::new(alloc);
    for (key, requirement, text) in wanted {
        let path = Vec::from_array(alloc, [PathElement::Key(*key)])?;
        let (mut texts, wanted) = (Texts::new(alloc), *requirement);
        texts.push(*text)?;
        conditions.push(Condition {
            path,
            texts,
            wanted,
        })?;
    }
    Ok(conditions)
}

// Whether these are the blocks of the networks of a walk that meet the conditions of a row, and as many can't be read.
fn come<W: Walk>(alloc: Global, walk: &mut W, row: &Row) -> Result<bool, QueryError> {
    let conditions = conditions_of(alloc, row.wanted)?;
    let conditions = conditions.as_slice();
    let (set, unread) = gather(alloc, walk, &AllOf { conditions }, &mut Silent)?;
    let (none, mut text) = (Addresses::new(alloc), String::new(alloc));
    for block in &blocks(alloc, &set, &none, &none)?.ipv4 {
        if let Ok(network) = BlockKind::Ipv4.network_of(*block) {
            text = format!(in alloc; "{text}{network} ")?;
        }
    }
    Ok(format!(in alloc; "{text}{unread}")?.as_str() == row.blocks)
}

// Whether these are the networks of databases side by side.
fn come_of_many(alloc: Global, readers: &[Reader<Vec<u8>>], row: &Row) -> Result<bool, QueryError> {
    let Ok(range) = IpNetwork::new(IpAddr::V4(Ipv4Addr::new(0, 0, 0, 0)), 0) else {
        return Ok(false);
    };
    let mut asked = Vec::new(alloc);
    for reader in readers {
        asked.push(AskedDatabase { reader, range })?;
    }
    match Many::new(alloc, asked.as_slice()) {
        Ok(mut walk) => come(alloc, &mut walk, row),
        Err(_) => Ok(false),
    }
}

// Whether these are the networks of the databases of a row, of one of them also without others beside it.
fn holds(alloc: Global, row: &Row) -> Result<bool, QueryError> {
    let mut readers = Vec::new(alloc);
    for tree in row.trees {
        readers.push(reader_of(alloc, tree).map_err(|_| QueryError::Memory)?)?;
    }
    if let [reader] = readers.as_slice() {
        let walk = reader.networks(alloc, WithinOptions::default());
        let mut walk = One::new(walk.map_err(|_| QueryError::Memory)?);
        if !come(alloc, &mut walk, row)? {
            return Ok(false);
        }
    }
    come_of_many(alloc, readers.as_slice(), row)
}

#[test]
fn networks_by_conditions(rt: HostRuntime) -> Result<(), Failures> {
    let mut failures = Failures::new(rt.alloc());
    for at in 0..ROWS.len() {
        failures.expect(&at, holds(rt.alloc(), &ROWS[at]).unwrap_or(false));
    }
    failures.verdict()
}
