//! Rows of the networks of some kinds in a range, in databases whose networks are known by their nodes.
use super::databases::{FAULTY, FIRST, HALF, MIXED, Tree, WIDE, ipv6_reader_of, reader_of};
use super::queries::{Came, Cells, Is, MOST_KEPT, Reported, is_came, push_networks};
use mmdb_blocks::{BlockKind, Kinds};
use mmdb_compare::AskedDatabase;
use mmdb_query::{
    Addresses, Many, One, Part, QueryError, Rows, Walk, blocks, export_rows, gather_part,
};
use mmdb_reader::{IpNetwork, MaxMindDbError, Reader, WithinOptions};
use mmdb_vectors::failures::Failures;
use std::alloc::Global;

/// A database, whether it is one of IPv6, the range in which it is walked, all for none, and which kinds are asked for; the rows,
/// and how many networks can't be read.
#[derive(Clone, Copy, Debug)]
struct Row {
    tree: Tree,
    is_ipv6: bool,
    range: &'static str,
    ipv4: bool,
    ipv6: bool,
    rows: &'static str,
    count: u64,
}

#[rattlefmt::skip]
const ROWS: &[Row] = &[
    Row { tree: FIRST, is_ipv6: false, range: "", ipv4: false, ipv6: false, rows: "64.0.0.0/2 A\n128.0.0.0/2 B\n192.0.0.0/2 A\n", count: 0 },
    Row { tree: FIRST, is_ipv6: false, range: "", ipv4: true, ipv6: false, rows: "64.0.0.0/2 A\n128.0.0.0/2 B\n192.0.0.0/2 A\n", count: 0 },
    Row { tree: FIRST, is_ipv6: false, range: "", ipv4: false, ipv6: true, rows: "", count: 0 },
    // what lies in the range is as it is, and what has it is the range
    Row { tree: FIRST, is_ipv6: false, range: "128.0.0.0/1", ipv4: false, ipv6: false, rows: "128.0.0.0/2 B\n192.0.0.0/2 A\n", count: 0 },
    Row { tree: FIRST, is_ipv6: false, range: "64.0.0.0/2", ipv4: false, ipv6: false, rows: "64.0.0.0/2 A\n", count: 0 },
    Row { tree: FIRST, is_ipv6: false, range: "64.0.0.0/3", ipv4: false, ipv6: false, rows: "64.0.0.0/3 A\n", count: 0 },
    Row { tree: FIRST, is_ipv6: false, range: "127.1.2.3/8", ipv4: false, ipv6: false, rows: "127.0.0.0/8 A\n", count: 0 },
    Row { tree: FIRST, is_ipv6: false, range: "255.255.255.255/32", ipv4: false, ipv6: false, rows: "255.255.255.255/32 A\n", count: 0 },
    Row { tree: FIRST, is_ipv6: false, range: "1.2.3.4/32", ipv4: false, ipv6: false, rows: "", count: 0 },
    Row { tree: FIRST, is_ipv6: false, range: "64.0.0.0/3", ipv4: false, ipv6: true, rows: "", count: 0 },
    // a network that can't be read may be of any kind
    Row { tree: FAULTY, is_ipv6: false, range: "", ipv4: true, ipv6: false, rows: "128.0.0.0/2 B\n192.0.0.0/2 A\n", count: 1 },
    Row { tree: FAULTY, is_ipv6: false, range: "", ipv4: false, ipv6: true, rows: "", count: 1 },
    Row { tree: MIXED, is_ipv6: true, range: "", ipv4: false, ipv6: false, rows: "0.0.0.0/1 A\n128.0.0.0/1 B\n8000::/1 B\n", count: 0 },
    Row { tree: MIXED, is_ipv6: true, range: "", ipv4: true, ipv6: true, rows: "0.0.0.0/1 A\n128.0.0.0/1 B\n8000::/1 B\n", count: 0 },
    Row { tree: MIXED, is_ipv6: true, range: "", ipv4: true, ipv6: false, rows: "0.0.0.0/1 A\n128.0.0.0/1 B\n", count: 0 },
    Row { tree: MIXED, is_ipv6: true, range: "", ipv4: false, ipv6: true, rows: "8000::/1 B\n", count: 0 },
    Row { tree: MIXED, is_ipv6: true, range: "0.0.0.0/4", ipv4: true, ipv6: false, rows: "0.0.0.0/4 A\n", count: 0 },
    Row { tree: MIXED, is_ipv6: true, range: "0.0.0.0/4", ipv4: false, ipv6: true, rows: "", count: 0 },
    // what has a range of IPv6 stays of IPv4
    Row { tree: MIXED, is_ipv6: true, range: "::/96", ipv4: false, ipv6: false, rows: "0.0.0.0/1 A\n128.0.0.0/1 B\n", count: 0 },
    Row { tree: MIXED, is_ipv6: true, range: "::/97", ipv4: false, ipv6: false, rows: "0.0.0.0/1 A\n", count: 0 },
    Row { tree: MIXED, is_ipv6: true, range: "::/100", ipv4: false, ipv6: false, rows: "0.0.0.0/4 A\n", count: 0 },
    Row { tree: MIXED, is_ipv6: true, range: "::/100", ipv4: false, ipv6: true, rows: "", count: 0 },
    Row { tree: MIXED, is_ipv6: true, range: "8000::/8", ipv4: false, ipv6: true, rows: "8000::/8 B\n", count: 0 },
    Row { tree: WIDE, is_ipv6: true, range: "::/64", ipv4: false, ipv6: false, rows: "::/64 A\n", count: 0 },
    Row { tree: WIDE, is_ipv6: true, range: "::/1", ipv4: false, ipv6: false, rows: "::/1 A\n", count: 0 },
    Row { tree: WIDE, is_ipv6: true, range: "::/0", ipv4: false, ipv6: false, rows: "::/1 A\n8000::/1 B\n", count: 0 },
    // a network of IPv6 is left out as one, though what it has of the range is of IPv4
    Row { tree: WIDE, is_ipv6: true, range: "1.2.3.0/24", ipv4: false, ipv6: false, rows: "1.2.3.0/24 A\n", count: 0 },
    Row { tree: WIDE, is_ipv6: true, range: "1.2.3.0/24", ipv4: false, ipv6: true, rows: "1.2.3.0/24 A\n", count: 0 },
    Row { tree: WIDE, is_ipv6: true, range: "1.2.3.0/24", ipv4: true, ipv6: false, rows: "", count: 0 },
    Row { tree: WIDE, is_ipv6: true, range: "0.0.0.0/0", ipv4: false, ipv6: false, rows: "0.0.0.0/0 A\n", count: 0 },
];

/// Databases of one version, the range in which each is asked, the range that is wanted, all for none, and which kinds are asked
/// for; the rows.
#[derive(Clone, Copy, Debug)]
struct Beside {
    trees: &'static [Tree],
    is_ipv6: bool,
    asked: &'static str,
    range: &'static str,
    ipv4: bool,
    ipv6: bool,
    rows: &'static str,
}

#[rattlefmt::skip]
const BESIDE: &[Beside] = &[
    Beside { trees: &[FIRST, HALF], is_ipv6: false, asked: "0.0.0.0/0", range: "", ipv4: true, ipv6: false, rows: "0.0.0.0/2 B\n64.0.0.0/2 A\n128.0.0.0/2 B\n192.0.0.0/2 A\n" },
    Beside { trees: &[FIRST, HALF], is_ipv6: false, asked: "0.0.0.0/0", range: "", ipv4: false, ipv6: true, rows: "" },
    Beside { trees: &[FIRST, HALF], is_ipv6: false, asked: "64.0.0.0/3", range: "64.0.0.0/3", ipv4: false, ipv6: false, rows: "64.0.0.0/3 A\n" },
    Beside { trees: &[FIRST, HALF], is_ipv6: false, asked: "0.0.0.0/1", range: "0.0.0.0/1", ipv4: false, ipv6: false, rows: "0.0.0.0/2 B\n64.0.0.0/2 A\n" },
    // what hasn't all of the range is as it is
    Beside { trees: &[FIRST, HALF], is_ipv6: false, asked: "0.0.0.0/0", range: "72.0.0.0/5", ipv4: false, ipv6: false, rows: "0.0.0.0/2 B\n72.0.0.0/5 A\n128.0.0.0/2 B\n192.0.0.0/2 A\n" },
    Beside { trees: &[MIXED, WIDE], is_ipv6: true, asked: "0.0.0.0/2", range: "0.0.0.0/2", ipv4: true, ipv6: false, rows: "0.0.0.0/2 A\n" },
    Beside { trees: &[MIXED, WIDE], is_ipv6: true, asked: "::/98", range: "::/98", ipv4: true, ipv6: false, rows: "0.0.0.0/2 A\n" },
    Beside { trees: &[MIXED, WIDE], is_ipv6: true, asked: "8000::/8", range: "8000::/8", ipv4: false, ipv6: true, rows: "8000::/8 B\n" },
    Beside { trees: &[MIXED, WIDE], is_ipv6: true, asked: "8000::/8", range: "8000::/8", ipv4: true, ipv6: false, rows: "" },
    Beside { trees: &[WIDE, MIXED], is_ipv6: true, asked: "128.0.0.0/3", range: "128.0.0.0/3", ipv4: false, ipv6: false, rows: "128.0.0.0/3 A\n" },
    // asked in a range of IPv4, they have networks of IPv4 alone
    Beside { trees: &[WIDE, WIDE], is_ipv6: true, asked: "1.2.3.0/24", range: "1.2.3.0/24", ipv4: true, ipv6: false, rows: "1.2.3.0/24 A\n" },
    Beside { trees: &[WIDE, WIDE], is_ipv6: true, asked: "1.2.3.0/24", range: "1.2.3.0/24", ipv4: false, ipv6: true, rows: "" },
];

/// A database, whether it is one of IPv6, the range in which it is walked, all for none, and which kinds are asked for; the blocks
/// of the addresses of its networks.
#[derive(Clone, Copy, Debug)]
struct Gathered {
    tree: Tree,
    is_ipv6: bool,
    range: &'static str,
    ipv4: bool,
    ipv6: bool,
    ipv4_blocks: &'static str,
    ipv6_blocks: &'static str,
}

#[rattlefmt::skip]
const GATHERED: &[Gathered] = &[
    Gathered { tree: FIRST, is_ipv6: false, range: "", ipv4: false, ipv6: false, ipv4_blocks: "64.0.0.0/2 128.0.0.0/1 ", ipv6_blocks: "" },
    Gathered { tree: MIXED, is_ipv6: true, range: "", ipv4: false, ipv6: false, ipv4_blocks: "0.0.0.0/0 ", ipv6_blocks: "8000::/1 " },
    Gathered { tree: MIXED, is_ipv6: true, range: "", ipv4: true, ipv6: false, ipv4_blocks: "0.0.0.0/0 ", ipv6_blocks: "" },
    Gathered { tree: MIXED, is_ipv6: true, range: "", ipv4: false, ipv6: true, ipv4_blocks: "", ipv6_blocks: "8000::/1 " },
    Gathered { tree: MIXED, is_ipv6: true, range: "0.0.0.0/4", ipv4: false, ipv6: false, ipv4_blocks: "0.0.0.0/4 ", ipv6_blocks: "" },
    Gathered { tree: WIDE, is_ipv6: true, range: "::/1", ipv4: false, ipv6: false, ipv4_blocks: "", ipv6_blocks: "::/1 " },
];

// What an error of a database is here.
fn of_database(_error: MaxMindDbError) -> QueryError {
    QueryError::Memory
}

// The range that a text names.
fn named(text: &str) -> Result<IpNetwork, QueryError> {
    match text.parse() {
        Ok(range) => Ok(range),
        Err(_) => Err(QueryError::OutOfOrder),
    }
}

// The same, where it may name none.
fn range_of(text: &str) -> Result<Option<IpNetwork>, QueryError> {
    if text.is_empty() {
        return Ok(None);
    }
    Ok(Some(named(text)?))
}

// A reader of a database.
fn opened(alloc: Global, tree: Tree, is_ipv6: bool) -> Result<Reader<Vec<u8>>, QueryError> {
    let reader = if is_ipv6 {
        ipv6_reader_of(alloc, tree)
    } else {
        reader_of(alloc, tree)
    };
    reader.map_err(of_database)
}

// The rows of the part that is wanted of a walk.
fn rows_of_part<W: Walk + Drop>(alloc: Global, part: Part<W>) -> Result<Came, QueryError> {
    let mut part = part;
    let mut faults = Reported {
        text: Vec::new(alloc),
    };
    let mut text = Vec::new(alloc);
    let template = Cells { front: "" };
    let mut rows = Rows::new(alloc, &template, (), MOST_KEPT)?;
    let count = export_rows(
        alloc,
        &mut part,
        &mut rows,
        &Is { text: None },
        &mut text,
        &mut faults,
    )?;
    Ok(Came {
        text,
        reported: faults.text,
        count,
    })
}

// The networks of a database in a range, if there is one.
fn walk_of<'a>(
    alloc: Global,
    reader: &'a Reader<Vec<u8>>,
    range: Option<IpNetwork>,
) -> Result<One<'a, Vec<u8>>, QueryError> {
    let options = WithinOptions::default();
    let walk = match range {
        Some(range) => reader.within(alloc, range, options),
        None => reader.networks(alloc, options),
    };
    Ok(One::new(walk.map_err(of_database)?))
}

// The blocks of a row of the table of addresses, of each kind.
fn blocks_of(alloc: Global, row: &Gathered) -> Result<[Vec<u8>; 2], QueryError> {
    let reader = opened(alloc, row.tree, row.is_ipv6)?;
    let range = range_of(row.range)?;
    let walk = walk_of(alloc, &reader, range)?;
    let kinds = Kinds::asked(row.ipv4, row.ipv6);
    let mut faults = Reported {
        text: Vec::new(alloc),
    };
    let all = Is { text: None };
    let (addresses, _) = gather_part(alloc, walk, kinds, range, &all, &mut faults)?;
    let none = Addresses::new(alloc);
    let listed = blocks(alloc, &addresses, &none, &none)?;
    let mut texts = [Vec::new(alloc), Vec::new(alloc)];
    push_networks(BlockKind::Ipv4, listed.ipv4.as_slice(), &mut texts[0])?;
    push_networks(BlockKind::Ipv6, listed.ipv6.as_slice(), &mut texts[1])?;
    Ok(texts)
}

// The rows of a row of the table of one database.
fn rows_of(alloc: Global, row: &Row) -> Result<Came, QueryError> {
    let reader = opened(alloc, row.tree, row.is_ipv6)?;
    let range = range_of(row.range)?;
    let walk = walk_of(alloc, &reader, range)?;
    let kinds = Kinds::asked(row.ipv4, row.ipv6);
    rows_of_part(alloc, Part { walk, kinds, range })
}

// The rows of a row of the table of several.
fn rows_beside(alloc: Global, row: &Beside) -> Result<Came, QueryError> {
    let mut readers = Vec::new(alloc);
    for tree in row.trees {
        readers.push(opened(alloc, *tree, row.is_ipv6)?)?;
    }
    let mut asked = Vec::new(alloc);
    for reader in &readers {
        let range = named(row.asked)?;
        asked.push(AskedDatabase { reader, range })?;
    }
    let Ok(walk) = Many::new(alloc, asked.as_slice()) else {
        return Err(QueryError::Memory);
    };
    let kinds = Kinds::asked(row.ipv4, row.ipv6);
    let range = range_of(row.range)?;
    rows_of_part(alloc, Part { walk, kinds, range })
}

#[test]
fn rows_in_a_range(rt: HostRuntime) -> Result<(), Failures> {
    let mut failures = Failures::new(rt.alloc());
    for row in ROWS {
        let came = rows_of(rt.alloc(), row);
        let reported = if row.count == 0 { "" } else { "-!" };
        failures.expect(row, is_came(&came, row.rows, reported, row.count));
    }
    failures.verdict()
}

#[test]
fn addresses_in_a_range(rt: HostRuntime) -> Result<(), Failures> {
    let mut failures = Failures::new(rt.alloc());
    for row in GATHERED {
        match blocks_of(rt.alloc(), row) {
            Ok([ipv4, ipv6]) => {
                failures.expect(row, ipv4.as_slice() == row.ipv4_blocks.as_bytes());
                failures.expect(row, ipv6.as_slice() == row.ipv6_blocks.as_bytes());
            }
            Err(_) => failures.expect(row, false),
        }
    }
    failures.verdict()
}

#[test]
fn rows_of_several_in_a_range(rt: HostRuntime) -> Result<(), Failures> {
    let mut failures = Failures::new(rt.alloc());
    for row in BESIDE {
        let came = rows_beside(rt.alloc(), row);
        failures.expect(row, is_came(&came, row.rows, "", 0));
    }
    failures.verdict()
}
