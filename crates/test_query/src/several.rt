//! Rows and sets of addresses of several databases side by side, whose networks are known by their nodes.
use super::databases::{BROKEN, FALLS, FAULTY, FIRST, HALF, RISES, Tree, reader_of};
use super::queries::{Came, Cells, Is, MOST_KEPT, Reported, is_came, push_networks};
use mmdb_blocks::BlockKind;
use mmdb_compare::AskedDatabase;
use mmdb_query::{Addresses, Many, QueryError, Rows, blocks, export_rows, gather};
use mmdb_reader::{IpNetwork, MaxMindDbError, Reader};
use mmdb_vectors::failures::Failures;
use mmdb_vectors::hoard::Hoard;
use std::alloc::Global;
use std::net::{IpAddr, Ipv4Addr};

/// Databases in their order, and what their field has to be; the rows, the networks that can't be read, and how many they are;
/// those of them that conditions can't be asked of, and the blocks of the addresses.
#[derive(Clone, Copy, Debug)]
struct Row {
    trees: &'static [Tree],
    text: Option<&'static str>,
    rows: &'static str,
    unread: &'static str,
    count: u64,
    unmet: &'static str,
    blocks: &'static str,
}

#[rattlefmt::skip]
const ROWS: &[Row] = &[
    Row { trees: &[], text: None, rows: "", unread: "", count: 0, unmet: "", blocks: "" },
    Row { trees: &[FIRST], text: None, rows: "64.0.0.0/2 A\n128.0.0.0/2 B\n192.0.0.0/2 A\n", unread: "", count: 0, unmet: "", blocks: "64.0.0.0/2 128.0.0.0/1 " },
    // the value is that of the first database that has one
    Row { trees: &[FIRST, HALF], text: None, rows: "0.0.0.0/2 B\n64.0.0.0/2 A\n128.0.0.0/2 B\n192.0.0.0/2 A\n", unread: "", count: 0, unmet: "", blocks: "0.0.0.0/0 " },
    // two networks of the same value are not one row where the other database divides them
    Row { trees: &[HALF, FIRST], text: None, rows: "0.0.0.0/2 B\n64.0.0.0/2 B\n128.0.0.0/2 B\n192.0.0.0/2 A\n", unread: "", count: 0, unmet: "", blocks: "0.0.0.0/0 " },
    Row { trees: &[FIRST, HALF], text: Some("B"), rows: "0.0.0.0/2 B\n128.0.0.0/2 B\n", unread: "", count: 0, unmet: "", blocks: "0.0.0.0/2 128.0.0.0/2 " },
    // what can't be read is not passed over for what the next database has, and is not read where the one before has a value
    Row { trees: &[BROKEN, HALF], text: None, rows: "0.0.0.0/2 ?\n192.0.0.0/2 A\n", unread: "64.0.0.0/2!", count: 1, unmet: "", blocks: "0.0.0.0/1 192.0.0.0/2 " },
    Row { trees: &[BROKEN, HALF], text: Some("A"), rows: "192.0.0.0/2 A\n", unread: "64.0.0.0/2!", count: 1, unmet: "64.0.0.0/2!", blocks: "192.0.0.0/2 " },
    Row { trees: &[HALF, BROKEN], text: None, rows: "0.0.0.0/2 B\n64.0.0.0/2 B\n192.0.0.0/2 A\n", unread: "", count: 0, unmet: "", blocks: "0.0.0.0/1 192.0.0.0/2 " },
    // up to the next network of a database nothing is known after a leaf that can't be read
    Row { trees: &[FAULTY, HALF], text: None, rows: "128.0.0.0/2 B\n192.0.0.0/2 A\n", unread: "-!", count: 1, unmet: "-!", blocks: "128.0.0.0/1 " },
    Row { trees: &[HALF, FAULTY], text: None, rows: "128.0.0.0/2 B\n192.0.0.0/2 A\n", unread: "-!", count: 1, unmet: "-!", blocks: "128.0.0.0/1 " },
];

/// Databases whose networks divide each other: how many rows there are, the first and the last of them, and the blocks.
#[derive(Clone, Copy, Debug)]
struct Divided {
    trees: &'static [Tree],
    text: Option<&'static str>,
    lines: usize,
    first: &'static str,
    last: &'static str,
    blocks: &'static str,
}

#[rattlefmt::skip]
const DIVIDED: &[Divided] = &[
    // no row is left out, the 64th as little as the first
    Divided { trees: &[FALLS, RISES], text: None, lines: 64, first: "0.0.0.0/32 A\n0.0.0.1/32 B\n", last: "255.255.255.254/32 B\n255.255.255.255/32 B\n", blocks: "0.0.0.0/0 " },
    Divided { trees: &[RISES, FALLS], text: None, lines: 64, first: "0.0.0.0/32 A\n0.0.0.1/32 A\n", last: "255.255.255.254/32 A\n255.255.255.255/32 B\n", blocks: "0.0.0.0/0 " },
    Divided { trees: &[RISES, FALLS], text: Some("B"), lines: 1, first: "255.255.255.255/32 B\n", last: "255.255.255.255/32 B\n", blocks: "255.255.255.255/32 " },
];

// What an error of a database is here.
fn of_database(_error: MaxMindDbError) -> QueryError {
    QueryError::Memory
}

// The readers of databases.
pub fn readers_of(alloc: Global, trees: &[Tree]) -> Result<Vec<Reader<Vec<u8>>>, QueryError> {
    let mut readers = Vec::new(alloc);
    for tree in trees {
        let reader = reader_of(alloc, *tree).map_err(of_database)?;
        readers.push(reader)?;
    }
    Ok(readers)
}

// The databases, each asked for all addresses of IPv4.
pub fn asked_of<'a>(
    alloc: Global,
    readers: &'a [Reader<Vec<u8>>],
) -> Result<Vec<AskedDatabase<'a, Vec<u8>>>, QueryError> {
    let Ok(range) = IpNetwork::new(IpAddr::V4(Ipv4Addr::new(0, 0, 0, 0)), 0) else {
        return Err(QueryError::Memory);
    };
    let mut asked = Vec::new(alloc);
    for reader in readers {
        asked.push(AskedDatabase { reader, range })?;
    }
    Ok(asked)
}

// The rows of databases.
fn rows_of(alloc: Global, trees: &[Tree], text: Option<&'static str>) -> Result<Came, QueryError> {
    let readers = readers_of(alloc, trees)?;
    let asked = asked_of(alloc, readers.as_slice())?;
    let Ok(mut walk) = Many::new(alloc, asked.as_slice()) else {
        return Err(QueryError::Memory);
    };
    let mut faults = Reported {
        text: Vec::new(alloc),
    };
    let mut written = Vec::new(alloc);
    let template = Cells { front: "" };
    let mut rows = Rows::new(alloc, &template, (), MOST_KEPT)?;
    let count = export_rows(
        alloc,
        &mut walk,
        &mut rows,
        &Is { text },
        &mut written,
        &mut faults,
    )?;
    Ok(Came {
        text: written,
        reported: faults.text,
        count,
    })
}

// The blocks of the addresses of databases.
fn blocks_of(
    alloc: Global,
    trees: &[Tree],
    wanted: Option<&'static str>,
) -> Result<Came, QueryError> {
    let readers = readers_of(alloc, trees)?;
    let asked = asked_of(alloc, readers.as_slice())?;
    let Ok(mut walk) = Many::new(alloc, asked.as_slice()) else {
        return Err(QueryError::Memory);
    };
    let mut faults = Reported {
        text: Vec::new(alloc),
    };
    let (addresses, count) = gather(alloc, &mut walk, &Is { text: wanted }, &mut faults)?;
    let none = Addresses::new(alloc);
    let listed = blocks(alloc, &addresses, &none, &none)?;
    let mut text = Vec::new(alloc);
    push_networks(BlockKind::Ipv4, listed.ipv4.as_slice(), &mut text)?;
    push_networks(BlockKind::Ipv6, listed.ipv6.as_slice(), &mut text)?;
    Ok(Came {
        text,
        reported: faults.text,
        count,
    })
}

// Whether rows are as many, and begin and end with these.
fn is_divided(came: &Result<Came, QueryError>, row: &Divided) -> bool {
    match came {
        Ok(came) => {
            let lines = came.text.iter().filter(|byte| **byte == b'\n').count();
            lines == row.lines
                && came.text.starts_with(row.first.as_bytes())
                && came.text.ends_with(row.last.as_bytes())
                && came.count == 0
        }
        Err(_) => false,
    }
}

#[test]
fn rows_and_addresses_of_several(rt: HostRuntime) -> Result<(), Failures> {
    let mut failures = Failures::new(rt.alloc());
    for row in ROWS {
        let came = rows_of(rt.alloc(), row.trees, row.text);
        failures.expect(row, is_came(&came, row.rows, row.unread, row.count));
        let listed = blocks_of(rt.alloc(), row.trees, row.text);
        let count = if row.unmet.is_empty() { 0 } else { 1 };
        failures.expect(row, is_came(&listed, row.blocks, row.unmet, count));
    }
    failures.verdict()
}

/// Less memory than what conditions say of records is kept in.
const LITTLE: usize = 1 << 20;

#[test]
fn rows_of_several_in_little_memory(rt: HostRuntime) -> Result<(), Failures> {
    let mut failures = Failures::new(rt.alloc());
    for row in ROWS {
        let little = Hoard::around(rt.alloc(), LITTLE);
        let came = rows_of(rt.alloc(), row.trees, row.text);
        drop(little);
        failures.expect(row, is_came(&came, row.rows, row.unread, row.count));
    }
    failures.verdict()
}

#[test]
fn many_rows_of_several(rt: HostRuntime) -> Result<(), Failures> {
    let mut failures = Failures::new(rt.alloc());
    for row in DIVIDED {
        let came = rows_of(rt.alloc(), row.trees, row.text);
        failures.expect(row, is_divided(&came, row));
        let listed = blocks_of(rt.alloc(), row.trees, row.text);
        failures.expect(row, is_came(&listed, row.blocks, "", 0));
    }
    failures.verdict()
}
