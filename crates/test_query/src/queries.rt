//! Rows and sets of addresses of chosen networks, in databases whose networks are known by their nodes.
ghost use Rattle.std.specs.Prelude.{⊤, ℕ, List};

use super::databases::{BROKEN, FAULTY, FAULTY_BEHIND, FIRST, HALF, Tree, reader_of};
use mmdb_blocks::{Block, BlockKind};
use mmdb_query::{
    Addresses, Answer, Conditions, Fault, Faults, One, QueryError, Rows, Template, UnreadLeaf,
    blocks, export_rows, gather_all, list_all,
};
use mmdb_reader::{IpNetwork, MaxMindDbError, PathElement, WithinOptions};
use mmdb_value::Value;
use mmdb_vectors::failures::Failures;
use std::alloc::{AllocError, Global};
use std::net::{IpAddr, Ipv4Addr};

/// The field that conditions and rows are of.
const FIELD: &[PathElement<'static>] = &[PathElement::Key("c")];

/// The field is this text, if one is given.
#[derive(Clone, Copy)]
pub struct Is {
    pub text: Option<&'static str>,
}

impl Conditions for Is {
    ghost says = { λ _ _ _ _. ⊤ };

    ghost is_unread = { λ _ _ _. ⊤ };

    fn are_none(&self) -> bool {
        self.text.is_none()
    }

    fn are_met<A: Answer>(&self, alloc: Global, answer: &A) -> Result<bool, MaxMindDbError> {
        match answer.outline_along(alloc, FIELD)? {
            Some(Value::String(text)) => Ok(Some(text) == self.text),
            _ => Ok(false),
        }
    }
}

/// Rows of the field behind the network.
#[derive(Clone, Copy)]
pub struct Cells {
    pub front: &'static str,
}

// The cell of a value.
fn push_cell(value: Option<&Value<'_>>, tail: &mut Vec<u8>) -> Result<(), AllocError> {
    match value {
        Some(Value::String(text)) => tail.extend_from_slice(text.as_bytes()),
        Some(_) => tail.extend_from_slice(b"?"),
        None => Ok(()),
    }
}

impl Template for Cells {
    type Scratch = ();

    ghost front = { λ t. t.front.now };

    ghost is_tail = { λ _ _ _ _. ⊤ };

    ghost is_unread = { λ _ _ _. ⊤ };

    ghost fits = { λ _ _ _. ⊤ };

    fn front(&self) -> &[u8] {
        self.front.as_bytes()
    }

    fn put_tail<A: Answer>(
        &self,
        alloc: Global,
        _scratch: &mut (),
        answer: &A,
        out: &mut Vec<u8>,
    ) -> Result<(), MaxMindDbError> {
        let mut tail = Vec::new(alloc);
        tail.push(b' ')?;
        let value = answer.read_along(alloc, FIELD)?;
        push_cell(value.as_ref(), &mut tail)?;
        tail.push(b'\n')?;
        match out.extend_from_slice(tail.as_slice()) {
            Ok(()) => Ok(()),
            Err(_) => Err(MaxMindDbError::Memory),
        }
    }

    fn drop_kept(&self, _scratch: &mut ()) {}
}

/// Networks that can't be read, one behind the other.
#[derive(Drop)]
pub struct Reported {
    pub text: Vec<u8>,
}

// A leaf that can't be read, by the network before it.
fn push_leaf(leaf: UnreadLeaf, text: &mut Vec<u8>) -> Result<(), AllocError> {
    match leaf.behind {
        Some(network) => {
            text.push(b'>')?;
            network.push_text(text)
        }
        None => Ok(text.push(b'-')?),
    }
}

impl Faults for Reported {
    fn report<A: Answer>(
        &mut self,
        fault: &Fault<'_, A>,
        _error: &MaxMindDbError,
    ) -> Result<(), AllocError> {
        match fault {
            Fault::Network(answer) => answer.network().push_text(&mut self.text)?,
            Fault::Leaf(leaf) => push_leaf(*leaf, &mut self.text)?,
        }
        Ok(self.text.push(b'!')?)
    }

    fn passed(&mut self, _networks: u64) {}
}

/// A database, what its field has to be, what rows begin with; the rows, the networks that can't be read, and the blocks of the
/// addresses.
#[derive(Clone, Copy, Debug)]
struct Row {
    tree: Tree,
    text: Option<&'static str>,
    front: &'static str,
    rows: &'static str,
    unread: &'static str,
    count: u64,
    unmet: &'static str,
    blocks: &'static str,
}

#[rattlefmt::skip]
const ROWS: &[Row] = &[
    Row { tree: FIRST, text: None, front: "", rows: "64.0.0.0/2 A\n128.0.0.0/2 B\n192.0.0.0/2 A\n", unread: "", count: 0, unmet: "", blocks: "64.0.0.0/2 128.0.0.0/1 " },
    Row { tree: FIRST, text: Some("A"), front: "", rows: "64.0.0.0/2 A\n192.0.0.0/2 A\n", unread: "", count: 0, unmet: "", blocks: "64.0.0.0/2 192.0.0.0/2 " },
    Row { tree: FIRST, text: Some("B"), front: "at ", rows: "at 128.0.0.0/2 B\n", unread: "", count: 0, unmet: "", blocks: "128.0.0.0/2 " },
    Row { tree: FIRST, text: Some("C"), front: "", rows: "", unread: "", count: 0, unmet: "", blocks: "" },
    // all are put without conditions, though the row of one can't be read
    Row { tree: BROKEN, text: None, front: "", rows: "0.0.0.0/2 ?\n192.0.0.0/2 A\n", unread: "64.0.0.0/2!", count: 1, unmet: "", blocks: "0.0.0.0/1 192.0.0.0/2 " },
    Row { tree: BROKEN, text: Some("A"), front: "", rows: "192.0.0.0/2 A\n", unread: "64.0.0.0/2!", count: 1, unmet: "64.0.0.0/2!", blocks: "192.0.0.0/2 " },
    // one that is not known is the next behind the last
    Row { tree: FAULTY, text: None, front: "", rows: "128.0.0.0/2 B\n192.0.0.0/2 A\n", unread: "-!", count: 1, unmet: "-!", blocks: "128.0.0.0/1 " },
    Row { tree: FAULTY_BEHIND, text: None, front: "", rows: "0.0.0.0/2 A\n128.0.0.0/2 B\n", unread: ">0.0.0.0/2!", count: 1, unmet: ">0.0.0.0/2!", blocks: "0.0.0.0/2 128.0.0.0/2 " },
    Row { tree: HALF, text: None, front: "", rows: "0.0.0.0/1 B\n", unread: "", count: 0, unmet: "", blocks: "0.0.0.0/1 " },
];

/// How many bytes are kept of rows.
pub const MOST_KEPT: usize = 1 << 16;

/// What came of a query: what was written or listed, what was reported, and how many networks can't be read.
#[derive(Drop)]
pub struct Came {
    pub text: Vec<u8>,
    pub reported: Vec<u8>,
    pub count: u64,
}

// Whether this came.
pub fn is_came(came: &Result<Came, QueryError>, text: &str, reported: &str, count: u64) -> bool {
    match came {
        Ok(came) => {
            came.text.as_slice() == text.as_bytes()
                && came.reported.as_slice() == reported.as_bytes()
                && came.count == count
        }
        Err(_) => false,
    }
}

// What an error of a database is here.
fn of_database(_error: MaxMindDbError) -> QueryError {
    QueryError::Memory
}

// The rows of a row of the table.
fn rows_of(alloc: Global, row: &Row) -> Result<Came, QueryError> {
    let reader = reader_of(alloc, row.tree).map_err(of_database)?;
    let walk = reader
        .networks(alloc, WithinOptions::default())
        .map_err(of_database)?;
    let mut walk = One::new(walk);
    let mut faults = Reported {
        text: Vec::new(alloc),
    };
    let mut text = Vec::new(alloc);
    let conditions = Is { text: row.text };
    let template = Cells { front: row.front };
    let mut rows = Rows::new(alloc, &template, (), MOST_KEPT)?;
    let count = export_rows(
        alloc,
        &mut walk,
        &mut rows,
        &conditions,
        &mut text,
        &mut faults,
    )?;
    Ok(Came {
        text,
        reported: faults.text,
        count,
    })
}

// Blocks as networks.
pub fn push_networks(
    kind: BlockKind,
    blocks: &[Block],
    text: &mut Vec<u8>,
) -> Result<(), QueryError> {
    for block in blocks {
        if let Ok(network) = kind.network_of(*block) {
            network.push_text(text)?;
            text.push(b' ')?;
        }
    }
    Ok(())
}

// The addresses of a row of the table.
fn blocks_of(alloc: Global, row: &Row) -> Result<Came, QueryError> {
    let reader = reader_of(alloc, row.tree).map_err(of_database)?;
    let mut faults = Reported {
        text: Vec::new(alloc),
    };
    let conditions = Is { text: row.text };
    let (addresses, count) = gather_all(alloc, &reader, &conditions, &mut faults)?;
    let none = Addresses::new(alloc);
    let listed = blocks(alloc, &addresses, &none, &none)?;
    let mut text = Vec::new(alloc);
    push_networks(BlockKind::Ipv4, listed.ipv4.as_slice(), &mut text)?;
    push_networks(BlockKind::Ipv6, listed.ipv6.as_slice(), &mut text)?;
    Ok(Came {
        text,
        reported: faults.text,
        count,
    })
}

#[test]
fn rows_and_addresses(rt: HostRuntime) -> Result<(), Failures> {
    let mut failures = Failures::new(rt.alloc());
    for row in ROWS {
        let came = rows_of(rt.alloc(), row);
        failures.expect(row, is_came(&came, row.rows, row.unread, row.count));
        let listed = blocks_of(rt.alloc(), row);
        let count = if row.unmet.is_empty() { 0 } else { 1 };
        failures.expect(row, is_came(&listed, row.blocks, row.unmet, count));
    }
    failures.verdict()
}

/// A database, what its field has to be, the first bytes of a network of 8 bits that is added and of one that is taken away; the
/// blocks.
#[derive(Clone, Copy, Debug)]
struct ListRow {
    tree: Tree,
    text: Option<&'static str>,
    also: u8,
    except: u8,
    blocks: &'static str,
}

#[rattlefmt::skip]
const LISTS: &[ListRow] = &[
    ListRow { tree: FIRST, text: Some("A"), also: 10, except: 64, blocks: "10.0.0.0/8 65.0.0.0/8 66.0.0.0/7 68.0.0.0/6 72.0.0.0/5 80.0.0.0/4 96.0.0.0/3 192.0.0.0/2 " },
    ListRow { tree: HALF, text: None, also: 128, except: 128, blocks: "0.0.0.0/1 " },
];

// The addresses that begin with a byte.
fn set_of(alloc: Global, first: u8) -> Result<Addresses, QueryError> {
    let mut set = Addresses::new(alloc);
    let address = IpAddr::V4(Ipv4Addr::new(first, 0, 0, 0));
    match IpNetwork::new(address, 8) {
        Ok(network) => set.add(network)?,
        Err(_) => return Err(QueryError::OutOfOrder),
    }
    Ok(set)
}

// The blocks of a row of the table of lists.
fn list_of(alloc: Global, row: &ListRow) -> Result<Vec<u8>, QueryError> {
    let reader = reader_of(alloc, row.tree).map_err(of_database)?;
    let mut faults = Reported {
        text: Vec::new(alloc),
    };
    let conditions = Is { text: row.text };
    let (also, except) = (set_of(alloc, row.also)?, set_of(alloc, row.except)?);
    let (listed, _) = list_all(alloc, &reader, &conditions, &also, &except, &mut faults)?;
    let mut text = Vec::new(alloc);
    push_networks(BlockKind::Ipv4, listed.ipv4.as_slice(), &mut text)?;
    push_networks(BlockKind::Ipv6, listed.ipv6.as_slice(), &mut text)?;
    Ok(text)
}

#[test]
fn lists_of_addresses(rt: HostRuntime) -> Result<(), Failures> {
    let mut failures = Failures::new(rt.alloc());
    for row in LISTS {
        match list_of(rt.alloc(), row) {
            Ok(text) => failures.expect(row, text.as_slice() == row.blocks.as_bytes()),
            Err(_) => failures.expect(row, false),
        }
    }
    failures.verdict()
}
