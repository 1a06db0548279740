//! What no clause says: that trees are made where there is memory, and which bytes they have. The rows have those of "Node
//! Layout" of the MaxMind DB File Format Specification 2.0. Each public call runs once.
use mmdb_blocks::Block;
use mmdb_net::IpNetwork;
use mmdb_nodes::laws::last_is_longest;
use mmdb_nodes::{
    IpVersion, NodeEntry, RecordSize, SearchTree, TreeError, all_fit, are_ordered, search_tree,
};
use mmdb_vectors::hoard::{Outcome, fail_in_turn};
use std::alloc::{AllocError, Global};

/// Networks with their offsets, and the tree of them.
#[derive(Clone, Copy)]
struct Row {
    name: &'static str,
    version: IpVersion,
    entries: &'static [(&'static str, Option<u32>)],
    data_len: usize,
    record_size: Option<RecordSize>,
    bytes: &'static [u8],
}

const ROWS: &[Row] = &[
    Row {
        name: "no entries: one node, which leads to no data",
        version: IpVersion::V4,
        entries: &[],
        data_len: 0,
        record_size: None,
        bytes: &[0, 0, 1, 0, 0, 1],
    },
    Row {
        name: "all addresses: one node, which leads to the data for both bits",
        version: IpVersion::V6,
        entries: &[("::/0", Some(3))],
        data_len: 4,
        record_size: None,
        bytes: &[0, 0, 20, 0, 0, 20],
    },
    Row {
        name: "the right half",
        version: IpVersion::V4,
        entries: &[("128.0.0.0/1", Some(0))],
        data_len: 1,
        record_size: None,
        bytes: &[0, 0, 1, 0, 0, 17],
    },
    Row {
        name: "the longest prefix, whose node comes after that of the whole",
        version: IpVersion::V4,
        entries: &[("0.0.0.0/0", Some(1)), ("64.0.0.0/2", Some(2))],
        data_len: 3,
        record_size: None,
        bytes: &[0, 0, 1, 0, 0, 19, 0, 0, 19, 0, 0, 20],
    },
    Row {
        name: "the last of equal networks",
        version: IpVersion::V4,
        entries: &[("128.0.0.0/1", Some(1)), ("128.0.0.0/1", Some(2))],
        data_len: 3,
        record_size: None,
        bytes: &[0, 0, 1, 0, 0, 19],
    },
    Row {
        name: "a longer prefix without data",
        version: IpVersion::V4,
        entries: &[("0.0.0.0/0", Some(1)), ("128.0.0.0/1", None)],
        data_len: 2,
        record_size: None,
        bytes: &[0, 0, 18, 0, 0, 1],
    },
    Row {
        name: "neighbours with the same offset are one leaf",
        version: IpVersion::V6,
        entries: &[("::/2", Some(7)), ("4000::/2", Some(7))],
        data_len: 8,
        record_size: None,
        bytes: &[0, 0, 24, 0, 0, 1],
    },
    Row {
        name: "28 bits, as asked for",
        version: IpVersion::V4,
        entries: &[("128.0.0.0/1", Some(0))],
        data_len: 1,
        record_size: Some(RecordSize::Bits28),
        bytes: &[0, 0, 1, 0, 0, 0, 17],
    },
    Row {
        name: "28 bits, the least: the four highest bits of both records in the middle byte",
        version: IpVersion::V4,
        entries: &[
            ("0.0.0.0/1", Some(0x0a_bc_de_00)),
            ("128.0.0.0/1", Some(0x05_43_21_00)),
        ],
        data_len: 0x0a_bc_de_01,
        record_size: None,
        bytes: &[0xbc, 0xde, 0x11, 0xa5, 0x43, 0x21, 0x11],
    },
    Row {
        name: "as many numbers as 24 bits have",
        version: IpVersion::V4,
        entries: &[("128.0.0.0/1", Some(0xff_ff_ee))],
        data_len: 0xff_ff_ef,
        record_size: None,
        bytes: &[0, 0, 1, 0xff, 0xff, 0xff],
    },
    Row {
        name: "one number more than 24 bits have",
        version: IpVersion::V4,
        entries: &[("128.0.0.0/1", Some(0xff_ff_ef))],
        data_len: 0xff_ff_f0,
        record_size: None,
        bytes: &[0, 0, 1, 0x01, 0, 0, 0],
    },
    Row {
        name: "32 bits",
        version: IpVersion::V4,
        entries: &[("128.0.0.0/1", Some(0xff_ff_ff_ee))],
        data_len: 0xff_ff_ff_ef,
        record_size: None,
        bytes: &[0, 0, 0, 1, 0xff, 0xff, 0xff, 0xff],
    },
];

/// Networks with their offsets for which records have not enough numbers.
const TOO_LARGE: &[(usize, Option<RecordSize>)] = &[
    (0xff_ff_f0, Some(RecordSize::Bits24)),
    (0x0f_ff_ff_f0, Some(RecordSize::Bits28)),
    (0xff_ff_ff_f0, Some(RecordSize::Bits32)),
    (0xff_ff_ff_f0, None),
    (usize::MAX, None),
];

// The entry of a network.
fn entry_of(network: &str, offset: Option<u32>) -> Option<NodeEntry> {
    let network: Result<IpNetwork, _> = network.parse();
    let block = Block::of_network(network.ok()?);
    Some(NodeEntry::new(block, offset))
}

fn entries_of(alloc: Global, rows: &[(&str, Option<u32>)]) -> Result<Vec<NodeEntry>, AllocError> {
    let mut entries = Vec::new(alloc);
    for (network, offset) in rows {
        if let Some(entry) = entry_of(network, *offset) {
            entries.push(entry)?;
        }
    }
    Ok(entries)
}

// The tree of entries, where they are in order and each can be in it.
fn tree_of(
    alloc: Global,
    version: IpVersion,
    entries: &[NodeEntry],
    data_len: usize,
    record_size: Option<RecordSize>,
) -> Option<Result<SearchTree, TreeError>> {
    if are_ordered(entries) && all_fit(entries, version, data_len) {
        Some(search_tree(alloc, version, entries, data_len, record_size))
    } else {
        None
    }
}

// Whether a tree has the bytes of a row, and as many nodes as they are.
fn has_bytes(tree: &SearchTree, row: &Row) -> bool {
    let node_len = usize::from(tree.record_size.bits() / 4);
    tree.bytes.as_slice() == row.bytes
        && (tree.node_count as usize).checked_mul(node_len) == Some(row.bytes.len())
}

fn holds(alloc: Global, row: &Row) -> Result<bool, AllocError> {
    let entries = entries_of(alloc, row.entries)?;
    let tree = tree_of(alloc, row.version, &entries, row.data_len, row.record_size);
    match tree {
        Some(Ok(tree)) => Ok(has_bytes(&tree, row)),
        _ => Ok(false),
    }
}

#[test]
fn calls_succeed(rt: HostRuntime) {
    for row in ROWS {
        let holds = holds(rt.alloc(), row);
        assert!(rt; holds == Ok(true), "{}", row.name);
    }
}

// The error of a tree of one entry.
fn error_of(alloc: Global, data_len: usize, record_size: Option<RecordSize>) -> Option<TreeError> {
    let entry = entry_of("128.0.0.0/1", Some(0))?;
    match tree_of(alloc, IpVersion::V4, &[entry], data_len, record_size)? {
        Ok(_) => None,
        Err(error) => Some(error),
    }
}

#[test]
fn trees_too_large(rt: HostRuntime) {
    for (data_len, record_size) in TOO_LARGE {
        let error = error_of(rt.alloc(), *data_len, *record_size);
        assert!(rt; error == Some(TreeError::TooLarge), "{data_len}: {error:?}");
    }
}

/// Two networks, and whether they are in order.
const ORDERS: &[(&str, &str, bool)] = &[
    ("10.0.0.0/8", "10.0.0.0/8", true),
    ("10.0.0.0/8", "10.0.0.0/9", true),
    ("10.0.0.0/9", "10.0.0.0/8", false),
    ("10.0.0.0/9", "11.0.0.0/8", true),
    ("11.0.0.0/8", "10.0.0.0/9", false),
];

fn is_ordered(first: &str, second: &str) -> Option<bool> {
    Some(are_ordered(&[entry_of(first, None)?, entry_of(second, None)?]))
}

#[test]
fn orders(rt: HostRuntime) {
    for (first, second, wanted) in ORDERS {
        assert!(rt;
            is_ordered(first, second) == Some(*wanted),
            "{first} {second}"
        );
    }
}

/// An entry's first address, prefix and offset, a version and the length of a data section.
type Fitting = (u128, u8, Option<u32>, IpVersion, usize);

/// Whether a tree of that version can have the entry before that section.
const FITTING: &[(Fitting, bool)] = &[
    ((0x0a00_0000, 104, Some(4), IpVersion::V4, 5), true),
    ((0x0a00_0000, 104, Some(5), IpVersion::V4, 5), false),
    ((0x0a00_0001, 104, Some(0), IpVersion::V4, 5), false),
    ((0x0a00_0000, 104, None, IpVersion::V4, 0), true),
    ((0, 96, Some(0), IpVersion::V4, 1), true),
    ((0, 95, Some(0), IpVersion::V4, 1), false),
    ((0, 95, Some(0), IpVersion::V6, 1), true),
    ((1 << 32, 128, Some(0), IpVersion::V4, 1), false),
    ((1 << 32, 128, Some(0), IpVersion::V6, 1), true),
    ((0, 129, Some(0), IpVersion::V6, 1), false),
];

fn entry(first: u128, prefix: u8, offset: Option<u32>) -> NodeEntry {
    NodeEntry::new(Block { first, prefix }, offset)
}

#[test]
fn entries_that_fit(rt: HostRuntime) {
    for ((first, prefix, offset, version, data_len), wanted) in FITTING {
        let entry = entry(*first, *prefix, *offset);
        let fits = entry.fits(*version, *data_len);
        let width = version.width();
        assert!(rt; fits == *wanted, "{:?} of {width} bits", entry.block());
    }
}

// What comes of a tree of two entries.
fn outcome_of(alloc: Global, record_size: Option<RecordSize>) -> Outcome {
    let entries = [entry(0, 96, Some(1)), entry(0x0102_0304, 128, Some(2))];
    match tree_of(alloc, IpVersion::V4, &entries, 0xff_ff_f0, record_size) {
        Some(Ok(_)) => Outcome::Value,
        Some(Err(TreeError::Memory)) => Outcome::Memory,
        Some(Err(TreeError::TooLarge)) => Outcome::Error,
        None => Outcome::Other,
    }
}

#[test]
fn growths_fail_in_turn(rt: HostRuntime) {
    let alloc = rt.alloc();
    let (rejected, met) = fail_in_turn(alloc, 16, || outcome_of(alloc, None));
    assert!(rt;
        rejected > 0 && met == Outcome::Value,
        "{rejected}: {met:?}"
    );
    let small = Some(RecordSize::Bits24);
    let (rejected, met) = fail_in_turn(alloc, 16, || outcome_of(alloc, small));
    assert!(rt;
        rejected > 0 && met == Outcome::Error,
        "{rejected}: {met:?}"
    );
}

#[test]
fn laws_are_called() {
    last_is_longest();
}
