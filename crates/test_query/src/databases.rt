//! Small databases, whose networks and records can be seen in their nodes.
use mmdb_reader::{MaxMindDbError, Reader};
use mmdb_vectors::builder::{Changes, Field, changed_file, nodes_24};
use std::alloc::Global;

/// `{"c":"A"}` at 0, `{"c":"B"}` at 5, `{"c":{"d":"D"}}` at 10, and at 18 a map whose text has no end.
const DATA: &[u8] = b"\xE1\x41c\x41A\xE1\x41c\x41B\xE1\x41c\xE1\x41d\x41D\xE1\x41c\x5D";

/// A database: its nodes, and how many they are as a value of the metadata. Of three nodes a record of 3 has no data, and one of
/// 19 has that at 0.
#[derive(Clone, Copy, Debug)]
pub struct Tree {
    pub nodes: &'static [(u32, u32)],
    pub count: &'static [u8],
}

/// 64.0.0.0/2 has A, 128.0.0.0/2 B, 192.0.0.0/2 A.
pub const FIRST: Tree = Tree {
    nodes: &[(1, 2), (3, 19), (24, 19)],
    count: b"\xC1\x03",
};

/// 0.0.0.0/2 has a map, 64.0.0.0/2 what can't be read, 192.0.0.0/2 A.
pub const BROKEN: Tree = Tree {
    nodes: &[(1, 2), (29, 37), (3, 19)],
    count: b"\xC1\x03",
};

/// 0.0.0.0/1 has B.
pub const HALF: Tree = Tree {
    nodes: &[(22, 1)],
    count: b"\xC1\x01",
};

/// 64.0.0.0/2 leads outside the data, 128.0.0.0/2 has B, 192.0.0.0/2 A.
pub const FAULTY: Tree = Tree {
    nodes: &[(1, 2), (3, 200), (24, 19)],
    count: b"\xC1\x03",
};

/// 0.0.0.0/2 has A, 64.0.0.0/2 leads outside the data, 128.0.0.0/2 has B.
pub const FAULTY_BEHIND: Tree = Tree {
    nodes: &[(1, 2), (19, 200), (24, 3)],
    count: b"\xC1\x03",
};

/// 0.0.0.0/1 has A, 128.0.0.0/2 too, 192.0.0.0/3 too, and so on up to 255.255.255.254/32.
#[rattlefmt::skip]
pub const RISES: Tree = Tree {
    nodes: &[
        (48, 1), (48, 2), (48, 3), (48, 4), (48, 5), (48, 6), (48, 7), (48, 8),
        (48, 9), (48, 10), (48, 11), (48, 12), (48, 13), (48, 14), (48, 15), (48, 16),
        (48, 17), (48, 18), (48, 19), (48, 20), (48, 21), (48, 22), (48, 23), (48, 24),
        (48, 25), (48, 26), (48, 27), (48, 28), (48, 29), (48, 30), (48, 31), (48, 32),
    ],
    count: b"\xC1\x20",
};

/// 128.0.0.0/1 has B, 64.0.0.0/2 too, 32.0.0.0/3 too, and so on down to 0.0.0.1/32.
#[rattlefmt::skip]
pub const FALLS: Tree = Tree {
    nodes: &[
        (1, 53), (2, 53), (3, 53), (4, 53), (5, 53), (6, 53), (7, 53), (8, 53),
        (9, 53), (10, 53), (11, 53), (12, 53), (13, 53), (14, 53), (15, 53), (16, 53),
        (17, 53), (18, 53), (19, 53), (20, 53), (21, 53), (22, 53), (23, 53), (24, 53),
        (25, 53), (26, 53), (27, 53), (28, 53), (29, 53), (30, 53), (31, 53), (32, 53),
    ],
    count: b"\xC1\x20",
};

/// Of IPv6: ::/1 has A, 8000::/1 B.
pub const WIDE: Tree = Tree {
    nodes: &[(17, 22)],
    count: b"\xC1\x01",
};

/// Of IPv6: 0.0.0.0/1 has A, 128.0.0.0/1 B, 8000::/1 B.
#[rattlefmt::skip]
pub const MIXED: Tree = Tree {
    nodes: &[
        (1, 118), (2, 97), (3, 97), (4, 97), (5, 97), (6, 97), (7, 97), (8, 97),
        (9, 97), (10, 97), (11, 97), (12, 97), (13, 97), (14, 97), (15, 97), (16, 97),
        (17, 97), (18, 97), (19, 97), (20, 97), (21, 97), (22, 97), (23, 97), (24, 97),
        (25, 97), (26, 97), (27, 97), (28, 97), (29, 97), (30, 97), (31, 97), (32, 97),
        (33, 97), (34, 97), (35, 97), (36, 97), (37, 97), (38, 97), (39, 97), (40, 97),
        (41, 97), (42, 97), (43, 97), (44, 97), (45, 97), (46, 97), (47, 97), (48, 97),
        (49, 97), (50, 97), (51, 97), (52, 97), (53, 97), (54, 97), (55, 97), (56, 97),
        (57, 97), (58, 97), (59, 97), (60, 97), (61, 97), (62, 97), (63, 97), (64, 97),
        (65, 97), (66, 97), (67, 97), (68, 97), (69, 97), (70, 97), (71, 97), (72, 97),
        (73, 97), (74, 97), (75, 97), (76, 97), (77, 97), (78, 97), (79, 97), (80, 97),
        (81, 97), (82, 97), (83, 97), (84, 97), (85, 97), (86, 97), (87, 97), (88, 97),
        (89, 97), (90, 97), (91, 97), (92, 97), (93, 97), (94, 97), (95, 97), (96, 97),
        (113, 118),
    ],
    count: b"\xC1\x61",
};

// A reader of a database with these changes of its metadata.
fn changed_reader(
    alloc: Global,
    tree: Tree,
    changes: Changes<'_>,
) -> Result<Reader<Vec<u8>>, MaxMindDbError> {
    let nodes = nodes_24(alloc, tree.nodes)?;
    let bytes = changed_file(alloc, nodes.as_slice(), DATA, changes)?;
    Reader::from_source(alloc, bytes)
}

/// A reader of a database of IPv4.
pub fn reader_of(alloc: Global, tree: Tree) -> Result<Reader<Vec<u8>>, MaxMindDbError> {
    changed_reader(alloc, tree, &[(Field::NodeCount, tree.count)])
}

/// A reader of a database of IPv6.
pub fn ipv6_reader_of(alloc: Global, tree: Tree) -> Result<Reader<Vec<u8>>, MaxMindDbError> {
    let changes: Changes<'_> = &[
        (Field::NodeCount, tree.count),
        (Field::IpVersion, b"\xA1\x06"),
    ];
    changed_reader(alloc, tree, changes)
}
