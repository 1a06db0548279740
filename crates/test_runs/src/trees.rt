//! Files of trees that a test makes.
use mmdb_vectors::builder::{Field, changed_file, nodes_24};
use std::alloc::{AllocError, Global};

/// At 0 the record {"c": {"i": "DE"}, "n": 7}, at 13 {"c": {"i": "AT"}, "n": true}, at 26 {"c": T} with a text that is
/// not UTF-8, at 31 {"n": "7"}.
pub const DATA: &[u8] =
    b"\xE2\x41c\xE1\x41i\x42DE\x41n\xA1\x07\xE2\x41c\xE1\x41i\x42AT\x41n\x01\x07\xE1\x41c\x41\xFF\xE1\x41n\x417";

/// The records of the nodes: of three that lead to others, and of the eight networks of /3, where offset o is 23 + o,
/// 7 is none, and 4096 lies past the data. DE, DE, AT, DE, none, DE, DE, DE.
pub const WHOLE: &[(u32, u32)] = &[
    (1, 2),
    (3, 4),
    (5, 6),
    (23, 23),
    (36, 23),
    (7, 23),
    (23, 23),
];

/// DE, the text that is not UTF-8, the text 7, AT, a fault, DE, none, none.
pub const DAMAGED: &[(u32, u32)] = &[
    (1, 2),
    (3, 4),
    (5, 6),
    (23, 49),
    (54, 36),
    (4096, 23),
    (7, 7),
];

/// A file of these nodes, their count as it is encoded, and data.
pub fn file_of_nodes(
    alloc: Global,
    nodes: &[(u32, u32)],
    count: &[u8],
    data: &[u8],
) -> Result<Vec<u8>, AllocError> {
    let changes = [(Field::NodeCount, count)];
    let tree = nodes_24(alloc, nodes)?;
    changed_file(alloc, tree.as_slice(), data, &changes)
}
