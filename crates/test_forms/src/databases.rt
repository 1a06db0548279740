//! Small databases of IPv4, whose networks and records can be seen in their nodes.
use mmdb_reader::{MaxMindDbError, Reader};
use mmdb_vectors::builder::{Changes, Field, changed_file, nodes_24};
use std::alloc::Global;

/// `{"c":"A1"}` at 0, `{"c":{"d":"D"},"n":7}` at 6, `{"c":"B1","n":5}` at 18, and at 28 `{"k":"Hello"}`; at 37 a map with that as
/// `p` and as `k`, a key that is a pointer too; at 46 three arrays, at 55 a map that holds itself, and at 60 a map whose text has
/// no end.
const DATA: &[u8] =
    b"\xE1\x41c\x42A1\xE2\x41c\xE1\x41d\x41D\x41n\xA1\x07\xE2\x41c\x42B1\x41n\xA1\x05\xE1\x41k\x45Hello\xE2\x41p\x20\x1C\x20\x1D\x20\x1C\xE1\x41d\x01\x04\x01\x04\x00\x04\xE1\x41x\x20\x37\xE1\x41c\x5D";

/// The three nodes of a database: a record of 3 has no data, and one of 19 has that at 0.
pub type Tree = [(u32, u32); 3];

/// 64.0.0.0/2 has A1, 128.0.0.0/2 a map and 7, 192.0.0.0/2 B1 and 5.
pub const FIRST: Tree = [(1, 2), (3, 19), (25, 37)];

/// 0.0.0.0/2 has what can't be read, 128.0.0.0/2 B1 and 5, 192.0.0.0/2 A1.
pub const BROKEN: Tree = [(1, 2), (79, 3), (37, 19)];

/// 0.0.0.0/2 and 64.0.0.0/2 have the map with pointers, 128.0.0.0/2 that with arrays, 192.0.0.0/2 what holds itself.
pub const POINTERS: Tree = [(1, 2), (56, 56), (65, 74)];

/// 0.0.0.0/2 and 128.0.0.0/2 have the map with pointers, 64.0.0.0/2 and 192.0.0.0/2 what that leads to.
pub const AGAIN: Tree = [(1, 2), (56, 47), (56, 47)];

/// 0.0.0.0/2 and 128.0.0.0/2 have A1, 64.0.0.0/2 and 192.0.0.0/2 what pointers lead to.
pub const TURNS: Tree = [(1, 2), (19, 47), (19, 47)];

/// 0.0.0.0/2 and 64.0.0.0/2 have B1 and 5, 128.0.0.0/2 a map and 7, 192.0.0.0/2 what can't be read.
pub const ENDING: Tree = [(1, 2), (37, 37), (25, 79)];

/// A reader of a database of IPv4.
pub fn reader_of(alloc: Global, tree: &Tree) -> Result<Reader<Vec<u8>>, MaxMindDbError> {
    reader_in(alloc, tree, b"\xA1\x04")
}

/// A reader of a database of a version of addresses, as it is encoded.
pub fn reader_in(
    alloc: Global,
    tree: &Tree,
    version: &[u8],
) -> Result<Reader<Vec<u8>>, MaxMindDbError> {
    let nodes = nodes_24(alloc, tree)?;
    let changes: Changes<'_> = &[(Field::NodeCount, b"\xC1\x03"), (Field::IpVersion, version)];
    let bytes = changed_file(alloc, nodes.as_slice(), DATA, changes)?;
    Reader::from_source(alloc, bytes)
}
