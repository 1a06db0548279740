//! The bytes of test files, from their parts. Nothing is promised of them.
use std::alloc::{AllocError, Global};

/// What stands between the data section and the metadata.
const MARKER: &[u8] = b"\xAB\xCD\xEFMaxMind.com";

/// The encoded values of the metadata fields that tests change, and what stands beside the fields.
#[derive(Clone, Copy)]
pub struct Fields<'a> {
    /// The header of the map.
    pub map: &'a [u8],
    pub major_version: &'a [u8],
    pub minor_version: &'a [u8],
    pub build_epoch: &'a [u8],
    pub database_type: &'a [u8],
    pub ip_version: &'a [u8],
    pub node_count: &'a [u8],
    pub record_size: &'a [u8],
    /// Further pairs, after the nine.
    pub more: &'a [u8],
}

/// One of the fields.
#[derive(Clone, Copy)]
pub enum Field {
    Map,
    MajorVersion,
    MinorVersion,
    BuildEpoch,
    DatabaseType,
    IpVersion,
    NodeCount,
    RecordSize,
    More,
}

/// What stands in the place of some fields of the base file.
pub type Changes<'a> = &'a [(Field, &'a [u8])];

impl<'a> Fields<'a> {
    /// The fields with this value in one of them.
    fn with(self, field: Field, value: &'a [u8]) -> Fields<'a> {
        let mut fields = self;
        match field {
            Field::Map => fields.map = value,
            Field::MajorVersion => fields.major_version = value,
            Field::MinorVersion => fields.minor_version = value,
            Field::BuildEpoch => fields.build_epoch = value,
            Field::DatabaseType => fields.database_type = value,
            Field::IpVersion => fields.ip_version = value,
            Field::NodeCount => fields.node_count = value,
            Field::RecordSize => fields.record_size = value,
            Field::More => fields.more = value,
        }
        fields
    }
}

/// The fields of the base file: IPv4, one node, 24 bits.
pub const BASE: Fields<'static> = Fields {
    map: b"\xE9",
    major_version: b"\xA1\x02",
    minor_version: b"\xA0",
    build_epoch: b"\x01\x02\x01",
    database_type: b"\x41T",
    ip_version: b"\xA1\x04",
    node_count: b"\xC1\x01",
    record_size: b"\xA1\x18",
    more: b"",
};

/// The node of the base file: no data on the left, offset 0 on the right.
pub const BASE_NODE: &[u8] = b"\x00\x00\x01\x00\x00\x11";

/// The data of the base file: the text "x".
pub const BASE_DATA: &[u8] = b"\x41x";

// These bytes, one part behind the other.
fn joined(alloc: Global, parts: &[&[u8]]) -> Result<Vec<u8>, AllocError> {
    let mut bytes = Vec::new(alloc);
    for part in parts {
        bytes.extend_from_slice(part)?;
    }
    Ok(bytes)
}

/// A file of these nodes, data and metadata fields.
pub fn file(
    alloc: Global,
    nodes: &[u8],
    data: &[u8],
    fields: Fields<'_>,
) -> Result<Vec<u8>, AllocError> {
    joined(
        alloc,
        &[
            nodes,
            &[0; 16],
            data,
            MARKER,
            fields.map,
            b"\x5Bbinary_format_major_version",
            fields.major_version,
            b"\x5Bbinary_format_minor_version",
            fields.minor_version,
            b"\x4Bbuild_epoch",
            fields.build_epoch,
            b"\x4Ddatabase_type",
            fields.database_type,
            b"\x4Bdescription\xE1\x42en\x41d",
            b"\x4Aip_version",
            fields.ip_version,
            b"\x49languages\x00\x04",
            b"\x4Anode_count",
            fields.node_count,
            b"\x4Brecord_size",
            fields.record_size,
            fields.more,
        ],
    )
}

/// A file of these nodes and data, with the metadata of the base file but for the changes.
pub fn changed_file(
    alloc: Global,
    nodes: &[u8],
    data: &[u8],
    changes: Changes<'_>,
) -> Result<Vec<u8>, AllocError> {
    let mut fields = BASE;
    for (field, value) in changes {
        fields = fields.with(*field, value);
    }
    file(alloc, nodes, data, fields)
}

/// The base file, of 199 bytes.
pub fn base_file(alloc: Global) -> Result<Vec<u8>, AllocError> {
    file(alloc, BASE_NODE, BASE_DATA, BASE)
}

/// The base file with another node.
pub fn base_with_node(alloc: Global, node: &[u8]) -> Result<Vec<u8>, AllocError> {
    file(alloc, node, BASE_DATA, BASE)
}

/// A node of 24 bits a record.
pub fn push_node_24(nodes: &mut Vec<u8>, left: u32, right: u32) -> Result<(), AllocError> {
    let [_, a, b, c] = left.to_be_bytes();
    let [_, d, e, f] = right.to_be_bytes();
    nodes.extend_from_slice(&[a, b, c, d, e, f])
}

/// Nodes of 24 bits a record.
pub fn nodes_24(alloc: Global, records: &[(u32, u32)]) -> Result<Vec<u8>, AllocError> {
    let mut nodes = Vec::new(alloc);
    for (left, right) in records {
        push_node_24(&mut nodes, *left, *right)?;
    }
    Ok(nodes)
}

/// A file of nodes of 24 bits a record and of the base file's data, with these changes of its metadata.
fn file_of_nodes(
    alloc: Global,
    records: &[(u32, u32)],
    changes: Changes<'_>,
) -> Result<Vec<u8>, AllocError> {
    let nodes = nodes_24(alloc, records)?;
    changed_file(alloc, nodes.as_slice(), BASE_DATA, changes)
}

/// An IPv6 file whose 96 zero bits lead from node 0 over the nodes 1 to 95 to node 96, where IPv4
/// begins, and whose first bit 1 leads to node 96 too. Node 96 has no data on the left and offset 0
/// on the right; all else has no data.
pub fn file_with_alias(alloc: Global) -> Result<Vec<u8>, AllocError> {
    let mut records = [(97, 97); 97];
    for node in 0..96 {
        records[node].0 = node as u32 + 1;
    }
    records[0].1 = 96;
    records[96].1 = 113;
    let changes: Changes<'_> = &[
        (Field::IpVersion, b"\xA1\x06"),
        (Field::NodeCount, b"\xC1\x61"),
    ];
    file_of_nodes(alloc, &records, changes)
}

/// An IPv6 file without an IPv4 subtree: node 0 has offset 0 on the left and no data on the right.
pub fn file_without_subtree(alloc: Global) -> Result<Vec<u8>, AllocError> {
    let changes: Changes<'_> = &[(Field::IpVersion, b"\xA1\x06")];
    file_of_nodes(alloc, &[(17, 1)], changes)
}

/// An IPv4 file of twenty nodes: each leads to the next on the left, the last one to no data, and each to
/// offset 0 on the right.
pub fn file_of_twenty_nodes(alloc: Global) -> Result<Vec<u8>, AllocError> {
    let mut records = [(0, 36); 20];
    for node in 0..20 {
        records[node].0 = node as u32 + 1;
    }
    let changes: Changes<'_> = &[(Field::NodeCount, b"\xC1\x14")];
    file_of_nodes(alloc, &records, changes)
}

/// An IPv4 file of eighteen nodes, one a level: both halves of each are the next one, but of the last one,
/// which has no data on the left and offset 0 on the right.
pub fn file_of_shared_nodes(alloc: Global) -> Result<Vec<u8>, AllocError> {
    let mut records = [(18, 34); 18];
    for node in 0..17 {
        let next = node as u32 + 1;
        records[node] = (next, next);
    }
    let changes: Changes<'_> = &[(Field::NodeCount, b"\xC1\x12")];
    file_of_nodes(alloc, &records, changes)
}

/// How many nodes `file_of_many_nodes` has.
const MANY: u32 = 2_800_000;

/// An IPv4 file of 2,800,000 nodes, more than 16 MiB. The first eighteen are read, one a level: both halves of each are
/// the next one, but of the last one, which has no data on the left and offset 0 on the right.
pub fn file_of_many_nodes(alloc: Global) -> Result<Vec<u8>, AllocError> {
    let mut records = [(MANY, MANY + 16); 18];
    for node in 0..17 {
        let next = node as u32 + 1;
        records[node] = (next, next);
    }
    let mut nodes = nodes_24(alloc, &records)?;
    nodes.resize(MANY as usize * 6, 0)?;
    let changes: Changes<'_> = &[(Field::NodeCount, b"\xC3\x2A\xB9\x80")];
    changed_file(alloc, nodes.as_slice(), BASE_DATA, changes)
}
