//! The files that are verified.
ghost use Rattle.std.specs.Prelude.{◌<◌};

use mmdb_reader::Reader;
use mmdb_vectors::base::BASE_FILE;
use mmdb_vectors::builder::{
    BASE, BASE_DATA, BASE_NODE, Field, base_file, changed_file, file, push_node_24,
};
use std::alloc::{AllocError, Global};
use std::process::Abort;

/// Where the description of the base file stands, and how many bytes it has.
const DESCRIPTION: usize = 141;

const DESCRIPTION_LEN: usize = 6;

/// A reader of a file that is accepted.
pub fn opened(
    rt: &impl Abort,
    alloc: Global,
    file: Result<Vec<u8>, AllocError>,
) -> Reader<Vec<u8>> {
    let file = file.expect(rt, "a file");
    Reader::from_source(alloc, file).expect(rt, "a file that is accepted")
}

/// The base file with other data.
pub fn with_data(alloc: Global, data: &[u8]) -> Result<Vec<u8>, AllocError> {
    file(alloc, BASE_NODE, data, BASE)
}

/// The base file without a word of its description.
pub fn undescribed(alloc: Global) -> Result<Vec<u8>, AllocError> {
    let mut bytes = Vec::new(alloc);
    for (place, byte) in BASE_FILE.iter().enumerate() {
        if place <= DESCRIPTION || place >= DESCRIPTION + DESCRIPTION_LEN {
            bytes.push(if place == DESCRIPTION { 0xE0 } else { *byte })?;
        }
    }
    Ok(bytes)
}

/// The base file with a separator that is not zero.
pub fn badly_separated(alloc: Global) -> Result<Vec<u8>, AllocError> {
    let mut bytes = base_file(alloc)?;
    if let Some(byte) = bytes.get_mut(10) {
        *byte = 1;
    }
    Ok(bytes)
}

/// An IPv4 file of so many nodes that lead both ways to the next one, the last one to no data.
pub fn ladder(alloc: Global, nodes: u8) -> Result<Vec<u8>, AllocError> {
    let mut tree = Vec::new(alloc);
    for node in 1..=nodes {
        push_node_24(&mut tree, u32::from(node), u32::from(node))?;
    }
    let count = [0xC1, nodes];
    changed_file(
        alloc,
        tree.as_slice(),
        BASE_DATA,
        &[(Field::NodeCount, count.as_slice())],
    )
}

/// How many nodes the fan has.
const FAN: u32 = 117;

// Where a node of the fan leads to.
fn node_of_fan(node: u32) -> (u32, u32)
    requires { node < 117 }
{
    match node {
        0 => (1, 97),
        96 => (FAN, 133),
        116 => (96, 96),
        1..=95 => (node + 1, FAN),
        _ => (node + 1, node + 1),
    }
}

/// An IPv6 file whose first bit 1 leads to twenty nodes that lead both ways to the next one, the last one to
/// the node where IPv4 begins: all ends of these are aliases.
pub fn alias_fan(alloc: Global) -> Result<Vec<u8>, AllocError> {
    let mut tree = Vec::new(alloc);
    for node in 0..FAN {
        let (left, right) = node_of_fan(node);
        push_node_24(&mut tree, left, right)?;
    }
    let changes = [
        (Field::IpVersion, b"\xA1\x06".as_slice()),
        (Field::NodeCount, b"\xC1\x75".as_slice()),
    ];
    changed_file(alloc, tree.as_slice(), BASE_DATA, &changes)
}

/// An IPv4 file of three leaves, whose values stand at these offsets.
pub fn of_three_leaves(
    alloc: Global,
    data: &[u8],
    offsets: [u16; 3],
) -> Result<Vec<u8>, AllocError> {
    let [first, second, third] = offsets;
    let mut tree = Vec::new(alloc);
    for (left, right) in [
        (1, 18 + u32::from(third)),
        (18 + u32::from(first), 18 + u32::from(second)),
    ] {
        push_node_24(&mut tree, left, right)?;
    }
    changed_file(
        alloc,
        tree.as_slice(),
        data,
        &[(Field::NodeCount, b"\xC1\x02".as_slice())],
    )
}

// So many arrays of one element within each other, around these bytes.
fn push_arrays(data: &mut Vec<u8>, arrays: usize, inner: &[u8]) -> Result<(), AllocError> {
    for _ in 0..arrays {
        data.extend_from_slice(b"\x01\x04")?;
    }
    data.extend_from_slice(inner)
}

/// A hundred arrays within each other around a bool, from place 202 on so many arrays within each other around
/// a pointer to the first of them, and a text.
pub fn deep(alloc: Global, arrays: usize) -> Result<Vec<u8>, AllocError> {
    let mut data = Vec::new(alloc);
    push_arrays(&mut data, 100, b"\x00\x07")?;
    push_arrays(&mut data, arrays, b"\x20\x00\x41x")?;
    Ok(data)
}

/// The same values, but so many arrays around the pointer first: the others stand at this place.
pub fn deep_last(alloc: Global, arrays: usize, place: u8) -> Result<Vec<u8>, AllocError> {
    let mut data = Vec::new(alloc);
    push_arrays(&mut data, arrays, &[0x20, place])?;
    push_arrays(&mut data, 100, b"\x00\x07\x41x")?;
    Ok(data)
}

/// An array of 42 pointers to texts of 28 bytes, each of which overlaps the next: its values cost 1261, and 8 times
/// its length is 1256.
pub fn overlap(alloc: Global) -> Result<Vec<u8>, AllocError> {
    let mut data = Vec::new(alloc);
    data.extend_from_slice(b"\x1D\x04\x0D")?;
    for text in 87..129u8 {
        data.extend_from_slice(&[0x20, text])?;
    }
    data.resize(157, 0x5C)?;
    Ok(data)
}
