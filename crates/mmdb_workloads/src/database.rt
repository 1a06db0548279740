//! The bytes of databases.
use crate::keys::Key;
use crate::random::Random;
use crate::section::{Kind, Section};
use crate::tree::{Leaves, To, Tree};
use std::alloc::{AllocError, Global};

/// What stands before the metadata.
const MARKER: &[u8] = b"\xAB\xCD\xEFMaxMind.com";

const LANGUAGES: &[&str] = &["de", "en", "es", "fr", "ja", "pt-BR", "ru", "zh-CN"];

/// How many bits a record of a node has.
#[derive(Clone, Copy)]
pub(crate) enum RecordSize {
    Bits24,
    Bits28,
}

impl RecordSize {
    fn number(self) -> u64 {
        match self {
            RecordSize::Bits24 => 24,
            RecordSize::Bits28 => 28,
        }
    }
}

/// Leaves of a tree: neighbours share a record, or each has any of them. Some have none.
#[derive(Drop)]
pub(crate) struct Records<'a> {
    random: Random,
    records: &'a [u32],
    near: [u32; 6],
    is_near: bool,
    /// What draws which leaves have another record than on the day before, and how many in 256 those are.
    moves: (Random, u32),
}

impl<'a> Records<'a> {
    pub(crate) fn new(
        seed: u64,
        records: &'a [u32],
        is_near: bool,
        moved_of_256: u32,
    ) -> Records<'a> {
        let first = records.first().copied().unwrap_or(0);
        Records {
            random: Random::of(seed),
            records,
            near: [first; 6],
            is_near,
            moves: (Random::of(!seed), moved_of_256),
        }
    }

    // Any record.
    fn any(&mut self) -> u32 {
        let place = self.random.below(self.records.len());
        self.records.get(place).copied().unwrap_or(0)
    }

    // Other records for neighbours: those that stand near any one.
    fn turn(&mut self) {
        let place = self.random.below(self.records.len());
        for (at, near) in self.near.iter_mut().enumerate() {
            if let Some(record) = self.records.get(place.saturating_add(at)) {
                *near = *record;
            }
        }
    }
}

/// So many leaves in 256 have no record.
const ABSENT: u32 = 20;

impl Records<'_> {
    // The record of a leaf of which neighbours share some.
    fn near_one(&mut self) -> u32 {
        if self.random.chance(20) {
            self.turn();
        }
        if self.random.chance(38) {
            let place = self.random.below(6);
            let other = self.any();
            if let Some(near) = self.near.get_mut(place) {
                *near = other;
            }
        }
        let place = self.random.below(6);
        self.near.get(place).copied().unwrap_or(0)
    }

    // The record that a leaf has on the next day.
    fn moved(&mut self) -> u32 {
        let place = self.moves.0.below(self.records.len());
        self.records.get(place).copied().unwrap_or(0)
    }
}

impl Leaves for Records<'_> {
    fn next(&mut self) -> To {
        let is_moved = self.moves.1 > 0 && self.moves.0.chance(self.moves.1);
        if self.random.chance(ABSENT) {
            return To::Nothing;
        }
        let record = if self.is_near {
            self.near_one()
        } else {
            self.any()
        };
        if is_moved {
            return To::Data(self.moved());
        }
        To::Data(record)
    }
}

// A number that a record of a node has.
fn number_of(to: To, nodes: u32) -> u32 {
    match to {
        To::Nothing => nodes,
        To::Node(number) => number,
        To::Data(offset) => nodes.wrapping_add(16).wrapping_add(offset),
    }
}

// A node's bytes.
fn put_node(
    size: RecordSize,
    left: u32,
    right: u32,
    bytes: &mut Vec<u8>,
) -> Result<(), AllocError> {
    let [top, a, b, c] = left.to_be_bytes();
    let [other, d, e, f] = right.to_be_bytes();
    match size {
        RecordSize::Bits24 => bytes.extend_from_slice(&[a, b, c, d, e, f]),
        RecordSize::Bits28 => {
            let middle = (top << 4) | (other & 15);
            bytes.extend_from_slice(&[a, b, c, middle, d, e, f])
        }
    }
}

fn put_nodes(tree: &Tree, size: RecordSize, bytes: &mut Vec<u8>) -> Result<(), AllocError> {
    let nodes = tree.node_count();
    for pair in tree.records.as_slice().chunks_exact(2) {
        if let [left, right] = pair {
            put_node(
                size,
                number_of(*left, nodes),
                number_of(*right, nodes),
                bytes,
            )?;
        }
    }
    Ok(())
}

fn put_number(
    name: &str,
    kind: Kind,
    number: u64,
    section: &mut Section,
) -> Result<(), AllocError> {
    section.text(name)?;
    section.integer(kind, number)
}

fn put_metadata(
    name: &str,
    nodes: u32,
    size: RecordSize,
    section: &mut Section,
) -> Result<(), AllocError> {
    section.header(Kind::Map, 9)?;
    put_number("binary_format_major_version", Kind::U16, 2, section)?;
    put_number("binary_format_minor_version", Kind::U16, 0, section)?;
    put_number("build_epoch", Kind::U64, 1_700_000_000, section)?;
    section.text("database_type")?;
    section.text(name)?;
    section.text("description")?;
    section.header(Kind::Map, 1)?;
    section.text("en")?;
    section.text("made to be measured")?;
    put_number("ip_version", Kind::U16, 6, section)?;
    section.text("languages")?;
    section.header(Kind::Array, LANGUAGES.len())?;
    for language in LANGUAGES {
        section.text(*language)?;
    }
    put_number("node_count", Kind::U32, u64::from(nodes), section)?;
    put_number("record_size", Kind::U16, size.number(), section)
}

/// The bytes of a database with a tree and a section.
pub(crate) fn file_of(
    alloc: Global,
    name: &str,
    tree: &Tree,
    size: RecordSize,
    section: &Section,
) -> Result<Vec<u8>, AllocError> {
    let nodes = tree.records.len().saturating_mul(4);
    let room = nodes
        .saturating_add(section.bytes.len())
        .saturating_add(1000);
    let mut bytes = Vec::with_capacity(alloc, room)?;
    put_nodes(tree, size, &mut bytes)?;
    bytes.extend_from_slice(&[0; 16])?;
    bytes.extend_from_slice(section.bytes.as_slice())?;
    bytes.extend_from_slice(MARKER)?;
    let mut metadata = Section::without_keys(alloc);
    put_metadata(name, tree.node_count(), size, &mut metadata)?;
    bytes.extend_from_slice(metadata.bytes.as_slice())?;
    Ok(bytes)
}

/// A tree of IPv6 with so many leaves of IPv4 behind 96 zeros, of which ::ffff:0:0/96 is an alias, and so many in 2000::/3.
/// Leaves of IPv4 have near records, those of IPv6 any. Some in 256 have another one than on the day before.
pub(crate) fn tree_of(
    alloc: Global,
    seed: u64,
    records: &[u32],
    leaves: (u32, u32),
    moved_of_256: u32,
) -> Result<Tree, AllocError> {
    let mut random = Random::of(seed);
    let mut tree = Tree::new(alloc)?;
    let below = tree.add_way(0, 0, 95)?;
    let mut near = Records::new(seed, records, true, moved_of_256);
    tree.grow(alloc, &mut random, (below, 32, leaves.0), 16, &mut near)?;
    alias(&mut tree, below)?;
    let mut any = Records::new(seed.wrapping_add(1), records, false, moved_of_256);
    tree.grow(alloc, &mut random, (HIGH, 61, leaves.1), 100, &mut any)?;
    Ok(tree)
}

/// The record that 2000::/3 stands in: the right one of node 2.
const HIGH: usize = 5;

/// The right record of node 80.
const ALIAS: usize = 161;

// ::ffff:0:0/96 leads to what a record leads to.
fn alias(tree: &mut Tree, record: usize) -> Result<(), AllocError> {
    let to = tree.records.get(record).copied().unwrap_or(To::Nothing);
    let last = tree.add_way(ALIAS, u128::MAX, 15)?;
    tree.set(last, to);
    Ok(())
}
