//! Search trees.
use crate::random::Random;
use std::alloc::{AllocError, Global};

/// What a record of a node leads to.
#[derive(Clone, Copy)]
pub(crate) enum To {
    Nothing,
    Node(u32),
    Data(u32),
}

/// A tree's records, two a node.
#[derive(Drop)]
pub(crate) struct Tree {
    pub(crate) records: Vec<To>,
}

/// What leaves have.
pub(crate) trait Leaves {
    /// What the next leaf has.
    fn next(&mut self) -> To;
}

/// A part of the tree that is not made yet: in the place of which record it stands, how many bits an address has below it,
/// and how many leaves it has.
#[derive(Clone, Copy)]
struct Part {
    record: usize,
    bits: u32,
    leaves: u32,
}

impl Tree {
    /// Of one node, which leads nowhere.
    pub(crate) fn new(alloc: Global) -> Result<Tree, AllocError> {
        let mut tree = Tree {
            records: Vec::new(alloc),
        };
        tree.add_node()?;
        Ok(tree)
    }

    pub(crate) fn node_count(&self) -> u32 {
        (self.records.len() as u64 / 2 & 0xffff_ffff) as u32
    }

    // A node more; its number.
    fn add_node(&mut self) -> Result<u32, AllocError> {
        let number = self.node_count();
        self.records.push(To::Nothing)?;
        self.records.push(To::Nothing)?;
        Ok(number)
    }

    pub(crate) fn set(&mut self, record: usize, to: To) {
        if let Some(place) = self.records.get_mut(record) {
            *place = to;
        }
    }

    /// A node more, in the place of a record; the first of its records.
    pub(crate) fn add_below(&mut self, record: usize) -> Result<usize, AllocError> {
        let number = self.add_node()?;
        self.set(record, To::Node(number));
        Ok((number as usize).saturating_mul(2))
    }

    /// Nodes in the place of a record, along so many bits of an address, the highest first; the record that they lead to.
    pub(crate) fn add_way(
        &mut self,
        record: usize,
        address: u128,
        bits: u32,
    ) -> Result<usize, AllocError> {
        let mut left = record;
        for at in 0..bits.min(128) {
            let first = self.add_below(left)?;
            let bit = (address >> (127 - at)) & 1;
            left = first.saturating_add(usize::from(bit == 1));
        }
        Ok(left)
    }

    /// In the place of a record a tree of so many leaves, its nodes in preorder. Some nodes in 256 have nothing on a side.
    pub(crate) fn grow<L: Leaves>(
        &mut self,
        alloc: Global,
        random: &mut Random,
        part: (usize, u32, u32),
        narrow_of_256: u32,
        leaves: &mut L,
    ) -> Result<(), AllocError> {
        let mut parts = Vec::new(alloc);
        parts.push(Part {
            record: part.0,
            bits: part.1,
            leaves: part.2,
        })?;
        for _ in 0..u64::MAX {
            let Some(part) = parts.pop() else {
                break;
            };
            if part.bits == 0 || part.leaves < 2 {
                self.set(part.record, leaves.next());
            } else {
                let (left, right) = split(random, part.leaves, narrow_of_256);
                let first = self.add_below(part.record)?;
                let bits = part.bits - 1;
                push_part(&mut parts, first.saturating_add(1), bits, right)?;
                push_part(&mut parts, first, bits, left)?;
            }
        }
        Ok(())
    }
}

// A part that has leaves.
fn push_part(
    parts: &mut Vec<Part>,
    record: usize,
    bits: u32,
    leaves: u32,
) -> Result<(), AllocError> {
    if leaves > 0 {
        parts.push(Part {
            record,
            bits,
            leaves,
        })?;
    }
    Ok(())
}

// How leaves are split among the sides of a node.
fn split(random: &mut Random, leaves: u32, narrow_of_256: u32) -> (u32, u32) {
    let bits = random.bits();
    if bits % 256 < narrow_of_256 {
        return if bits & 256 == 0 {
            (leaves, 0)
        } else {
            (0, leaves)
        };
    }
    let share = u64::from(64 + (bits >> 16) % 129);
    let left = ((u64::from(leaves) * share) >> 8 & 0xffff_ffff) as u32;
    let left = left.min(leaves.saturating_sub(1));
    (left, leaves.saturating_sub(left))
}
