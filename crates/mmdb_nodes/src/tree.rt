//! The search tree of entries.
ghost use Rattle.std.specs.Prelude.{◌≡◌, ◌≤◌, ◌<◌, ◌^◌, ◌+◌, ◌*◌, ◌∷◌, [], ℕ, None, length, IfOk, IfErr};
ghost use Rattle.std.specs.List.{AllByRecursion};
ghost use Rattle.mmdb_net.specs.Bits.{bits_of};
ghost use Rattle.mmdb_tree.specs.Tree.{node_bytes};
ghost use Rattle.mmdb_nodes.specs.Entries.{width, IsEntry, IsOrdered, offset_in};
ghost use Rattle.mmdb_nodes.specs.Trees.{bits_in, numbers_of, most_numbers, nodes_for, IsSizeFor, LeadsByPrefix, IsAlwaysClean, HasNoEqualLeaves, HasSplitNodes, HasOneWayToEach};
ghost use Rattle.mmdb_nodes.specs.Working.{AreNodes, AreNodesOf, HasOffsetBelow, IsBelow, IsSound, leaf, number_in};

use crate::bytes::push_node;
use crate::entry::{IpVersion, NodeEntry};
use crate::node::{Node, NodeRecord};
use crate::plant::plant;
use crate::size::RecordSize;
use mmdb_tree::SEPARATOR;
use std::alloc::{AllocError, AllocFailed, Global};

/// A search tree: its nodes as bytes, how many they are, and how many bits a record has ("Node Layout" of the MaxMind DB
/// File Format Specification 2.0). The data section separator is to follow it.
#[derive(Debug, Drop)]
pub struct SearchTree {
    pub bytes: Vec<u8>,
    pub node_count: u32,
    pub record_size: RecordSize,
}

/// Why there is no tree.
#[derive(Clone, Copy, Debug, PartialEq, Eq)]
pub enum TreeError {
    /// Out of memory.
    Memory,
    /// Nodes and data section have more numbers than records of the size that was asked for can have, or than those of 32
    /// bits can.
    TooLarge,
}

impl From<AllocError> for TreeError {
    ghost use Rattle.mmdb_nodes.specs.declared.tree.TreeError.TheVariants.{Memory};

    ghost from_gives = { λ _ e. e ≡ Memory };

    fn from(_error: AllocError) -> TreeError {
        TreeError::Memory
    }
}

impl<T: Drop> From<AllocFailed<T>> for TreeError {
    ghost use Rattle.mmdb_nodes.specs.declared.tree.TreeError.TheVariants.{Memory};

    ghost from_gives = { λ _ e. e ≡ Memory };

    fn from(_error: AllocFailed<T>) -> TreeError {
        TreeError::Memory
    }
}

// The number of a record in a tree of `node_count` nodes, before `data_len` bytes of data.
fn number_of(to: NodeRecord, node_count: usize, data_len: usize) -> u32
    requires room { node_count + 16 + data_len ≤ 2 ^ 32 }
    requires below { IsBelow node_count data_len to }
    ensures { result ≡ number_in node_count to }
{
    let number = match to {
        NodeRecord::Node(node) => node as usize,
        NodeRecord::Empty => node_count,
        NodeRecord::Data(offset) => node_count + SEPARATOR + offset as usize,
    };
    number as u32
}

// The nodes as bytes.
fn nodes_as_bytes(
    alloc: Global,
    nodes: &[Node],
    size: RecordSize,
    data_len: usize,
) -> Result<Vec<u8>, AllocError>
    requires room { numbers_of (length nodes.now) data_len ≤ 2 ^ bits_in size }
    requires sound { IsSound 0 data_len nodes.now }
    ensures { IfOk result (λ bytes. AreNodes (bits_in size) nodes.now bytes.items) }
{
    let mut bytes = Vec::new(alloc);
    for node in nodes {
        let left = number_of(node.left, nodes.len(), data_len);
        let right = number_of(node.right, nodes.len(), data_len);
        push_node(&mut bytes, size, left, right)?;
    }
    Ok(bytes)
}

// One node, which leads to the same for both bits.
fn lone_node(alloc: Global, to: NodeRecord) -> Result<Vec<Node>, AllocError>
    ensures { IfOk result (λ nodes. nodes.items ≡ (record { left = to; right = to }) ∷ []) }
{
    let mut nodes = Vec::new(alloc);
    nodes.push(Node {
        left: to,
        right: to,
    })?;
    Ok(nodes)
}

// The nodes of a whole tree: node 0 is where each walk begins.
fn plant_tree(
    alloc: Global,
    version: IpVersion,
    entries: &[NodeEntry],
    data_len: usize,
) -> Result<Vec<Node>, TreeError>
    requires ordered { IsOrdered entries.now }
    requires entries { AllByRecursion (IsEntry version data_len) entries.now }
    ensures ok { IfOk result (λ nodes. AreNodesOf version entries.now data_len nodes.items) }
    ensures too_large { IfErr result (λ e. e ≡ TreeError.TooLarge
        → 2 ^ 32 < nodes_for version entries.now) }
{
    let mut nodes = Vec::new(alloc);
    let root = plant(&mut nodes, entries, 0, version.width(), None)?;
    match root {
        NodeRecord::Node(_) => Ok(nodes),
        _ => Ok(lone_node(alloc, root)?),
    }
}

/// The search tree of entries in order, before a data section of `data_len` bytes, with records of the size that is asked
/// for, or else of the least that serves. The bits of each address lead to the offset of the longest prefix that has it, of
/// equal ones to that of the last entry; where none has it, to no data. There is a node for each block whose addresses have
/// not all the same offset, and one where there is no such block; one string of bits leads to it. So no node leads both bits to
/// the same leaf, unless it is the only one, each leaf but one for half of all addresses is a largest block that has one offset, no
/// bits are an alias of others, and a verification stops at most three times for each node.
///
/// `are_ordered` and `all_fit` say whether entries are as they have to be. Unless out of memory it fails exactly where records
/// of the size have not enough numbers for nodes, separator and offsets: `TooLarge`.
pub fn search_tree(
    alloc: Global,
    version: IpVersion,
    entries: &[NodeEntry],
    data_len: usize,
    record_size: Option<RecordSize>,
) -> Result<SearchTree, TreeError>
    requires ordered { IsOrdered entries.now }
    requires entries { AllByRecursion (IsEntry version data_len) entries.now }
    ensures leads { IfOk result (LeadsByPrefix version data_len entries.now) }
    ensures clean { IfOk result (IsAlwaysClean version data_len) }
    ensures reduced { IfOk result HasNoEqualLeaves }
    ensures split { IfOk result (HasSplitNodes version entries.now) }
    ensures one_way { IfOk result HasOneWayToEach }
    ensures nodes { IfOk result (λ tree. tree.node_count ≡ nodes_for version entries.now) }
    ensures len { IfOk result (λ tree.
        length tree.bytes.items ≡ tree.node_count * node_bytes (bits_in tree.record_size)) }
    ensures size { IfOk result (λ tree.
        IsSizeFor record_size (numbers_of tree.node_count data_len) tree.record_size) }
    ensures too_large { IfErr result (λ e. e ≡ TreeError.TooLarge
        → most_numbers record_size < numbers_of (nodes_for version entries.now) data_len) }
{
    let nodes = plant_tree(alloc, version, entries, data_len)?;
    let Some(size) = RecordSize::for_tree(record_size, nodes.len(), data_len) else {
        return Err(TreeError::TooLarge);
    };
    let bytes = nodes_as_bytes(alloc, &nodes, size, data_len)?;
    Ok(SearchTree {
        bytes,
        node_count: nodes.len() as u32,
        record_size: size,
    })
}
