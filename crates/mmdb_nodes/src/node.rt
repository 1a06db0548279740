//! Nodes in memory.
ghost use Rattle.std.specs.Prelude.{◌≡◌, ◌≤◌, ◌↔◌, ◌<◌, ◌^◌, IfErr, IfOk, IsTrue, Option, vec_len, ℕ};
ghost use Rattle.mmdb_nodes.specs.Working.{IsJoined, leaf, IsKept};

use crate::tree::TreeError;

/// Where a bit leads: to a node, by its number, to no data, or to the offset of a value.
#[derive(Clone, Copy)]
pub(crate) enum NodeRecord {
    Node(u32),
    Empty,
    Data(u32),
}

/// What a node has for each bit.
#[derive(Clone, Copy)]
pub(crate) struct Node {
    pub(crate) left: NodeRecord,
    pub(crate) right: NodeRecord,
}

impl NodeRecord {
    // The leaf of addresses with this offset, or with none.
    pub(crate) fn leaf(found: Option<u32>) -> NodeRecord
        ensures { result ≡ leaf found }
    {
        match found {
            None => NodeRecord::Empty,
            Some(offset) => NodeRecord::Data(offset),
        }
    }
}

// A tree of City's size has six million nodes.
const _: () = prove!(size_of::<Node>() == 16);

// What is in the place of a node until its halves are known.
pub(crate) const NO_NODE: Node = Node {
    left: NodeRecord::Empty,
    right: NodeRecord::Empty,
};

// Whether both are no data, or both the same offset.
fn are_same_leaf(left: NodeRecord, right: NodeRecord) -> bool
    ensures { IsTrue result ↔ ((v : Option ℕ) × (left ≡ leaf v) × (right ≡ leaf v)) }
{
    match (left, right) {
        (NodeRecord::Empty, NodeRecord::Empty) => true,
        (NodeRecord::Data(one), NodeRecord::Data(other)) => one == other,
        _ => false,
    }
}

// One record for the two halves of a block, whose nodes are from a place on: the leaf that both have, or the node at that
// place.
pub(crate) fn join(
    nodes: &mut Vec<Node>,
    place: usize,
    left: NodeRecord,
    right: NodeRecord,
) -> Result<NodeRecord, TreeError>
    requires { place < vec_len nodes.old }
    ensures ok { IfOk result (IsJoined place left right nodes.old.items nodes.new.items) }
    ensures too_large { IfErr result (λ e. e ≡ TreeError.TooLarge
        → IsKept left right × (2 ^ 32 ≤ place)) }
{
    if are_same_leaf(left, right) {
        nodes.truncate(place);
        return Ok(left);
    }
    let Ok(number) = u32::try_from(place) else {
        return Err(TreeError::TooLarge);
    };
    nodes[place] = Node { left, right };
    Ok(NodeRecord::Node(number))
}
