//! Makes nodes of entries.
ghost use Rattle.std.specs.Prelude.{◌≡◌, ◌≤◌, ◌<◌, ◌^◌, ◌+◌, ◌%◌, ◌++◌, ℕ, List, length, IfOk, IfErr, OnOk, IfSome};
ghost use Rattle.std.specs.List.{AllByRecursion};
ghost use Rattle.mmdb_nodes.specs.Entries.{IsOrdered, offset_after};
ghost use Rattle.mmdb_nodes.specs.Trees.{splits};
ghost use Rattle.mmdb_nodes.specs.Working.{IsInside, HasOffsetBelow, IsUnder, Leads, IsSound, IsBelow, HasNoTwins, IsForest, HasFewEnds, HasAsMany, NeedsTooMany};
ghost use Rattle.mmdb_nodes.specs.declared.node.Node.{Node as SpecNode};

use crate::entry::{NodeEntry, cut_at, skip_whole};
use crate::node::{NO_NODE, Node, NodeRecord, join};
use crate::tree::TreeError;

// How many addresses half of a block has, whose halves have `free` free bits.
fn half_size(free: u8) -> u128
    requires { free < 128 }
    ensures { result ≡ 2 ^ free }
{
    1 << free
}

// The record for the block of `2 ^ free` addresses from `first` on, which have the offset that was found where no entry says
// another. Its nodes go after the others, each before those of its halves.
pub(crate) fn plant(
    nodes: &mut Vec<Node>,
    entries: &[NodeEntry],
    first: u128,
    free: u8,
    found: Option<u32>,
) -> Result<NodeRecord, TreeError>
    requires bits { free ≤ 128 }
    requires room { first + 2 ^ free ≤ 2 ^ 128 }
    requires aligned { first % 2 ^ free ≡ 0 }
    requires ordered { IsOrdered entries.now }
    requires inside { AllByRecursion (IsInside first free) entries.now }
    ensures grown { OnOk result ((more : List SpecNode)
        × (nodes.new.items ≡ nodes.old.items ++ more)) }
    ensures leads { let from = length nodes.old.items in
        IfOk result (λ r. Leads from nodes.new.items r first free found entries.now) }
    ensures sound { OnOk result ((bound : ℕ) → AllByRecursion (HasOffsetBelow bound) entries.now
        → IfSome found (IsUnder bound) → IsSound (length nodes.old.items) bound nodes.new.items) }
    ensures below { IfOk result (λ r. (bound : ℕ)
        → AllByRecursion (HasOffsetBelow bound) entries.now
        → IfSome found (IsUnder bound) → IsBelow (length nodes.new.items) bound r) }
    // The first of its nodes comes before the others.
    ensures preorder { IfOk result (λ r. (n : ℕ) → r ≡ NodeRecord.Node n
        → (n ≡ length nodes.old.items) × (n < length nodes.new.items)) }
    ensures few { IfOk result (λ r. HasFewEnds (length nodes.old.items) nodes.new.items r free) }
    ensures reduced { OnOk result (HasNoTwins (length nodes.old.items) nodes.new.items) }
    ensures forest { OnOk result (IsForest (length nodes.old.items) nodes.new.items) }
    ensures count { let from = length nodes.old.items in let to = length nodes.new.items in
        IfOk result (λ r. HasAsMany from to r first free found entries.now) }
    ensures too_large { IfErr result (λ e. e ≡ TreeError.TooLarge
        → NeedsTooMany (length nodes.old.items) first free found entries.now) }
{
    let (found, rest) = skip_whole(entries, free, found);
    if rest.is_empty() {
        return Ok(NodeRecord::leaf(found));
    }
    let half = free - 1;
    let middle = first + half_size(half);
    let (low, high) = rest.split_at(cut_at(rest, middle));
    let place = nodes.len();
    nodes.push(NO_NODE)?;
    let left = plant(nodes, low, first, half, found)?;
    let right = plant(nodes, high, middle, half, found)?;
    join(nodes, place, left, right)
}
