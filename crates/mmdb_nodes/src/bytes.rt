//! Nodes as bytes.
ghost use Rattle.std.specs.Prelude.{◌≡◌, ◌<◌, ◌^◌, OnOk};
ghost use Rattle.mmdb_nodes.specs.Trees.{bits_in};
ghost use Rattle.mmdb_nodes.specs.Working.{AddsNode};

use crate::size::RecordSize;
use std::alloc::AllocError;

// Three bytes each, the highest first.
fn push_24(bytes: &mut Vec<u8>, left: u32, right: u32) -> Result<(), AllocError>
    requires left { left < 2 ^ 24 }
    requires right { right < 2 ^ 24 }
    ensures { OnOk result (AddsNode 24 left right bytes.old.items bytes.new.items) }
{
    let [_, a, b, c] = left.to_be_bytes();
    let [_, d, e, f] = right.to_be_bytes();
    bytes.extend_from_slice(&[a, b, c, d, e, f])
}

// Three bytes each, and between them one with the four highest bits of both.
fn push_28(bytes: &mut Vec<u8>, left: u32, right: u32) -> Result<(), AllocError>
    requires left { left < 2 ^ 28 }
    requires right { right < 2 ^ 28 }
    ensures { OnOk result (AddsNode 28 left right bytes.old.items bytes.new.items) }
{
    let [left_high, a, b, c] = left.to_be_bytes();
    let [right_high, d, e, f] = right.to_be_bytes();
    bytes.extend_from_slice(&[a, b, c, left_high * 16 + right_high, d, e, f])
}

// Four bytes each.
fn push_32(bytes: &mut Vec<u8>, left: u32, right: u32) -> Result<(), AllocError>
    ensures { OnOk result (AddsNode 32 left right bytes.old.items bytes.new.items) }
{
    let [a, b, c, d] = left.to_be_bytes();
    let [e, f, g, h] = right.to_be_bytes();
    bytes.extend_from_slice(&[a, b, c, d, e, f, g, h])
}

// Appends a node with these two numbers ("Node Layout" of the specification).
pub(crate) fn push_node(
    bytes: &mut Vec<u8>,
    size: RecordSize,
    left: u32,
    right: u32,
) -> Result<(), AllocError>
    requires left { left < 2 ^ bits_in size }
    requires right { right < 2 ^ bits_in size }
    ensures { OnOk result (AddsNode (bits_in size) left right bytes.old.items bytes.new.items) }
{
    match size {
        RecordSize::Bits24 => push_24(bytes, left, right),
        RecordSize::Bits28 => push_28(bytes, left, right),
        RecordSize::Bits32 => push_32(bytes, left, right),
    }
}
