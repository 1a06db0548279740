//! What a list of blocks has that another one has not.
ghost use Rattle.std.specs.Prelude.{◌≡◌, ◌≤◌, ◌⊎◌, ◌↔◌, IfOk, OnOk, IsTrue};
ghost use Rattle.mmdb_blocks.specs.Blocks.{AscendsFrom, IsJoined};
ghost use Rattle.mmdb_blocks.specs.Deltas.{IsListedIn};
ghost use Rattle.mmdb_blocks.specs.Working.{Starts};
ghost use Rattle.mmdb_blocks.specs.declared.block.Block.{Block as SpecBlock};

use crate::block::Block;
use crate::ranges::RangesError;
use std::alloc::Global;

// Without the first blocks, as far as they begin before an address.
fn skip(others: &[Block], from: u128) -> &[Block]
    requires { AscendsFrom 0 others.now }
    ensures ascends { AscendsFrom 0 result.now }
    ensures same { (block : SpecBlock) → from ≤ block.first
        → IsListedIn block result.now ↔ IsListedIn block others.now }
    ensures starts { Starts from result.now }
{
    let mut rest = others;
    while let Some((block, behind)) = rest.split_first() {
        if block.first >= from {
            return rest;
        }
        rest = behind;
    }
    rest
}

// Whether two blocks are the same.
fn is_same(some: Block, other: Block) -> bool
    ensures { IsTrue result ↔ (some ≡ other) }
{
    some == other
}

// Whether the first of some blocks is this one.
fn begins_with(others: &[Block], block: Block) -> bool
    requires ascends { AscendsFrom 0 others.now }
    requires starts { Starts block.first others.now }
    ensures { IsTrue result ↔ IsListedIn block others.now }
{
    match others.split_first() {
        Some((first, _)) => is_same(block, *first),
        None => false,
    }
}

// Adds a block, unless the first of others is this one.
fn keep_unless(others: &[Block], block: Block, left: &mut Vec<Block>) -> Result<(), RangesError>
    requires ascends { AscendsFrom 0 others.now }
    requires starts { Starts block.first others.now }
    ensures { OnOk result ((other : SpecBlock) → IsListedIn other left.new.items
        ↔ (IsListedIn other left.old.items
        ⊎ ((other ≡ block) × ¬ (IsListedIn block others.now)))) }
{
    if !begins_with(others, block) {
        left.push(block)?;
    }
    Ok(())
}

/// The blocks of a list that another one has not, where both ascend.
pub fn blocks_without(
    alloc: Global,
    blocks: &[Block],
    others: &[Block],
) -> Result<Vec<Block>, RangesError>
    requires { IsJoined others.now others.now }
    ensures { IfOk result (λ left. (block : SpecBlock) → IsListedIn block left.items
        ↔ (IsListedIn block blocks.now × ¬ (IsListedIn block others.now))) }
{
    let mut left = Vec::new(alloc);
    let mut rest = others;
    let mut from = 0;
    for block in blocks {
        if block.first < from {
            return Err(RangesError::OutOfOrder);
        }
        from = block.first;
        rest = skip(rest, from);
        keep_unless(rest, *block, &mut left)?;
    }
    Ok(left)
}
