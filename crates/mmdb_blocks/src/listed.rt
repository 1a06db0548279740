//! The fewest blocks of a set of addresses.
ghost use Rattle.std.specs.Prelude.{◌≡◌, ◌≤◌, ◌⊎◌, ◌↔◌, ℕ, List, [], ◌∷◌, ◌++◌, IfOk, OnOk};
ghost use Rattle.mmdb_blocks.specs.Blocks.{IsIn, IsWithin, IsJoined};
ghost use Rattle.mmdb_blocks.specs.Joining.{waiting_of};
ghost use Rattle.mmdb_blocks.specs.Ranges.{IsAmong, IsListed, IsOfRange};
ghost use Rattle.mmdb_blocks.specs.Working.{Begins, IsKept, Takes};

use crate::block::Block;
use crate::except::without;
use crate::joiner::Joiner;
use crate::ranges::{BlockRange, Ranges, RangesError, merged, sort};
use std::alloc::Global;

// Takes a block, and adds those that nothing can join any more.
fn push_block(block: Block, joiner: &mut Joiner, blocks: &mut Vec<Block>) -> Result<(), RangesError>
    ensures { OnOk result (IsKept blocks.old.items (waiting_of joiner.old)
        → Takes blocks.old.items (waiting_of joiner.old) blocks.new.items (waiting_of joiner.new)
        (λ address. IsWithin address block)) }
{
    match joiner.push(block) {
        Ok(()) => Ok(blocks.extend_from_slice(joiner.settled())?),
        Err(_) => Err(RangesError::OutOfOrder),
    }
}

// Takes the addresses of a range, if it has some, block by block.
fn push_range(
    range: BlockRange,
    joiner: &mut Joiner,
    blocks: &mut Vec<Block>,
) -> Result<(), RangesError>
    ensures { OnOk result (IsKept blocks.old.items (waiting_of joiner.old)
        → Takes blocks.old.items (waiting_of joiner.old) blocks.new.items (waiting_of joiner.new)
        (λ address. IsOfRange address range)) }
{
    if range.first > range.last {
        return Ok(());
    }
    let mut from = range.first;
    loop {
        let block = Block::largest(from, range.last);
        let last = block.last();
        push_block(block, joiner, blocks)?;
        if last >= range.last {
            return Ok(());
        }
        from = last + 1;
    }
}

// Takes the addresses of ranges.
fn push_ranges(
    ranges: &[BlockRange],
    joiner: &mut Joiner,
    blocks: &mut Vec<Block>,
) -> Result<(), RangesError>
    ensures { OnOk result (IsKept blocks.old.items (waiting_of joiner.old)
        → Takes blocks.old.items (waiting_of joiner.old) blocks.new.items (waiting_of joiner.new)
        (λ address. IsAmong address ranges.now)) }
{
    for range in ranges {
        push_range(*range, joiner, blocks)?;
    }
    Ok(())
}

// The fewest blocks of ascending ranges.
fn blocks_of(alloc: Global, ranges: &[BlockRange]) -> Result<Vec<Block>, RangesError>
    ensures exact { IfOk result (λ blocks. (address : ℕ) → IsIn address blocks.items
        ↔ IsAmong address ranges.now) }
    ensures fewest { IfOk result (λ blocks. IsJoined blocks.items blocks.items) }
{
    let mut joiner = Joiner::new(alloc)?;
    let mut blocks = Vec::new(alloc);
    push_ranges(ranges, &mut joiner, &mut blocks)?;
    joiner.finish();
    blocks.extend_from_slice(joiner.settled())?;
    Ok(blocks)
}

// Ranges in the order in which they begin.
fn sorted(
    alloc: Global,
    some: &[BlockRange],
    others: &[BlockRange],
) -> Result<Vec<BlockRange>, RangesError>
    ensures same { IfOk result (λ ranges. (address : ℕ) → IsAmong address ranges.items
        ↔ (IsAmong address some.now ⊎ IsAmong address others.now)) }
    ensures begins { IfOk result (λ ranges. Begins ranges.items) }
{
    let mut ranges = Vec::from_slice(alloc, some)?;
    ranges.extend_from_slice(others)?;
    sort(&mut ranges);
    Ok(ranges)
}

// The fewest blocks that have the addresses of some ranges or others, less those of a third kind.
fn blocks_among(
    alloc: Global,
    chosen: &[BlockRange],
    also: &[BlockRange],
    except: &[BlockRange],
) -> Result<Vec<Block>, RangesError>
    ensures exact { IfOk result (λ blocks. (address : ℕ) → IsIn address blocks.items
        ↔ IsListed address chosen.now also.now except.now) }
    ensures fewest { IfOk result (λ blocks. IsJoined blocks.items blocks.items) }
{
    let excepted = sorted(alloc, except, &[])?;
    let all = sorted(alloc, chosen, also)?;
    let joined = merged(alloc, all.as_slice())?;
    let left = without(alloc, joined.as_slice(), excepted.as_slice())?;
    let blocks = blocks_of(alloc, left.as_slice())?;
    Ok(blocks)
}

/// The fewest blocks, ascending, that have exactly the addresses which are chosen or in `also`, less those in `except`.
pub fn listed_blocks(
    alloc: Global,
    chosen: &Ranges,
    also: &Ranges,
    except: &Ranges,
) -> Result<Vec<Block>, RangesError>
    ensures exact { IfOk result (λ blocks. (address : ℕ) → IsIn address blocks.items
        ↔ IsListed address chosen.now also.now except.now) }
    ensures fewest { IfOk result (λ blocks. IsJoined blocks.items blocks.items) }
{
    let blocks = blocks_among(alloc, chosen.as_slice(), also.as_slice(), except.as_slice())?;
    Ok(blocks)
}
