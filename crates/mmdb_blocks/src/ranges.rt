//! Sets of addresses as ranges, in any order.
ghost use Rattle.std.specs.Prelude.{◌≡◌, ◌+◌, ◌≤◌, ◌⊎◌, ◌↔◌, ℕ, List, [], ◌∷◌, ◌++◌, IsTrue, IfOk, OnOk, MatchOption};
ghost use Rattle.mmdb_blocks.specs.Blocks.{IsBlock, IsWithin};
ghost use Rattle.mmdb_blocks.specs.Ranges.{IsOfRange, IsAmong};
ghost use Rattle.mmdb_blocks.specs.Working.{Begins, EndsWith, TakesReached};
ghost use Rattle.mmdb_blocks.specs.declared.ranges.BlockRange.{BlockRange as SpecRange};

use crate::block::Block;
use std::alloc::{AllocError, AllocFailed, Global};
use std::marker::Model;

/// The addresses from one to another one, both with it. None where the last one is below the first.
#[derive(Clone, Copy, Debug, PartialEq, Eq)]
pub struct BlockRange {
    pub first: u128,
    pub last: u128,
}

/// Why ranges make no list of blocks.
#[derive(Clone, Copy, Debug, PartialEq, Eq)]
pub enum RangesError {
    /// A block is not one, or blocks would not ascend.
    OutOfOrder,
    /// Out of memory.
    Memory,
}

impl From<AllocError> for RangesError {
    fn from(_error: AllocError) -> RangesError {
        RangesError::Memory
    }
}

impl<T: Drop> From<AllocFailed<T>> for RangesError {
    fn from(_error: AllocFailed<T>) -> RangesError {
        RangesError::Memory
    }
}

/// A set of addresses, as ranges in any order.
#[derive(Drop)]
pub struct Ranges {
    items: Vec<BlockRange>,
}

impl Model for Ranges {
    ghost Value = { List SpecRange };

    ghost view = { λ ranges. ranges.items.items };
}

// Whether a range begins in another one, or right after it.
fn is_reached(last: BlockRange, range: BlockRange) -> bool
    ensures { IsTrue result → (last.first ≤ range.first) × (range.first ≤ last.last + 1) }
{
    last.first <= range.first && range.first <= last.last.saturating_add(1)
}

// The last range.
fn last_of(ranges: &[BlockRange]) -> Option<BlockRange>
    ensures { MatchOption result (ranges.now ≡ []) (λ last. EndsWith last ranges.now) }
{
    ranges.last().copied()
}

// Takes out the last range, if this one begins in it or right after it: the two as one.
fn take_reached(items: &mut Vec<BlockRange>, range: BlockRange) -> Option<BlockRange>
    ensures { MatchOption result (items.new.items ≡ items.old.items)
        (λ joined. TakesReached items.old.items items.new.items range joined) }
{
    let last = last_of(items)?;
    if !is_reached(last, range) {
        return None;
    }
    items.pop();
    Some(BlockRange {
        first: last.first,
        last: last.last.max(range.last),
    })
}

// The range that is to be added for this one, with the last one where the two meet.
fn to_add(items: &mut Vec<BlockRange>, range: BlockRange) -> BlockRange
    ensures { (address : ℕ) → IsAmong address (items.new.items ++ result ∷ [])
        ↔ (IsAmong address items.old.items ⊎ IsOfRange address range) }
{
    match take_reached(items, range) {
        Some(joined) => joined,
        None => range,
    }
}

// Adds a range. One that begins in the last one or right after it becomes a part of it.
fn add(items: &mut Vec<BlockRange>, range: BlockRange) -> Result<(), AllocError>
    ensures { OnOk result ((address : ℕ) → IsAmong address items.new.items
        ↔ (IsAmong address items.old.items ⊎ IsOfRange address range)) }
{
    let joined = to_add(items, range);
    items.push(joined)?;
    Ok(())
}

// Ranges that are sorted by their first addresses, with those that meet as one.
pub(crate) fn merged(alloc: Global, ranges: &[BlockRange]) -> Result<Vec<BlockRange>, AllocError>
    ensures { IfOk result (λ items. (address : ℕ) → IsAmong address items.items
        ↔ IsAmong address ranges.now) }
{
    let mut items = Vec::new(alloc);
    for range in ranges {
        add(&mut items, *range)?;
    }
    Ok(items)
}

// Sorts ranges by their first addresses.
pub(crate) fn sort(ranges: &mut Vec<BlockRange>)
    ensures same { (address : ℕ) → IsAmong address ranges.new.items
        ↔ IsAmong address ranges.old.items }
    ensures begins { Begins ranges.new.items }
{
    ranges.sort_unstable_by_key(|range| range.first);
}

impl Ranges {
    /// No addresses.
    pub fn new(alloc: Global) -> Ranges
        ensures { result ≡ [] }
    {
        Ranges {
            items: Vec::new(alloc),
        }
    }

    // The ranges.
    pub(crate) fn as_slice(&self) -> &[BlockRange]
        ensures { result.now ≡ self.now }
    {
        &self.items
    }

    /// Adds the addresses of a range. Without memory for it, those of the last range may be lost.
    pub fn add(&mut self, range: BlockRange) -> Result<(), AllocError>
        ensures { OnOk result ((address : ℕ) → IsAmong address self.new
            ↔ (IsAmong address self.old ⊎ IsOfRange address range)) }
    {
        add(&mut self.items, range)
    }

    /// Adds the addresses of a block.
    pub fn add_block(&mut self, block: Block) -> Result<(), RangesError>
        ensures { OnOk result (IsBlock block × ((address : ℕ) → IsAmong address self.new
            ↔ (IsAmong address self.old ⊎ IsWithin address block))) }
    {
        if !block.is_block() {
            return Err(RangesError::OutOfOrder);
        }
        let range = BlockRange {
            first: block.first,
            last: block.last(),
        };
        self.add(range)?;
        Ok(())
    }
}
