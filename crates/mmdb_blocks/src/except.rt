//! What ranges have that others have not.
ghost use Rattle.std.specs.Prelude.{◌≡◌, ◌<◌, ◌≤◌, ◌⊎◌, ◌↔◌, ℕ, List, [], IfOk, OnOk, MatchOption};
ghost use Rattle.mmdb_blocks.specs.Ranges.{IsOfRange, IsAmong};
ghost use Rattle.mmdb_blocks.specs.Working.{Begins, Reaches, BeginsAfter, BeginsWith, HasRest};

use crate::ranges::{BlockRange, RangesError};
use std::alloc::{AllocError, Global};

// Without the first ranges, as far as they have no address from this one on.
fn skip(others: &[BlockRange], from: u128) -> &[BlockRange]
    requires { Begins others.now }
    ensures begins { Begins result.now }
    ensures same { (address : ℕ) → from ≤ address
        → IsAmong address result.now ↔ IsAmong address others.now }
    ensures reaches { Reaches from result.now }
{
    let mut rest = others;
    while let Some((range, behind)) = rest.split_first() {
        if range.last >= from && range.last >= range.first {
            return rest;
        }
        rest = behind;
    }
    rest
}

// The first range, if it begins at this address or before.
fn first_within(others: &[BlockRange], last: u128) -> Option<BlockRange>
    ensures { MatchOption result (BeginsAfter last others.now)
        (λ range. (range.first ≤ last) × BeginsWith range others.now) }
{
    let range = others.first().copied()?;
    (range.first <= last).then_some(range)
}

// Adds a range.
fn put(first: u128, last: u128, left: &mut Vec<BlockRange>) -> Result<(), RangesError>
    ensures { OnOk result ((address : ℕ) → IsAmong address left.new.items
        ↔ (IsAmong address left.old.items ⊎ ((first ≤ address) × (address ≤ last)))) }
{
    left.push(BlockRange { first, last })?;
    Ok(())
}

// Adds the addresses from one up to another one, without the other one, where there are some.
fn put_before(first: u128, end: u128, left: &mut Vec<BlockRange>) -> Result<(), RangesError>
    ensures { OnOk result ((address : ℕ) → IsAmong address left.new.items
        ↔ (IsAmong address left.old.items ⊎ ((first ≤ address) × (address < end)))) }
{
    if first < end {
        put(first, end - 1, left)?;
    }
    Ok(())
}

// Adds what the addresses from one to another have that no range has, of some that begin in order. Answers the ranges that
// may have the last of these addresses, or later ones.
fn put_rest<'a>(
    first: u128,
    last: u128,
    others: &'a [BlockRange],
    left: &mut Vec<BlockRange>,
) -> Result<&'a [BlockRange], RangesError>
    requires span { first ≤ last }
    requires begins { Begins others.now }
    ensures { IfOk result
        (λ rest. HasRest first last others.now left.old.items left.new.items rest.now) }
{
    let mut from = first;
    let mut rest = others;
    loop {
        rest = skip(rest, from);
        let Some(other) = first_within(rest, last) else {
            put(from, last, left)?;
            return Ok(rest);
        };
        put_before(from, other.first, left)?;
        if other.last >= last {
            return Ok(rest);
        }
        from = other.last + 1;
    }
}

// What ranges have that others have not, which begin in order.
pub(crate) fn without(
    alloc: Global,
    ranges: &[BlockRange],
    others: &[BlockRange],
) -> Result<Vec<BlockRange>, RangesError>
    requires { Begins others.now }
    ensures { IfOk result (λ left. (address : ℕ) → IsAmong address left.items
        ↔ (IsAmong address ranges.now × ¬ (IsAmong address others.now))) }
{
    let mut left = Vec::new(alloc);
    let mut rest = others;
    let mut floor = 0;
    for range in ranges {
        if range.first > range.last {
            continue;
        }
        if range.first < floor {
            return Err(RangesError::OutOfOrder);
        }
        rest = put_rest(range.first, range.last, rest, &mut left)?;
        floor = range.last;
    }
    Ok(left)
}
