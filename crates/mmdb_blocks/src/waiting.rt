//! The blocks that wait to be joined with what comes: each is smaller than the one before.
ghost use Rattle.std.specs.Prelude.{◌≡◌, ◌<◌, ◌≤◌, ◌↔◌, List, [], ◌∷◌, ◌++◌, IsTrue, MatchOption, vec_len};
ghost use Rattle.std.specs.List.{AllByRecursion};
ghost use Rattle.std.specs.Vec.{vec_capacity};
ghost use Rattle.mmdb_blocks.specs.Blocks.{IsBlock, AreHalves, end, whole};
ghost use Rattle.mmdb_blocks.specs.Joining.{IsReady, IsJoining, most_waiting};
ghost use Rattle.mmdb_blocks.specs.Working.{AtLast, IsAtEnd, IsPending, IsNoHalf, TakesHalf};
ghost use Rattle.mmdb_blocks.specs.declared.block.Block.{Block as SpecBlock};

use crate::block::Block;
use std::mem;

// The last block.
fn last_of(blocks: &[Block]) -> Option<Block>
    ensures { MatchOption result (blocks.now ≡ []) (λ last. IsAtEnd last blocks.now) }
{
    blocks.last().copied()
}

// Whether the block begins after the waiting ones.
pub(crate) fn is_after(waiting: &[Block], block: Block) -> bool
    requires { IsReady waiting.now }
    ensures { IsTrue result ↔ AtLast (λ last. end last ≤ block.first) waiting.now }
{
    match last_of(waiting) {
        Some(last) => last.last() < block.first,
        None => true,
    }
}

// Whether the block is smaller than the last of those that wait.
fn is_smaller(waiting: &[Block], block: Block) -> bool
    ensures { IsTrue result ↔ AtLast (λ last. last.prefix < block.prefix) waiting.now }
{
    match last_of(waiting) {
        Some(last) => last.prefix < block.prefix,
        None => true,
    }
}

// Takes out the last waiting block, if this is its other half: the block that they are together.
fn take_half(waiting: &mut Vec<Block>, right: Block) -> Option<Block>
    requires { IsReady waiting.old.items }
    ensures none { MatchOption result (waiting.new.items ≡ waiting.old.items)
        (λ larger. TakesHalf waiting.old.items waiting.new.items right larger) }
    ensures apart { MatchOption result (AtLast (λ left. IsNoHalf left right) waiting.old.items)
        (λ _. Unit) }
    ensures capacity { vec_capacity waiting.new ≡ vec_capacity waiting.old }
{
    let left = last_of(waiting)?;
    if !left.is_left_half(right) {
        return None;
    }
    waiting.pop();
    Some(left.whole())
}

// Joins the block with those that wait, as long as it is the other half of the last one.
fn join_halves(waiting: &mut Vec<Block>, block: Block) -> Block
    requires block { IsBlock block }
    requires ready { IsReady waiting.old.items }
    ensures block { IsBlock result }
    ensures ready { IsReady waiting.new.items }
    ensures apart { AtLast (λ left. IsNoHalf left result) waiting.new.items }
    ensures pending { (pushed handed : List SpecBlock)
        → IsPending pushed handed waiting.old.items block
        → IsPending pushed handed waiting.new.items result }
    ensures capacity { vec_capacity waiting.new ≡ vec_capacity waiting.old }
{
    let mut joined = block;
    while let Some(larger) = take_half(waiting, joined) {
        joined = larger;
    }
    joined
}

// Adds the block to those that wait. Where it is not smaller than the last of them, they become the settled ones.
pub(crate) fn add(waiting: &mut Vec<Block>, settled: &mut Vec<Block>, block: Block)
    requires block { IsBlock block }
    requires ready { IsReady waiting.old.items }
    requires room { (vec_capacity waiting.old ≡ most_waiting)
        × (vec_capacity settled.old ≡ most_waiting) }
    ensures ready { IsReady waiting.new.items }
    ensures settled { AllByRecursion IsBlock settled.new.items }
    ensures joining { (pushed handed : List SpecBlock)
        → IsPending pushed handed waiting.old.items block
        → IsJoining pushed (handed ++ settled.new.items) waiting.new.items }
    ensures room { (vec_capacity waiting.new ≡ most_waiting)
        × (vec_capacity settled.new ≡ most_waiting) }
{
    settled.clear();
    let joined = join_halves(waiting, block);
    if !is_smaller(waiting, joined) {
        mem::swap(waiting, settled);
    }
    waiting.push_reserved(joined);
}
