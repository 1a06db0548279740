//! The joiner, which takes blocks one by one.
ghost use Rattle.std.specs.Prelude.{◌≡◌, ◌≤◌, ◌↔◌, List, [], ◌∷◌, ◌++◌, IsOk, IsErrOf, IfOk, OnOk, OnErr, take, drop};
ghost use Rattle.std.specs.List.{AllByRecursion};
ghost use Rattle.std.specs.Vec.{vec_capacity};
ghost use Rattle.mmdb_blocks.specs.Blocks.{IsBlock, IsJoined};
ghost use Rattle.mmdb_blocks.specs.Joining.{IsAfter, IsReady, IsJoining, waiting_of, settled_of, most_waiting};
ghost use Rattle.mmdb_blocks.specs.declared.block.Block.{Block as SpecBlock};

use crate::block::Block;
use crate::waiting::{add, is_after};
use std::alloc::{AllocError, Global};
use std::marker::Model;
use std::mem;

// As many as there are prefixes.
const MOST_WAITING: usize = 129;

/// Why a block is not taken.
#[derive(Clone, Copy, Debug, PartialEq, Eq)]
pub enum JoinError {
    /// Its prefix is longer than 128, or bits after the prefix are not 0.
    NotABlock,
    /// It begins before the last address of those that were pushed.
    OutOfOrder,
}

/// Joins ascending blocks that are pushed one by one. At most one block of each prefix waits for its other half; the
/// others are handed out as soon as nothing can join them any more, by `settled`.
#[derive(Drop)]
pub struct Joiner {
    waiting: Vec<Block>,
    settled: Vec<Block>,
}

impl Model for Joiner {
    ghost Value = { List SpecBlock × List SpecBlock };

    ghost view = { λ j. (j.waiting.items, j.settled.items) };

    ghost invariant = { λ j. IsReady j.waiting.items × (vec_capacity j.waiting ≡ most_waiting)
        × (vec_capacity j.settled ≡ most_waiting) × AllByRecursion IsBlock j.settled.items };
}

impl Joiner {
    /// A joiner with all the memory that it will need: 258 blocks. An error where there is not that much.
    pub fn new(alloc: Global) -> Result<Joiner, AllocError>
        ensures none { IfOk result (λ joiner. joiner ≡ ([], [])) }
        ensures joining { IfOk result (λ joiner. IsJoining [] [] (waiting_of joiner)) }
    {
        Ok(Joiner {
            waiting: Vec::with_capacity(alloc, MOST_WAITING)?,
            settled: Vec::with_capacity(alloc, MOST_WAITING)?,
        })
    }

    /// Takes the next block. Blocks that nothing can join any more are handed out by `settled`, until the next call.
    /// An error changes nothing.
    pub fn push(&mut self, block: Block) -> Result<(), JoinError>
        // Whatever was pushed and handed out before: what is handed out now and what waits completes the joined form.
        ensures ok { OnOk result ((pushed handed : List SpecBlock)
            → IsJoining pushed handed (waiting_of self.old)
            → IsJoining (pushed ++ block ∷ []) (handed ++ settled_of self.new)
            (waiting_of self.new)) }
        ensures taken { (pushed handed : List SpecBlock)
            → IsJoining pushed handed (waiting_of self.old)
            → IsOk result ↔ (IsBlock block × IsAfter pushed block) }
        ensures not_a_block { IsErrOf result JoinError.NotABlock ↔ ¬ (IsBlock block) }
        ensures out_of_order { IsErrOf result JoinError.OutOfOrder → IsBlock block }
        ensures err { OnErr result (self.new ≡ self.old) }
    {
        if !block.is_block() {
            return Err(JoinError::NotABlock);
        }
        if !is_after(&self.waiting, block) {
            return Err(JoinError::OutOfOrder);
        }
        add(&mut self.waiting, &mut self.settled, block);
        Ok(())
    }

    /// Hands out what waits, by `settled`: the blocks are all pushed. What is pushed next begins a list of its own.
    pub fn finish(&mut self)
        ensures all { (pushed handed : List SpecBlock)
            → IsJoining pushed handed (waiting_of self.old)
            → IsJoined pushed (handed ++ settled_of self.new) }
        ensures joining { IsJoining [] [] (waiting_of self.new) }
        ensures handed { settled_of self.new ≡ waiting_of self.old }
        ensures none { waiting_of self.new ≡ [] }
    {
        mem::swap(&mut self.waiting, &mut self.settled);
        self.waiting.clear();
    }

    /// The blocks that the last call handed out, ascending.
    pub fn settled(&self) -> &[Block]
        ensures all { result.now ≡ settled_of self.now }
        ensures blocks { AllByRecursion IsBlock result.now }
    {
        &self.settled
    }
}
