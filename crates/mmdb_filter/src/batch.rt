//! Rows that passed and are not written yet.
ghost use Rattle.std.specs.Prelude.{◌≡◌, [], IfOk};

use crate::at_hand::ROOM;
use crate::counts::Counts;
use crate::text::{MOST_BEHIND, MOST_SEEN};
use std::alloc::{AllocError, Global};

/// How far a filter is, and what of the rows that passed is to be written.
#[derive(Drop)]
pub(crate) struct Batch {
    /// How many rows passed.
    pub(crate) passed: u64,
    /// How they fared.
    pub(crate) counts: Counts,
    /// What is to be written: the last of them, each with what is added.
    pub(crate) ready: Vec<u8>,
    /// Room for what is added to a row.
    pub(crate) added: Vec<u8>,
    /// Room for a row that is read in chunks.
    pub(crate) chunk: Vec<u8>,
}

impl Batch {
    /// Of no row after those that were counted before, where so many bytes of one are seen at most. It takes room for what is
    /// ready at once, and for a row of which more bytes are seen than mostly.
    pub(crate) fn new(
        alloc: Global,
        passed: u64,
        counts: Counts,
        most: usize,
    ) -> Result<Batch, AllocError>
        ensures passed { IfOk result (λ batch. batch.passed ≡ passed) }
        ensures counts { IfOk result (λ batch. batch.counts ≡ counts) }
        ensures none { IfOk result (λ batch. batch.ready.items ≡ []) }
    {
        let more = most.saturating_sub(MOST_SEEN);
        let ready = Vec::with_capacity(alloc, ROOM.saturating_add(more))?;
        let mut chunk = Vec::new(alloc);
        if more > 0 {
            chunk.reserve(most.saturating_add(MOST_BEHIND))?;
        }
        Ok(Batch {
            passed,
            counts,
            ready,
            added: Vec::new(alloc),
            chunk,
        })
    }
}

/// Whether there is memory for a filter whose additions see so many bytes of a row at most.
pub fn has_room(alloc: Global, most: usize) -> bool {
    Batch::new(alloc, 0, Counts::new(), most).is_ok()
}
