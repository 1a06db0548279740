//! What rows look like.
ghost use Rattle.std.specs.Prelude.{◌≡◌, ℕ, List, Option, IfErr, OnOk};
ghost use Rattle.mmdb_format.specs.Error.{MemoryApart};
ghost use Rattle.mmdb_query.specs.Rows.{PutsTail};

use crate::answer::Answer;
use mmdb_reader::MaxMindDbError;
use std::alloc::Global;

/// How what databases have is laid out around its network.
pub trait Template {
    /// What rows are made with, and used again from row to row.
    type Scratch: Drop;

    /// What each row has before its network.
    ghost front: { Self → List ℕ };

    /// What a row may have after its network, of the records at these offsets of data sections.
    ghost is_tail: { Self → List (List ℕ) → List (Option ℕ) → List ℕ → Type 0 };

    /// What a row has can't be read.
    ghost is_unread: { Self → List (List ℕ) → List (Option ℕ) → Type 0 };

    /// All that is kept in what rows are made with is of records of these data sections.
    ghost fits: { Self → List (List ℕ) → Self.Scratch → Type 0 };

    /// What each row has before its network.
    fn front(&self) -> &[u8]
        ensures { result.now ≡ front self.now };

    /// Adds what a row has after its network. Fails, unless out of memory, where that can't be read; anything may have been added
    /// then.
    fn put_tail<A: Answer>(
        &self,
        alloc: Global,
        scratch: &mut Self::Scratch,
        answer: &A,
        out: &mut Vec<u8>,
    ) -> Result<(), MaxMindDbError>
        requires { fits self.now (A.sections answer.now) scratch.old }
        ensures tail { OnOk result (PutsTail (is_tail self.now (A.sections answer.now)
            (A.had answer.now).offsets) out.old.items out.new.items) }
        ensures unread { IfErr result (λ e. MemoryApart e
            (is_unread self.now (A.sections answer.now) (A.had answer.now).offsets)) }
        ensures fits { fits self.now (A.sections answer.now) scratch.new };

    /// Drops all that is kept to make rows faster.
    fn drop_kept(&self, scratch: &mut Self::Scratch)
        ensures { (s : List (List ℕ)) → fits self.now s scratch.old
            → fits self.now s scratch.new };
}
