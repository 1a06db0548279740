//! Sets of offsets of a section.
ghost use Rattle.std.specs.Prelude.{◌≡◌, ℕ, ◌<◌, ◌≤◌, ◌+◌, ◌^◌, ◌||◌, ◌==◌, false, length, IfOk, IfSome, MatchOption};
ghost use Rattle.mmdb_offsets.specs.OffsetSet.{holds, IsNext, HasNoneFrom, IsLowest, HasNoBit};

use std::alloc::{AllocError, Global};
use std::marker::Model;

/// A set of offsets of a section: a bit for each offset, in words of 64.
#[derive(Drop)]
pub struct OffsetSet {
    words: Vec<u64>,
    len: usize,
}

impl Model for OffsetSet {
    ghost use Rattle.std.specs.Prelude.{Bool, List, length, ◌≡◌, ◌<◌, ◌+◌, ◌/◌, ◌^◌};
    ghost use Rattle.mmdb_offsets.specs.OffsetSet.{set_of};

    ghost Value = { List Bool };

    ghost view = { λ p. set_of p.words.items p.len };

    ghost invariant = { λ p. (length p.words.items ≡ p.len / 64 + 1) × (p.len < 2 ^ 64) };
}

// The lowest bit of a word that is 1, from this one on.
fn lowest_bit(word: u64, from: usize) -> Option<usize>
    requires { from < 64 }
    ensures { MatchOption result (HasNoBit word from) (IsLowest word from) }
{
    let rest = word >> from;
    if rest == 0 {
        None
    } else {
        Some(from + rest.trailing_zeros() as usize)
    }
}

impl OffsetSet {
    /// None of the offsets of a section of `len` bytes, unless out of memory.
    pub fn new(alloc: Global, len: usize) -> Result<OffsetSet, AllocError>
        ensures length { IfOk result (λ offsets. length offsets ≡ len) }
        ensures none { IfOk result (λ offsets. (q : ℕ) → holds offsets q ≡ false) }
    {
        Ok(OffsetSet {
            words: vec![in alloc; 0u64; len / 64 + 1]?,
            len,
        })
    }

    /// Puts an offset of the section into the set.
    #[inline(always)]
    pub fn insert(&mut self, offset: usize)
        requires { offset < length self.old }
        ensures length { length self.new ≡ length self.old }
        ensures offsets { (q : ℕ) → holds self.new q ≡ (holds self.old q || (offset == q)) }
    {
        self.words[offset / 64] |= 1 << (offset % 64);
    }

    /// Whether an offset of the section is in the set.
    #[inline(always)]
    pub fn contains(&self, offset: usize) -> bool
        requires { offset < length self.now }
        ensures { result ≡ holds self.now offset }
    {
        (self.words[offset / 64] >> (offset % 64)) & 1 == 1
    }

    /// The first offset of the set from this one on.
    pub fn next_from(&self, first: usize) -> Option<usize>
        ensures next { MatchOption result (HasNoneFrom self.now first) (IsNext self.now first) }
        ensures within { IfSome result (λ offset. (offset < length self.now)
            × (offset + 1 < 2 ^ 64)) }
    {
        if first >= self.len {
            return None;
        }
        if let Some(bit) = lowest_bit(self.words[first / 64], first % 64) {
            return self.within(first / 64 * 64 + bit);
        }
        for index in first / 64 + 1..self.words.len() {
            if let Some(bit) = lowest_bit(self.words[index], 0) {
                return self.within(index * 64 + bit);
            }
        }
        None
    }

    // An offset, if it is one of the section.
    fn within(&self, offset: usize) -> Option<usize>
        ensures offset { MatchOption result (length self.now ≤ offset)
            (λ same. (same ≡ offset) × (offset < length self.now)) }
        ensures within { IfSome result (λ same. (same < length self.now) × (same + 1 < 2 ^ 64)) }
    {
        if offset < self.len {
            Some(offset)
        } else {
            None
        }
    }
}
