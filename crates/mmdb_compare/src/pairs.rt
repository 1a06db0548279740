//! Pairs of records that were compared.
ghost use Rattle.std.specs.Prelude.{◌≡◌, true, false, Some, IfOk, IfSome};
ghost use Rattle.mmdb_compare.specs.Kept.{IsKeptAs, AreKeptAs, IsIn, IsKeptSo, ArePairsOr, AreOrThis, AreOfNone};

use mmdb_cache::{CacheKey, CacheTable, Memo};
use std::alloc::{AllocError, Global};

/// How many sets of pairs are kept that are shown the same, how many of those of them that came last, and how many of
/// others.
const SETS_OF_SAME: usize = 1 << 17;

const SETS_OF_LAST: usize = 1 << 8;

const SETS_OF_DIFFERENT: usize = 1 << 14;

/// The offset of no record.
const NO_RECORD: u32 = u32::MAX;

/// The offsets of two records.
#[derive(Clone, Copy)]
pub struct Offsets {
    pub(crate) old: u32,
    pub(crate) new: u32,
}

/// The pairs of records that were compared last. Many networks share a pair.
#[derive(Drop)]
pub struct KnownPairs {
    same: CacheTable<Offsets, (), SETS_OF_SAME>,
    /// Some of the same, in a table that the first cache holds.
    last: CacheTable<Offsets, (), SETS_OF_LAST>,
    different: CacheTable<Offsets, (), SETS_OF_DIFFERENT>,
}

// The offset by which a record is kept, unless it is too large.
#[inline(always)]
fn kept_offset(offset: Option<usize>) -> Option<u32>
    ensures { IfSome result (IsKeptAs offset) }
{
    match offset {
        Some(offset) if offset < NO_RECORD as usize => Some(offset as u32),
        Some(_) => None,
        None => Some(NO_RECORD),
    }
}

impl Offsets {
    /// The offsets by which a pair is kept, unless one is too large.
    #[inline(always)]
    pub fn of(old: Option<usize>, new: Option<usize>) -> Option<Offsets>
        ensures { IfSome result (AreKeptAs old new) }
    {
        Some(Offsets {
            old: kept_offset(old)?,
            new: kept_offset(new)?,
        })
    }

    /// Where both records are, if there are two.
    #[inline(always)]
    pub fn both(&self) -> Option<(usize, usize)>
        ensures { IfSome result (λ both. AreKeptAs (Some both.0) (Some both.1) self.now) }
    {
        if self.old == NO_RECORD || self.new == NO_RECORD {
            return None;
        }
        Some((self.old as usize, self.new as usize))
    }
}

impl CacheKey for Offsets {
    /// It is another one for each pair.
    #[inline(always)]
    fn number(self) -> u64 {
        u64::from(self.old) ^ u64::from(self.new).rotate_left(32)
    }

    #[inline(always)]
    fn is(self, other: Offsets) -> bool {
        (self.old == other.old) & (self.new == other.new)
    }
}

// No pairs yet.
fn no_pairs<const SETS: usize>(alloc: Global) -> Result<CacheTable<Offsets, (), SETS>, AllocError>
    ensures { IfOk result AreOfNone }
{
    let key = Offsets {
        old: NO_RECORD,
        new: NO_RECORD,
    };
    CacheTable::new(alloc, Memo { key, value: () })
}

impl KnownPairs {
    /// No pairs yet. An `Err` is of memory.
    pub fn new(alloc: Global) -> Result<KnownPairs, AllocError>
        ensures same { IfOk result (λ pairs. AreOfNone pairs.same) }
        ensures last { IfOk result (λ pairs. AreOfNone pairs.last) }
        ensures different { IfOk result (λ pairs. AreOfNone pairs.different) }
    {
        Ok(KnownPairs {
            same: no_pairs(alloc)?,
            last: no_pairs(alloc)?,
            different: no_pairs(alloc)?,
        })
    }

    /// Whether it is kept of two records that they are shown the same.
    #[inline(always)]
    pub fn keeps_same(&self, offsets: Option<Offsets>) -> bool
        ensures { result ≡ true → IsIn self.now.same offsets }
    {
        match offsets {
            Some(offsets) => self.same.has(offsets),
            None => false,
        }
    }

    /// Whether two records are among the last of those that are kept so.
    #[inline(always)]
    pub fn were_last_same(&self, offsets: Option<Offsets>) -> bool
        ensures { result ≡ true → IsIn self.now.last offsets }
    {
        match offsets {
            Some(offsets) => self.last.has(offsets),
            None => false,
        }
    }

    /// Says of two records that are kept so that they came last.
    pub fn keep_last(&mut self, offsets: Option<Offsets>)
        ensures last { AreOrThis offsets self.old.last self.new.last }
        ensures same { self.new.same ≡ self.old.same }
        ensures different { self.new.different ≡ self.old.different }
    {
        if let Some(offsets) = offsets {
            self.last.put(offsets, ());
        }
    }

    /// Whether two records are shown the same, if that is kept.
    pub fn kept(&self, offsets: Offsets) -> Option<bool>
        ensures { IfSome result (λ is_same. IsKeptSo self.now offsets is_same) }
    {
        if self.same.has(offsets) {
            Some(true)
        } else if self.different.has(offsets) {
            Some(false)
        } else {
            None
        }
    }

    /// Keeps whether two records are shown the same.
    pub fn keep(&mut self, offsets: Offsets, is_same: bool)
        ensures same { is_same ≡ true → ArePairsOr offsets self.old.same self.new.same }
        ensures as_same { is_same ≡ false → self.new.same ≡ self.old.same }
        ensures different { is_same ≡ false
            → ArePairsOr offsets self.old.different self.new.different }
        ensures as_different { is_same ≡ true → self.new.different ≡ self.old.different }
        ensures last { self.new.last ≡ self.old.last }
    {
        if is_same {
            self.same.put(offsets, ());
        } else {
            self.different.put(offsets, ());
        }
    }
}
