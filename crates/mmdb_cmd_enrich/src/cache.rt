//! What was added for the last records.
ghost use Rattle.std.specs.Prelude.{◌≡◌, ◌<◌, ◌≤◌, ◌⊎◌, [], None, IfOk, IfSome, true, length};
ghost use Rattle.mmdb_cmd_enrich.specs.Kept.{IsEmptySlot, IsKept, AreKept};
ghost use Rattle.mmdb_cmd_enrich.specs.KeptCells.{bytes_of, heap_of};
ghost use Rattle.std.specs.Prelude.{ℕ, List, Option};
ghost use Rattle.mmdb_net.specs.declared.network.IpNetwork.{IpNetwork as SpecIpNetwork};
ghost use Rattle.mmdb_cmd_enrich.specs.Added.{AddsAt};
ghost use Rattle.mmdb_cmd_enrich.specs.Layers.{AreKeys};
ghost use Rattle.mmdb_cmd_enrich.specs.Wanted.{Wanted, AddsOf, IsKeptByAll};
ghost use Rattle.mmdb_cmd_enrich.specs.declared.cache.KeptBy.TheVariants.{Nothing};

use crate::kept_cells::KeptCells;
use mmdb_cache::Worth;
use mmdb_filter::Outcome;
use std::alloc::{AllocError, Global};
use std::marker::Model;
use std::mem;

/// How many buckets there are for records, of which each keeps two.
const BUCKETS: usize = 65_536;

/// The most bytes of the cells of a record that is kept.
const MOST_BYTES: usize = 512;

/// How many records that have a number are kept before any of them has to be found again.
const FIRST: u64 = 16_384;

/// The most bytes of the heap for cells.
const MOST_HEAP: usize = 8 << 20;

/// The numbers of where records are: of all of them, and of the first database's alone. One that is too large is none.
#[derive(Clone, Copy)]
pub struct RecordKeys {
    pub all: Option<usize>,
    pub first: Option<usize>,
}

impl RecordKeys {
    /// What cells of all of the records are kept by.
    #[inline(always)]
    pub(crate) fn by_all(self) -> KeptBy
        ensures { IsKeptByAll self.all result }
    {
        match self.all {
            Some(number) => KeptBy::All(number),
            None => KeptBy::Nothing,
        }
    }
}

/// What cells are kept by.
#[derive(Clone, Copy)]
pub(crate) enum KeptBy {
    Nothing,
    /// The number of records.
    All(usize),
    /// That of the first database's record, whichever those of others are.
    First(usize),
}

/// The cells of a record.
#[derive(Drop)]
pub(crate) struct Slot {
    by: KeptBy,
    outcome: Outcome,
    cells: KeptCells,
}

/// The last two records of a bucket.
#[derive(Drop)]
pub struct Bucket {
    newer: Slot,
    older: Slot,
}

/// Whether cells are kept of records that have a number.
#[derive(Clone, Copy)]
pub(crate) enum Keeping {
    Never,
    /// Where as many are found again.
    IfWorth,
    Always,
}

/// What is kept of a record.
#[derive(Clone, Copy)]
pub(crate) struct KeptRecord<'c> {
    pub(crate) cells: &'c [u8],
    pub(crate) outcome: Outcome,
}

/// What was added for the last records, each at the bucket that its offset gives. At most 512 bytes of a record are
/// kept, and those that are not in their bucket take at most 8 MiB. Of the records of several databases one number takes the
/// place of the offset; of those that are made soon again few are kept where few are found.
#[derive(Drop)]
pub struct AddedCache {
    alloc: Global,
    buckets: Vec<Bucket>,
    /// How many bytes of the heap are left for cells.
    heap_left: usize,
    /// Whether it is worth to keep the cells of records that have a number.
    worth: Worth,
}

impl Model for AddedCache {
    ghost use Rattle.std.specs.Prelude.{List};
    ghost use Rattle.mmdb_cmd_enrich.specs.Kept.{IsBounded};
    ghost use Rattle.mmdb_cmd_enrich.specs.declared.cache.Bucket.{Bucket as SpecBucket};

    ghost Value = { List SpecBucket };

    ghost view = { λ cache. cache.buckets.items };

    ghost invariant = { λ cache. IsBounded cache.buckets.items cache.heap_left };
}

// The bucket of a number.
#[inline(always)]
fn bucket_of(by: KeptBy) -> usize
    ensures { result < 65536 }
{
    match by {
        KeptBy::All(number) | KeptBy::First(number) => number % BUCKETS,
        KeptBy::Nothing => 0,
    }
}

impl Slot {
    // Of no record.
    fn empty() -> Slot
        ensures by { result.by ≡ Nothing }
        ensures bytes { bytes_of result.cells ≡ [] }
        ensures heap { heap_of result.cells ≡ 0 }
    {
        Slot {
            by: KeptBy::Nothing,
            outcome: Outcome::Absent,
            cells: KeptCells::none(),
        }
    }

    // Whether it keeps the records of a number.
    #[inline(always)]
    fn is_of(&self, by: KeptBy) -> bool
        ensures { result ≡ true → self.now.by ≡ by }
    {
        match (self.by, by) {
            (KeptBy::All(kept), KeptBy::All(number)) => kept == number,
            (KeptBy::First(kept), KeptBy::First(number)) => kept == number,
            _ => false,
        }
    }
}

impl Bucket {
    // Of no record.
    fn empty() -> Bucket
        ensures newer { IsEmptySlot result.newer }
        ensures older { IsEmptySlot result.older }
    {
        Bucket {
            newer: Slot::empty(),
            older: Slot::empty(),
        }
    }

    // Puts a newer record in the stead of the older one.
    fn put(&mut self, slot: Slot)
        ensures newer { self.new.newer ≡ slot }
        ensures older { self.new.older ≡ self.old.newer }
    {
        self.older = mem::replace(&mut self.newer, slot);
    }

    // The slot that keeps the records of a number, if one of them does. Both are looked at, so that no guess goes wrong
    // of which it is.
    #[inline(always)]
    fn slot_of(&self, by: KeptBy) -> &Slot
        ensures { (result.now ≡ self.now.newer) ⊎ (result.now ≡ self.now.older) }
    {
        if self.older.is_of(by) {
            &self.older
        } else {
            &self.newer
        }
    }
}

impl AddedCache {
    /// Of no record. It takes memory for each bucket at once.
    pub fn new(alloc: Global) -> Result<AddedCache, AllocError>
        ensures { IfOk result (λ cache. (wanted : Wanted) → AreKept wanted cache) }
    {
        let mut buckets = Vec::with_capacity(alloc, BUCKETS)?;
        for _ in 0..BUCKETS {
            buckets.push(Bucket::empty())?;
        }
        Ok(AddedCache {
            alloc,
            buckets,
            heap_left: MOST_HEAP,
            worth: Worth {
                asked: 0,
                kept: 0,
                found: FIRST,
            },
        })
    }

    // What is kept of the records of a number.
    #[inline(always)]
    fn kept(&self, by: KeptBy) -> Option<KeptRecord<'_>>
        ensures { IfSome result (λ kept. (wanted : Wanted) → AreKept wanted self.now
            → AddsOf wanted by kept.cells.now kept.outcome) }
    {
        let slot = self.buckets[bucket_of(by)].slot_of(by);
        if !slot.is_of(by) {
            return None;
        }
        Some(KeptRecord {
            cells: slot.cells.as_slice(),
            outcome: slot.outcome,
        })
    }

    /// What is kept of records, by the number of all or of the first.
    #[inline(always)]
    pub(crate) fn kept_of(&self, keys: RecordKeys) -> Option<KeptRecord<'_>>
        ensures kept { IfSome result (λ kept. (wanted : Wanted) (offsets : List (Option ℕ))
            → AreKept wanted self.now → AreKeys wanted.databases offsets keys
            → (shown : Option SpecIpNetwork) → AddsAt wanted.template wanted.databases shown offsets
            kept.cells.now kept.outcome) }
        ensures none { keys.all ≡ None → keys.first ≡ None → result ≡ None }
    {
        if let Some(first) = keys.first
            && let Some(kept) = self.kept(KeptBy::First(first))
        {
            return Some(kept);
        }
        match keys.all {
            Some(all) => self.kept(KeptBy::All(all)),
            None => None,
        }
    }

    // Keeps the cells of a record in the stead of the older one at its bucket, unless they are many or there is no memory.
    fn put(&mut self, by: KeptBy, cells: &[u8], outcome: Outcome)
        ensures { (wanted : Wanted) → AreKept wanted self.old
            → AddsOf wanted by cells.now outcome → AreKept wanted self.new }
    {
        if cells.len() > MOST_BYTES {
            return;
        }
        let Ok(cells) = KeptCells::of(self.alloc, cells) else {
            return;
        };
        let at = bucket_of(by);
        let left = self.heap_left + self.buckets[at].older.cells.heap();
        if cells.heap() > left {
            return;
        }
        self.heap_left = left - cells.heap();
        self.buckets[at].put(Slot { by, outcome, cells });
    }

    /// Notes that the cells of records that have a number were found.
    #[inline(always)]
    pub(crate) fn note_found(&mut self)
        ensures { self.new ≡ self.old }
    {
        self.worth.find();
    }

    // Whether cells are kept.
    #[inline(always)]
    fn keeps(&mut self, keeping: Keeping) -> bool
        ensures { self.new ≡ self.old }
    {
        match keeping {
            Keeping::Never => false,
            Keeping::IfWorth => self.worth.keeps(),
            Keeping::Always => true,
        }
    }

    /// Keeps the cells of records by what they have, as it is asked.
    pub(crate) fn keep(&mut self, by: KeptBy, cells: &[u8], outcome: Outcome, keeping: Keeping)
        ensures { (wanted : Wanted) → AreKept wanted self.old
            → AddsOf wanted by cells.now outcome → AreKept wanted self.new }
    {
        if let KeptBy::Nothing = by {
            return;
        }
        if self.keeps(keeping) {
            self.put(by, cells, outcome);
        }
    }
}
