//! Tables of what is known by short keys.
ghost use Rattle.std.specs.Prelude.{◌≡◌, [], IfOk, IfSome, true};
ghost use Rattle.std.specs.List.{All, Contains};
ghost use Rattle.mmdb_cache.specs.Table.{IsKnown, AreKnownOr, HasKey};

use std::alloc::{AllocError, Global};
use std::marker::Model;

/// How much is kept in a set.
const WAYS: usize = 4;

/// What something is kept by.
pub trait CacheKey: Copy {
    /// A number on whose lower bits the place depends.
    fn number(self) -> u64;

    /// Whether it is the same key.
    fn is(self, other: Self) -> bool
        ensures { result ≡ true → self ≡ other };
}

impl CacheKey for u32 {
    #[inline(always)]
    fn number(self) -> u64 {
        u64::from(self)
    }

    #[inline(always)]
    fn is(self, other: u32) -> bool {
        self == other
    }
}

/// What is known by a key.
#[derive(Clone, Copy)]
pub struct Memo<K: CacheKey, V: Copy> {
    pub key: K,
    pub value: V,
}

/// What is known by the last keys, in `SETS` sets of four: each is in the set that its key gives. All memory is taken at once.
#[derive(Drop)]
pub struct CacheTable<K: CacheKey, V: Copy, const SETS: usize> {
    /// Of each set what was put last comes first.
    kept: Vec<Memo<K, V>>,
}

impl<K: CacheKey, V: Copy, const SETS: usize> Model for CacheTable<K, V, SETS> {
    ghost use Rattle.std.specs.Prelude.{List};
    ghost use Rattle.mmdb_cache.specs.declared.table.Memo.{Memo as SpecKnown};

    ghost Value = { List (SpecKnown K V) };

    ghost view = { λ t. t.kept.items };
}

// The first place of a key's set, which depends on all of the lower bits of its number.
#[inline(always)]
fn place_among(sets: usize, number: u64) -> usize {
    let mixed = number.wrapping_mul(0x9E37_79B9_7F4A_7C15) >> 32;
    let set = (mixed as usize).checked_rem(sets).unwrap_or(0);
    set.wrapping_mul(WAYS)
}

// Puts what is known at the first place of a set. What is there moves on by one place, up to the place of the same key,
// or out of the set.
#[inline(always)]
fn put_from<K: CacheKey, V: Copy>(kept: &mut [Memo<K, V>], first: usize, put: Memo<K, V>)
    ensures { AreKnownOr put kept.old kept.new }
{
    let mut moved = put;
    for place in first..first.wrapping_add(WAYS) {
        if place >= kept.len() {
            return;
        }
        let before = kept[place];
        kept[place] = moved;
        if before.key.is(put.key) {
            return;
        }
        moved = before;
    }
}

impl<K: CacheKey, V: Copy, const SETS: usize> CacheTable<K, V, SETS> {
    ghost use Rattle.mmdb_cache.specs.declared.table.Memo.{Memo as SpecKnown};

    /// Without memory for anything.
    pub fn without_memory(alloc: Global) -> CacheTable<K, V, SETS>
        ensures { result ≡ [] }
    {
        CacheTable {
            kept: Vec::new(alloc),
        }
    }

    /// Each place has the same.
    pub fn new(alloc: Global, known: Memo<K, V>) -> Result<CacheTable<K, V, SETS>, AllocError>
        ensures { IfOk result (λ table. All (IsKnown known) table) }
    {
        let count = SETS.saturating_mul(WAYS);
        let mut kept = Vec::with_capacity(alloc, count)?;
        let few = [known; 64];
        for _ in 0..count / 64 {
            kept.extend_from_slice(&few)?;
        }
        for _ in 0..count % 64 {
            kept.push(known)?;
        }
        Ok(CacheTable { kept })
    }

    // The set that a key gives.
    #[inline(always)]
    fn set_of(&self, key: K) -> Option<&[Memo<K, V>]>
        ensures { IfSome result (λ set. (known : SpecKnown K V) → Contains set.now known
            → Contains self.now known) }
    {
        let first = place_among(SETS, key.number());
        self.kept.get(first..first.wrapping_add(WAYS))
    }

    /// What is known by a key, if it is kept. All of its set are looked at, so that no branch waits for memory.
    #[inline(always)]
    pub fn get(&self, key: K) -> Option<V>
        ensures { IfSome result (λ value. Contains self.now (record { key = key; value = value })) }
    {
        let set = self.set_of(key)?;
        let [_, second, third, fourth] = set else {
            return None;
        };
        let way = usize::from(second.key.is(key))
            .max(2 * usize::from(third.key.is(key)))
            .max(3 * usize::from(fourth.key.is(key)));
        let known = set.get(way)?;
        if known.key.is(key) {
            return Some(known.value);
        }
        None
    }

    /// Whether something is known by a key, and kept.
    #[inline(always)]
    pub fn has(&self, key: K) -> bool
        ensures { result ≡ true → HasKey key self.now }
    {
        match self.set_of(key) {
            Some([first, second, third, fourth]) => {
                first.key.is(key) | second.key.is(key) | third.key.is(key) | fourth.key.is(key)
            }
            _ => false,
        }
    }

    /// Keeps what is known by a key, in place of what was, or of what was put first of its set.
    pub fn put(&mut self, key: K, value: V)
        ensures { AreKnownOr (record { key = key; value = value }) self.old self.new }
    {
        let first = place_among(SETS, key.number());
        put_from(self.kept.as_mut_slice(), first, Memo { key, value });
    }
}
