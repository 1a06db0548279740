//! The cache.
ghost use Rattle.std.specs.Prelude.{◌≡◌, ℕ, [], IfOk, IfSome, Some};
ghost use Rattle.std.specs.List.{All, Contains};
ghost use Rattle.mmdb_cache.specs.Cache.{AreOfBefore, AreOfBeforeOr, IsNone};

use std::alloc::{AllocError, Global};
use std::marker::Model;

/// How many places there are for a number of values: for few, for some, and for more.
const FEWEST: usize = 64;

const FEW: usize = 16;

const FEWER: usize = 512;

const SOME: usize = 64;

const MOST: usize = 8192;

// How many places there are for values of which `puts` were put.
fn places_for(puts: usize) -> usize {
    if puts < FEW {
        FEWEST
    } else if puts < SOME {
        FEWER
    } else {
        MOST
    }
}

/// A value that is kept for a key, and the bytes that it takes.
#[derive(Drop)]
pub struct CacheEntry<V: Drop> {
    pub key: usize,
    pub value: V,
    pub bytes: usize,
}

/// Values by their keys, each at the place that its key gives, up to a given number of bytes of them together. What is put
/// takes the place of what is there, and of others where there is no room. Nothing is taken before something is put.
#[derive(Drop)]
pub struct Cache<V: Drop> {
    alloc: Global,
    places: Vec<Option<CacheEntry<V>>>,
    /// How many bytes there are for all values, and how many of them are left.
    most: usize,
    left: usize,
    /// How many values were put.
    puts: usize,
    /// The place from which on values are let go next where there is no room.
    next: usize,
}

impl<V: Drop> Model for Cache<V> {
    ghost use Rattle.std.specs.Prelude.{List, Option};
    ghost use Rattle.mmdb_cache.specs.Cache.{IsBounded};
    ghost use Rattle.mmdb_cache.specs.declared.cache.CacheEntry.{CacheEntry as SpecEntry};

    ghost Value = { List (Option (SpecEntry V)) };

    ghost view = { λ c. c.places.items };

    ghost invariant = { λ c. IsBounded c.places.items c.left c.most };
}

// The place of a key among `count` places, which depends on all of its lower bits.
#[inline(always)]
fn place_among(count: usize, key: usize) -> usize {
    let mixed = (key as u64).wrapping_mul(0x9E37_79B9_7F4A_7C15) >> 32;
    mixed as usize & count.wrapping_sub(1)
}

// `count` places at which nothing is kept.
fn empty_places<V: Drop>(
    alloc: Global,
    count: usize,
) -> Result<Vec<Option<CacheEntry<V>>>, AllocError>
    ensures { IfOk result (λ places. All IsNone places.items) }
{
    let mut places = Vec::with_capacity(alloc, count)?;
    for _ in 0..count {
        places.push(None)?;
    }
    Ok(places)
}

impl<V: Drop> Cache<V> {
    /// Of at most `most` bytes. It takes no memory before something is put.
    pub fn new(alloc: Global, most: usize) -> Cache<V>
        ensures { result ≡ [] }
    {
        Cache {
            alloc,
            places: Vec::new(alloc),
            most,
            left: most,
            puts: 0,
            next: 0,
        }
    }

    /// The value that was put for a key, if it is kept.
    #[inline(always)]
    pub fn get(&self, key: usize) -> Option<&V>
        ensures { IfSome result (λ value. (bytes : ℕ) × Contains self.now
            (Some (record { key = key; value = value.now; bytes = bytes }))) }
    {
        match self.places.get(place_among(self.places.len(), key)) {
            Some(Some(entry)) if entry.key == key => Some(&entry.value),
            _ => None,
        }
    }

    /// Lets go of all values, and of the memory for them.
    #[inline(never)]
    pub fn clear(&mut self)
        ensures { self.new ≡ [] }
    {
        *self = Cache::new(self.alloc, self.most);
    }

    // Makes places, or more of them; the few values that are kept are let go. Without memory there are none.
    #[cold]
    #[inline(never)]
    fn grow(&mut self)
        ensures { AreOfBefore self.old self.new }
    {
        let count = places_for(self.puts);
        let puts = self.puts;
        self.clear();
        self.puts = puts;
        if let Ok(places) = empty_places(self.alloc, count) {
            self.places = places;
        }
    }

    // Lets go of what is kept at a place.
    fn let_go(&mut self, place: usize)
        ensures { AreOfBefore self.old self.new }
    {
        if let Some(kept) = self.places.get_mut(place) {
            if let Some(entry) = kept.take() {
                self.left += entry.bytes;
            }
        }
    }

    // Lets go of values until there is room for `bytes` bytes, if there can be.
    fn make_room(&mut self, bytes: usize)
        ensures { AreOfBefore self.old self.new }
    {
        for _ in 0..self.places.len() {
            if bytes <= self.left {
                return;
            }
            let place = self.next;
            self.next = place.wrapping_add(1) & self.places.len().wrapping_sub(1);
            self.let_go(place);
        }
    }

    // Keeps an entry at a place where nothing is kept, if there is room for it.
    fn keep_at(&mut self, place: usize, entry: CacheEntry<V>)
        ensures { AreOfBeforeOr entry self.old self.new }
    {
        if entry.bytes > self.left {
            return;
        }
        let left = self.left - entry.bytes;
        if let Some(kept) = self.places.get_mut(place) {
            if kept.is_none() {
                *kept = Some(entry);
                self.left = left;
            }
        }
    }

    /// Keeps a value for a key, which takes `bytes` bytes, unless there is no room or memory for it.
    #[inline(never)]
    pub fn put(&mut self, key: usize, value: V, bytes: usize)
        ensures { AreOfBeforeOr (record { key = key; value = value; bytes = bytes })
            self.old self.new }
    {
        if self.places.len() < places_for(self.puts) {
            self.grow();
        }
        self.puts = self.puts.saturating_add(1);
        let place = place_among(self.places.len(), key);
        self.let_go(place);
        self.make_room(bytes);
        self.keep_at(place, CacheEntry { key, value, bytes });
    }
}
