//! Whether two values are equal, as far as that is seen while both are read side by side, without memory for them.
ghost use Rattle.std.specs.Prelude.{◌≡◌, ◌<◌, ◌^◌, ℕ, true, Some, IfOk, IfSome, IsSome};
ghost use Rattle.mmdb_format.specs.Contents.{content_at as spec_content_at, content_end as spec_content_end, key_bytes_at as spec_key_bytes_at, scalar_is_text};
ghost use Rattle.mmdb_format.specs.Views.{content_view};
ghost use Rattle.mmdb_format.specs.Pointer.{direct_at as spec_direct_at};
ghost use Rattle.mmdb_compare.specs.Same.{HaveSameValue};
ghost use Rattle.mmdb_compare.specs.SideBySide.{IsSame, IsSameKey, AreSamePairs, AreSamePairsUpTo, AreSameElements, IsKnownMap};

use crate::contents::{are_same, is_text};
use crate::pairs::Offsets;
use crate::place::PairPosition;
use mmdb_cache::{CacheTable, Memo};
use mmdb_format::content::{Content, content_at, content_end, key_bytes_at};
use mmdb_format::header::{Direct, direct_at};
use mmdb_format::kind::{ARRAY, MAP};
use mmdb_format::utf8::is_utf8;
use std::alloc::{AllocError, Global};
use std::marker::Model;

/// How deep maps and arrays may be in one another, and what a record may cost. What is larger than this or costs more is
/// not read: both are far below the limits within which a value can be read.
const MOST_LEVELS: usize = 32;

const MOST_COST: usize = 1 << 18;

/// What a value or a key costs beside the bytes of its text.
const VALUE: usize = 32;

/// How many sets of maps are kept.
const SETS_OF_MAPS: usize = 1 << 11;

/// A map that was read in both: how many pairs it has, how deep containers were allowed to be in it, and what it cost.
#[derive(Clone, Copy)]
pub(crate) struct KnownMap {
    pub(crate) pairs: usize,
    pub(crate) depth: usize,
    pub(crate) cost: usize,
}

/// The data sections of two databases, whose values are read side by side. Maps to which pointers lead are kept where they
/// are equal, by the offsets of their first keys: many records share them.
#[derive(Drop)]
pub struct SideBySide<'r> {
    in_old: &'r [u8],
    in_new: &'r [u8],
    /// Whether both are one: then what was read in the old one is not read again.
    are_one: bool,
    ghost one: { are_one ≡ true → in_new.now ≡ in_old.now },
    known: CacheTable<Offsets, KnownMap, SETS_OF_MAPS>,
}

impl<'r> Model for SideBySide<'r> {
    ghost use Rattle.mmdb_compare.specs.Same.{Sections};
    ghost use Rattle.mmdb_compare.specs.SideBySide.{AreKnownMaps};

    ghost Value = { Sections };

    ghost view = { λ s. record { in_old = s.in_old.now; in_new = s.in_new.now } };

    ghost invariant = { λ s. AreKnownMaps (record { in_old = s.in_old.now; in_new = s.in_new.now }) s.known };
}

/// What is kept at first.
const NO_PAIRS: Memo<Offsets, KnownMap> = Memo {
    key: Offsets { old: 0, new: 0 },
    value: KnownMap {
        pairs: 0,
        depth: 0,
        cost: 0,
    },
};

impl<'r> SideBySide<'r> {
    /// Two data sections of which nothing was read. An `Err` is of memory.
    pub fn new(alloc: Global, old: &'r [u8], new: &'r [u8]) -> Result<SideBySide<'r>, AllocError>
        ensures { IfOk result (λ both. both ≡ record { in_old = old.now; in_new = new.now }) }
    {
        Ok(SideBySide {
            in_old: old,
            in_new: new,
            are_one: false,
            known: CacheTable::new(alloc, NO_PAIRS)?,
        })
    }

    /// One data section beside itself: what is equal to itself can be read. An `Err` is of memory.
    pub fn of_one(alloc: Global, section: &'r [u8]) -> Result<SideBySide<'r>, AllocError>
        ensures { IfOk result
            (λ both. both ≡ record { in_old = section.now; in_new = section.now }) }
    {
        Ok(SideBySide {
            in_old: section,
            in_new: section,
            are_one: true,
            known: CacheTable::new(alloc, NO_PAIRS)?,
        })
    }

    // The key in the new section, where the old one has this one.
    #[inline(always)]
    fn key_in_new(
        &self,
        place: PairPosition,
        old: &'r [u8],
        behind: usize,
    ) -> Option<(&'r [u8], usize)>
        requires { spec_key_bytes_at self.now.in_old place.in_old ≡ Some (old.now, behind) }
        ensures { IfSome result
            (λ k. spec_key_bytes_at self.now.in_new place.in_new ≡ Some (k.0.now, k.1)) }
    {
        if self.are_one && place.in_new == place.in_old {
            return Some((old, behind));
        }
        key_bytes_at(self.in_new, place.in_new).ok()
    }

    // The header in the new section, where the old one has this one.
    #[inline(always)]
    fn header_in_new(&self, place: PairPosition, old: Direct) -> Option<Direct>
        requires { spec_direct_at self.now.in_old place.in_old 0 ≡ Some old }
        ensures { IfSome result
            (λ new. spec_direct_at self.now.in_new place.in_new 0 ≡ Some new) }
    {
        if self.are_one && place.in_new == place.in_old {
            return Some(old);
        }
        direct_at(self.in_new, place.in_new, 0).ok()
    }

    // The content after two headers, where it is the same, and text.
    #[inline(always)]
    fn content_in_both(&self, place: PairPosition, old: Direct, new: Direct) -> Option<Content<'r>>
        requires old { spec_direct_at self.now.in_old place.in_old 0 ≡ Some old }
        requires new { spec_direct_at self.now.in_new place.in_new 0 ≡ Some new }
        ensures in_old { IfSome result (λ content.
            spec_content_at self.now.in_old old.header ≡ Some (content_view content)) }
        ensures in_new { IfSome result (λ content.
            spec_content_at self.now.in_new new.header ≡ Some (content_view content)) }
        ensures text { IfSome result (λ content. scalar_is_text (content_view content) ≡ true) }
        ensures ends { IsSome result → (spec_content_end old.header < 2 ^ 64)
            × (spec_content_end new.header < 2 ^ 64) }
    {
        let in_old = content_at(self.in_old, old.header).ok()?;
        if self.are_one && place.in_new == place.in_old {
            return if is_text(in_old) { Some(in_old) } else { None };
        }
        let in_new = content_at(self.in_new, new.header).ok()?;
        if is_text(in_old) && are_same(in_old, in_new) {
            return Some(in_old);
        }
        None
    }

    // Passes a key of both. Whether it is the same text.
    #[inline(always)]
    fn has_same_key(&self, place: &mut PairPosition) -> bool
        ensures { result ≡ true → IsSameKey self.now place.old place.new }
    {
        let Ok((old, behind_old)) = key_bytes_at(self.in_old, place.in_old) else {
            return false;
        };
        let Some((new, behind_new)) = self.key_in_new(*place, old, behind_old) else {
            return false;
        };
        if old != new || !is_utf8(old) || !place.takes(VALUE + old.len()) {
            return false;
        }
        place.in_old = behind_old;
        place.in_new = behind_new;
        true
    }

    // Passes the contents after two headers, which hold no others. Whether they are the same.
    #[inline(always)]
    fn has_same_content(&self, place: &mut PairPosition, old: Direct, new: Direct) -> bool
        requires old { spec_direct_at self.now.in_old place.old.in_old 0 ≡ Some old }
        requires new { spec_direct_at self.now.in_new place.old.in_new 0 ≡ Some new }
        ensures { result ≡ true → (depth : ℕ) → IsSame self.now place.old place.new depth }
    {
        let Some(content) = self.content_in_both(*place, old, new) else {
            return false;
        };
        if !place.takes(VALUE + content.payload()) {
            return false;
        }
        place.in_old = content_end(old.header);
        place.in_new = content_end(new.header);
        place.leave(old, new);
        true
    }

    // Passes `count` pairs of both. Whether they are the same.
    #[cycle(equality)]
    fn has_same_pairs(&mut self, place: &mut PairPosition, depth: usize, count: usize) -> bool
        ensures pairs { result ≡ true → AreSamePairs self.old place.old place.new count depth }
        ensures sections { self.new ≡ self.old }
    {
        for _i in 0..count {
            if !self.has_same_key(place) || !self.has_same_value(place, depth) {
                return false;
            }
        }
        true
    }

    // Keeps the pairs of two maps that are the same.
    fn keep(&mut self, offsets: Offsets, map: KnownMap)
        requires { IsKnownMap self.old (record { key = offsets; value = map }) }
        ensures { self.new ≡ self.old }
    {
        self.known.put(offsets, map);
    }

    // Passes the pairs of two maps to which pointers lead, by what is kept of them, if that is. Whether they are the same.
    #[cycle(equality)]
    fn has_same_shared(&mut self, place: &mut PairPosition, depth: usize, count: usize) -> bool
        ensures pairs { result ≡ true
            → AreSamePairsUpTo self.old place.old place.new.left count depth }
        ensures sections { self.new ≡ self.old }
    {
        let Some(offsets) = Offsets::of(Some(place.in_old), Some(place.in_new)) else {
            return self.has_same_pairs(place, depth, count);
        };
        if let Some(map) = self.known.get(offsets) {
            if map.pairs == count && map.depth <= depth {
                return place.takes(map.cost);
            }
        }
        let before = place.left;
        if !self.has_same_pairs(place, depth, count) {
            return false;
        }
        let map = KnownMap {
            pairs: count,
            depth,
            cost: before.saturating_sub(place.left),
        };
        self.keep(offsets, map);
        true
    }

    // Passes the maps after two headers. Whether they are the same.
    #[cycle(equality)]
    fn has_same_map(
        &mut self,
        place: &mut PairPosition,
        depth: usize,
        old: Direct,
        new: Direct,
    ) -> bool
        requires old { spec_direct_at self.old.in_old place.old.in_old 0 ≡ Some old }
        requires new { spec_direct_at self.old.in_new place.old.in_new 0 ≡ Some new }
        requires maps { (old.header.kind ≡ 7) × (new.header.kind ≡ 7) }
        ensures same { result ≡ true → IsSame self.old place.old place.new depth }
        ensures sections { self.new ≡ self.old }
    {
        let count = old.header.size;
        if depth == 0 || count != new.header.size || !place.takes(VALUE) {
            return false;
        }
        place.enter(old, new);
        if old.after.is_some() && new.after.is_some() {
            let is_same = self.has_same_shared(place, depth - 1, count);
            place.leave(old, new);
            return is_same;
        }
        let is_same = self.has_same_pairs(place, depth - 1, count);
        place.leave(old, new);
        is_same
    }

    // Passes `count` elements of both. Whether they are the same.
    #[cycle(equality)]
    fn has_same_elements(&mut self, place: &mut PairPosition, depth: usize, count: usize) -> bool
        ensures elements { result ≡ true
            → AreSameElements self.old place.old place.new count depth }
        ensures sections { self.new ≡ self.old }
    {
        for _i in 0..count {
            if !self.has_same_value(place, depth) {
                return false;
            }
        }
        true
    }

    // Passes the arrays after two headers. Whether they are the same.
    #[cycle(equality)]
    fn has_same_array(
        &mut self,
        place: &mut PairPosition,
        depth: usize,
        old: Direct,
        new: Direct,
    ) -> bool
        requires old { spec_direct_at self.old.in_old place.old.in_old 0 ≡ Some old }
        requires new { spec_direct_at self.old.in_new place.old.in_new 0 ≡ Some new }
        requires arrays { (old.header.kind ≡ 11) × (new.header.kind ≡ 11) }
        ensures same { result ≡ true → IsSame self.old place.old place.new depth }
        ensures sections { self.new ≡ self.old }
    {
        let count = old.header.size;
        if depth == 0 || count != new.header.size || !place.takes(VALUE) {
            return false;
        }
        place.enter(old, new);
        let is_same = self.has_same_elements(place, depth - 1, count);
        place.leave(old, new);
        is_same
    }

    // Passes a value of both, whose containers nest at most so deep. Whether it is the same.
    #[cycle(equality)]
    fn has_same_value(&mut self, place: &mut PairPosition, depth: usize) -> bool
        ensures same { result ≡ true → IsSame self.old place.old place.new depth }
        ensures sections { self.new ≡ self.old }
    {
        let Ok(old) = direct_at(self.in_old, place.in_old, 0) else {
            return false;
        };
        let Some(new) = self.header_in_new(*place, old) else {
            return false;
        };
        if old.header.kind != new.header.kind {
            return false;
        }
        match old.header.kind {
            MAP => self.has_same_map(place, depth, old, new),
            ARRAY => self.has_same_array(place, depth, old, new),
            _ => self.has_same_content(place, old, new),
        }
    }

    /// Whether the values at two offsets are seen to be equal, and can be read. Others may be equal too.
    pub fn have_equal(&mut self, old: usize, new: usize) -> bool
        ensures same { result ≡ true → HaveSameValue self.old old new }
        ensures sections { self.new ≡ self.old }
    {
        let mut place = PairPosition {
            in_old: old,
            in_new: new,
            left: MOST_COST,
        };
        self.has_same_value(&mut place, MOST_LEVELS)
    }
}
