//! Arrays and maps: entering them, counting what is left, and leaving them.
ghost use Rattle.std.specs.Prelude.{◌≡◌, ◌+◌, ◌-◌, true, MatchBool, min, length, unwrap_or};
ghost use Rattle.mmdb_decode.specs.State.{Within};
ghost use Rattle.mmdb_decode.specs.Arrays.{entered_array, entered_array_of, left_array, items_left, with_items_left, levels_before_array};
ghost use Rattle.mmdb_decode.specs.Maps.{entered_map, left_map, pairs_left, levels_before_map};
ghost use Rattle.mmdb_decode.specs.Errors.{Reads, Takes};

use super::Decoder;
use crate::budget::{begun, spent};
use crate::direct::container_at;
use crate::items::{Entries, Items};
use mmdb_format::decode_error_kind::DecodeErrorKind;
use mmdb_format::error::DecodeResult;
use mmdb_format::kind::{ARRAY, MAP};
use std::alloc::Global;

impl<'de> Decoder<'de> {
    #[inline(always)]
    pub(super) fn enter_array(&mut self) -> Result<Items, DecodeErrorKind>
        ensures { Takes (λ items. items) (entered_array self.old) self.old self.new result }
    {
        let at = container_at(self.section, self.offset, self.levels, ARRAY)?;
        let budget = spent(begun(self.budget), at.count, 0)?;
        let items = Items {
            remaining: at.count,
            after: at.after,
            levels: self.levels,
        };
        self.budget = budget;
        self.offset = at.body;
        self.levels = at.levels;
        Ok(items)
    }

    /// Enters an array, and charges its elements.
    pub fn begin_array(&mut self, alloc: Global) -> DecodeResult<Items>
        ensures { Reads (λ items. items) true (entered_array self.old) self.old self.new result }
    {
        match self.enter_array() {
            Ok(items) => Ok(items),
            Err(fault) => Err(fault.to_error(alloc, self.offset)),
        }
    }

    /// Enters an array of `len` elements, and charges them.
    pub fn begin_array_of(&mut self, alloc: Global, len: usize) -> DecodeResult<Items>
        ensures { Reads (λ items. items) true (entered_array_of len self.old)
            self.old self.new result }
    {
        let items = self.begin_array(alloc)?;
        if items.remaining != len {
            let fault = DecodeErrorKind::WrongLength(len, items.remaining);
            items.give_up(self);
            return Err(fault.to_error(alloc, self.offset));
        }
        Ok(items)
    }

    /// Whether an element is to be read next, which the caller then reads or skips.
    pub fn next_item(&mut self, items: &mut Items) -> bool
        ensures same { self.new ≡ self.old }
        ensures within { Within self.new.budget }
        ensures taken { MatchBool result (items_left items.old ≡ items_left items.new + 1)
            (items_left items.old ≡ 0) }
        ensures rest { items.new ≡ with_items_left (items_left items.old - 1) items.old }
    {
        self.stays_within();
        if items.remaining == 0 {
            return false;
        }
        items.remaining -= 1;
        true
    }

    /// How many elements are not yet begun.
    pub fn remaining(&self, items: &Items) -> usize
        ensures { result ≡ items_left items.now }
    {
        items.remaining
    }

    /// The smaller of the number of elements not yet begun and the bytes left in the section.
    pub fn hint(&self, items: &Items) -> usize
        ensures { result ≡ min (items_left items.now) (length self.now.section - self.now.offset) }
    {
        items
            .remaining
            .min(self.section.len().saturating_sub(self.offset))
    }

    // Goes back to the levels before a container, and to the offset after a pointer that led to it.
    #[inline(always)]
    fn leave(&mut self, after: Option<usize>, levels: u16)
        ensures { self.new
            ≡ record self.old { offset = unwrap_or after self.old.offset; levels = levels } }
    {
        self.levels = levels;
        if let Some(offset) = after {
            self.offset = offset;
        }
    }

    /// Leaves an array, of which nothing remains, for the offset after it, or after the pointer that
    /// led to it.
    pub fn end_array(&mut self, items: Items)
        requires { items_left items ≡ 0 }
        ensures { self.new ≡ left_array items self.old }
    {
        let Items {
            remaining: _,
            after,
            levels,
        } = items;
        self.leave(after, levels);
    }

    #[inline(always)]
    pub(super) fn enter_map(&mut self) -> Result<Entries, DecodeErrorKind>
        ensures { Takes (λ entries. entries) (entered_map self.old) self.old self.new result }
    {
        let at = container_at(self.section, self.offset, self.levels, MAP)?;
        let budget = spent(begun(self.budget), 2 * at.count, 0)?;
        let entries = Entries {
            remaining: at.count,
            after: at.after,
            levels: self.levels,
        };
        self.budget = budget;
        self.offset = at.body;
        self.levels = at.levels;
        Ok(entries)
    }

    /// Enters a map, and charges its keys and values.
    #[inline(always)]
    pub fn begin_map(&mut self, alloc: Global) -> DecodeResult<Entries>
        ensures { Reads (λ entries. entries) true (entered_map self.old) self.old self.new result }
    {
        match self.enter_map() {
            Ok(entries) => Ok(entries),
            Err(fault) => Err(fault.to_error(alloc, self.offset)),
        }
    }

    /// Leaves a map, of which nothing remains, for the offset after it, or after the pointer that led
    /// to it.
    pub fn end_map(&mut self, entries: Entries)
        requires { pairs_left entries ≡ 0 }
        ensures { self.new ≡ left_map entries self.old }
    {
        let Entries {
            remaining: _,
            after,
            levels,
        } = entries;
        self.leave(after, levels);
    }
}

impl Items {
    /// Gives an array up: the levels are those before it, offset and charges stay.
    pub fn give_up(self, d: &mut Decoder<'_>)
        ensures { d.new ≡ record d.old { levels = levels_before_array self } }
    {
        let Items {
            remaining: _,
            after: _,
            levels,
        } = self;
        d.leave(None, levels);
    }
}

impl Entries {
    /// How many pairs are not yet begun.
    #[inline(always)]
    pub fn left(&self) -> usize
        ensures { result ≡ pairs_left self.now }
    {
        self.remaining
    }

    /// Gives a map up: the levels are those before it, offset and charges stay.
    pub fn give_up(self, d: &mut Decoder<'_>)
        ensures { d.new ≡ record d.old { levels = levels_before_map self } }
    {
        let Entries {
            remaining: _,
            after: _,
            levels,
        } = self;
        d.leave(None, levels);
    }
}
