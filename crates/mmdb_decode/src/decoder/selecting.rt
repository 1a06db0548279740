//! Steps of a path: from a map or an array to one of its values.
ghost use Rattle.std.specs.Prelude.{◌≡◌, Option, Some, None, Bool, true, false, is_some};
ghost use Rattle.std.specs.Result.{result_ok};
ghost use Rattle.mmdb_decode.specs.Arrays.{entered_array};
ghost use Rattle.mmdb_decode.specs.Maps.{pairs_left, with_pairs_left, entered_map};
ghost use Rattle.mmdb_decode.specs.Errors.{TakesValue, TakesUnderBudget};
ghost use Rattle.mmdb_decode.specs.Selecting.{to_key as spec_to_key, to_element as spec_to_element, from_front, from_end, at_key, at_element, type_number_at, is_other_than_map as spec_is_other_than_map, is_other_than_array as spec_is_other_than_array};
ghost use Rattle.mmdb_decode.specs.Skipping.{passes, skip_at};

use super::Decoder;
use crate::detours::{forget_array, forget_map};
use crate::items::Entries;
use crate::names::named;
use mmdb_format::decode_error_kind::DecodeErrorKind;
use mmdb_format::header::direct_at;
use mmdb_format::kind::{ARRAY, MAP};

/// The largest type number that a type can have.
const MAX_TYPE_NUMBER: u16 = 255;

impl<'de> Decoder<'de> {
    /// Goes to the value of the first pair of the map at the offset whose key has these bytes, on the same
    /// level, and says whether there is one. Takes no memory.
    ///
    /// The map's keys and values are charged, and the bytes of each key up to that one; the values before
    /// it are skipped. Fails where no map is there, directly or through one pointer.
    #[inline(always)]
    pub fn go_to_key(&mut self, key: &str) -> Result<bool, DecodeErrorKind>
        ensures { TakesUnderBudget (λ b. b) (at_key key.now) self.old self.new result }
    {
        let mut entries = self.enter_map()?;
        let found = self.to_key(&mut entries, key);
        entries.give_up(self);
        found
    }

    /// Goes to an element of the array at the offset, counted from its front, on the same level, and says
    /// whether there is one. Takes no memory.
    ///
    /// The array's elements are charged; those before that one are skipped, where it is there. Rejected
    /// where no array is there, directly or through one pointer.
    #[inline(always)]
    pub fn go_to_index(&mut self, index: usize) -> Result<bool, DecodeErrorKind>
        ensures { TakesUnderBudget (λ b. b) (at_element (from_front index))
            self.old self.new result }
    {
        let items = self.enter_array()?;
        let found = self.to_element(front_place(index, items.remaining));
        items.give_up(self);
        found
    }

    /// Goes to an element of the array at the offset as `go_to_index` does, counted from the array's end: 0 is the
    /// last element.
    #[inline(always)]
    pub fn go_to_index_from_end(&mut self, index: usize) -> Result<bool, DecodeErrorKind>
        ensures { TakesUnderBudget (λ b. b) (at_element (from_end index))
            self.old self.new result }
    {
        let items = self.enter_array()?;
        let found = self.to_element(end_place(index, items.remaining));
        items.give_up(self);
        found
    }

    /// Whether a value of another type than a map is at the offset, directly or through one pointer: one to which
    /// `go_to_key` can't go. A type number above 255 is none that a type can have, and an array is entered within the
    /// limits.
    pub fn is_other_than_map(&self) -> bool
        ensures { result ≡ spec_is_other_than_map self.now }
    {
        match self.type_number() {
            Some(ARRAY) => self.enters_array(),
            Some(MAP) | None => false,
            Some(number) => number <= MAX_TYPE_NUMBER,
        }
    }

    /// Whether a value of another type than an array is at the offset, directly or through one pointer: one to which
    /// `go_to_index` can't go. A type number above 255 is none that a type can have, and a map is entered within the
    /// limits.
    pub fn is_other_than_array(&self) -> bool
        ensures { result ≡ spec_is_other_than_array self.now }
    {
        match self.type_number() {
            Some(MAP) => self.enters_map(),
            Some(ARRAY) | None => false,
            Some(number) => number <= MAX_TYPE_NUMBER,
        }
    }

    // The type number of the value at the offset, or through one pointer there.
    #[tactic(auto, unfolding(crate::specs::Selecting::type_number_at))]
    fn type_number(&self) -> Option<u16>
        ensures { result ≡ type_number_at self.now.section self.now.offset }
    {
        match direct_at(self.section, self.offset, 0) {
            Ok(at) => Some(at.header.kind),
            Err(_) => None,
        }
    }

    // Whether the array at the offset can be entered.
    fn enters_array(&self) -> bool
        ensures { result ≡ is_some (entered_array self.now) }
    {
        match self.again().enter_array() {
            Ok(items) => {
                forget_array(items);
                true
            }
            Err(_) => false,
        }
    }

    // Whether the map at the offset can be entered.
    fn enters_map(&self) -> bool
        ensures { result ≡ is_some (entered_map self.now) }
    {
        match self.again().enter_map() {
            Ok(entries) => {
                forget_map(entries);
                true
            }
            Err(_) => false,
        }
    }

    // Goes to the value of the first pair left whose key has these bytes.
    #[inline(always)]
    fn to_key(&mut self, entries: &mut Entries, key: &str) -> Result<bool, DecodeErrorKind>
        ensures found { TakesValue (λ b. b) (spec_to_key key.now (pairs_left entries.old))
            self.old self.new result }
        ensures rest { entries.new ≡ with_pairs_left (pairs_left entries.new) entries.old }
    {
        while let Some(name) = self.step_key(entries, 0)? {
            if named(name, key) {
                self.stays_within();
                return Ok(true);
            }
            self.pass_value()?;
        }
        Ok(false)
    }

    // Goes to the element before which `before` others come.
    #[inline(always)]
    fn to_element(&mut self, before: Option<usize>) -> Result<bool, DecodeErrorKind>
        ensures { TakesValue (λ b. b) (spec_to_element before) self.old self.new result }
    {
        let Some(before) = before else {
            self.stays_within();
            return Ok(false);
        };
        self.pass_all(before)?;
        Ok(true)
    }

    // Passes `count` values.
    fn pass_all(&mut self, count: usize) -> Result<(), DecodeErrorKind>
        ensures { TakesValue (λ x. tt) (passes skip_at count) self.old self.new result }
    {
        for _ in 0..count {
            self.pass_value()?;
        }
        self.stays_within();
        Ok(())
    }
}

// How many of the elements come before the one that is counted from the front.
#[inline(always)]
fn front_place(index: usize, count: usize) -> Option<usize>
    ensures { result ≡ from_front index count }
{
    if index < count { Some(index) } else { None }
}

// How many of the elements come before the one that is counted from the end.
#[inline(always)]
fn end_place(index: usize, count: usize) -> Option<usize>
    ensures { result ≡ from_end index count }
{
    if index < count {
        Some(count - 1 - index)
    } else {
        None
    }
}
