//! The keys of maps.
ghost use Rattle.std.specs.Prelude.{◌≡◌, true};
ghost use Rattle.mmdb_decode.specs.Maps.{key_past, name_at, raw_key_at, key_at, NextKey, pairs_left, with_pairs_left};
ghost use Rattle.mmdb_decode.specs.Errors.{TakesValue, ReadsValue};

use super::Decoder;
use crate::budget::spent_past;
use crate::direct::text_of;
use crate::items::Entries;
use mmdb_format::content::key_bytes_at;
use mmdb_format::decode_error_kind::DecodeErrorKind;
use mmdb_format::error::DecodeResult;
use std::alloc::Global;

/// This many bytes of a field's name are free.
pub(super) const FREE_NAME: usize = 32;

impl<'de> Decoder<'de> {
    // A key, some of whose first bytes are free.
    #[inline(always)]
    pub(super) fn take_key(&mut self, free: usize) -> Result<&'de [u8], DecodeErrorKind>
        ensures { TakesValue (λ x. x.now) (key_past free) self.old self.new result }
    {
        let (key, next) = key_bytes_at(self.section, self.offset)?;
        self.budget = spent_past(self.budget, key.len(), free)?;
        self.offset = next;
        Ok(key)
    }

    // A key that is text.
    #[inline(always)]
    pub(super) fn take_text_key(&mut self) -> Result<&'de str, DecodeErrorKind>
        ensures { TakesValue (λ x. x.now) key_at self.old self.new result }
    {
        let bytes = self.take_key(0)?;
        text_of(bytes)
    }

    // The next key, where one is left.
    #[inline(always)]
    pub(super) fn step_key(
        &mut self,
        entries: &mut Entries,
        free: usize,
    ) -> Result<Option<&'de [u8]>, DecodeErrorKind>
        ensures key { NextKey (key_past free) self.old self.new entries.old entries.new result }
        ensures rest { entries.new ≡ with_pairs_left (pairs_left entries.new) entries.old }
    {
        self.stays_within();
        if entries.remaining == 0 {
            return Ok(None);
        }
        let key = self.take_key(free)?;
        entries.remaining -= 1;
        Ok(Some(key))
    }

    // The next key, where one is left: a text.
    #[inline(always)]
    fn step_text_key(&mut self, entries: &mut Entries) -> Result<Option<&'de str>, DecodeErrorKind>
        ensures key { NextKey key_at self.old self.new entries.old entries.new result }
        ensures rest { entries.new ≡ with_pairs_left (pairs_left entries.new) entries.old }
    {
        self.stays_within();
        if entries.remaining == 0 {
            return Ok(None);
        }
        let key = self.take_text_key()?;
        entries.remaining -= 1;
        Ok(Some(key))
    }

    /// The next field's name, of which the first 32 bytes are free and which is not tested for UTF-8.
    /// The caller then reads or skips one value. None where no field remains.
    #[inline(always)]
    pub fn next_field(
        &mut self,
        alloc: Global,
        entries: &mut Entries,
    ) -> DecodeResult<Option<&'de [u8]>>
        ensures key { NextKey name_at self.old self.new entries.old entries.new result }
        ensures rest { entries.new ≡ with_pairs_left (pairs_left entries.new) entries.old }
    {
        match self.step_key(entries, FREE_NAME) {
            Ok(key) => Ok(key),
            Err(fault) => Err(fault.to_error(alloc, self.offset)),
        }
    }

    /// The next key, charged in full and not tested for UTF-8. The caller then reads or skips one
    /// value. None where no pair remains.
    pub fn next_raw_key(
        &mut self,
        alloc: Global,
        entries: &mut Entries,
    ) -> DecodeResult<Option<&'de [u8]>>
        ensures key { NextKey raw_key_at self.old self.new entries.old entries.new result }
        ensures rest { entries.new ≡ with_pairs_left (pairs_left entries.new) entries.old }
    {
        match self.step_key(entries, 0) {
            Ok(key) => Ok(key),
            Err(fault) => Err(fault.to_error(alloc, self.offset)),
        }
    }

    /// The next key, which is text and charged in full. The caller then reads or skips one value.
    /// None where no pair remains.
    pub fn next_key(
        &mut self,
        alloc: Global,
        entries: &mut Entries,
    ) -> DecodeResult<Option<&'de str>>
        ensures key { NextKey key_at self.old self.new entries.old entries.new result }
        ensures rest { entries.new ≡ with_pairs_left (pairs_left entries.new) entries.old }
    {
        match self.step_text_key(entries) {
            Ok(key) => Ok(key),
            Err(fault) => Err(fault.to_error(alloc, self.offset)),
        }
    }

    /// Reads a key, charged in full and not tested for UTF-8.
    pub fn read_key(&mut self, alloc: Global) -> DecodeResult<&'de [u8]>
        ensures { ReadsValue (λ x. x.now) true raw_key_at self.old self.new result }
    {
        match self.take_key(0) {
            Ok(key) => Ok(key),
            Err(fault) => Err(fault.to_error(alloc, self.offset)),
        }
    }
}
