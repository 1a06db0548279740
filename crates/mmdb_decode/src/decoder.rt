//! The decoder: an offset in a section, with the levels and the budget.
ghost use Rattle.std.specs.Prelude.{◌≡◌, ◌<◌, ◌^◌, true, IfOk, None};
ghost use Rattle.std.specs.Result.{result_ok};
ghost use Rattle.mmdb_format.specs.Header.{header_at as spec_header_at};
ghost use Rattle.mmdb_decode.specs.State.{State, begin, begun as spec_begun, Within};
ghost use Rattle.mmdb_decode.specs.Peeking.{kind_at};

mod containers;
mod failures;
mod keys;
mod scalars;
mod selecting;
mod skipping;
mod stepping;
mod try_reads;

use crate::budget::{Charges, begun};
use crate::failed::Step;
use crate::peek::kind_of_value;
use mmdb_format::decode_error_kind::DecodeErrorKind;
use mmdb_format::error::DecodeResult;
use mmdb_format::header::{Header, header_at};
use mmdb_format::kind::Kind;
use std::alloc::Global;
use std::marker::Model;

/// Reads values of a section from an offset on.
///
/// After an error it is given up: its calls stay safe, and no charge was given back.
#[derive(Drop)]
pub struct Decoder<'de> {
    section: &'de [u8],
    offset: usize,
    levels: u16,
    budget: Option<Charges>,
    // What was to be read where a reading failed, and the name of a field that came a second time. No contract sees
    // them.
    step: Step,
    repeated: &'de [u8],
}

impl<'de> Model for Decoder<'de> {
    ghost use Rattle.mmdb_decode.specs.State.{State, Within};

    ghost Value = { State };

    ghost view = { λ d. record {
      section = d.section.now;
      offset = d.offset;
      levels = d.levels;
      budget = d.budget;
    } };

    ghost invariant = { λ d. Within d.budget };
}

impl<'de> Decoder<'de> {
    /// A decoder that reads a section from an offset on, at no level and under no budget.
    pub fn new(section: &'de [u8], offset: usize) -> Decoder<'de>
        ensures { result ≡ begin section.now offset }
    {
        Decoder {
            section,
            offset,
            levels: 0,
            budget: None,
            step: Step::Name,
            repeated: section,
        }
    }

    /// The offset that is read next.
    #[inline(always)]
    pub fn offset(&self) -> usize
        ensures { result ≡ self.now.offset }
    {
        self.offset
    }

    // What is charged is within the limits. It does nothing: a proof knows the decoder's invariant
    // where a field of it is read.
    #[inline(always)]
    pub(crate) fn stays_within(&self)
        ensures { Within self.now.budget }
    {
        let _ = &self.offset;
    }

    /// The type of the value at the offset, or through one pointer there. The offset stays.
    pub fn peek_kind(&mut self, alloc: Global) -> DecodeResult<Kind>
        ensures kind { result_ok result ≡ kind_at self.old.section self.old.offset }
        ensures same { self.new ≡ self.old }
    {
        match kind_of_value(self.section, self.offset) {
            Ok(kind) => Ok(kind),
            Err(fault) => Err(fault.to_error(alloc, self.offset)),
        }
    }

    /// The type of the value at the offset, or through one pointer there, as `peek_kind` reads it. No error is made.
    #[inline(always)]
    pub fn try_kind(&self) -> Option<Kind>
        ensures { result ≡ kind_at self.now.section self.now.offset }
    {
        kind_of_value(self.section, self.offset).ok()
    }

    // The header at the offset.
    #[inline(always)]
    fn header_here(&self) -> Result<Header, DecodeErrorKind>
        ensures value { result_ok result ≡ spec_header_at self.now.section self.now.offset }
        ensures bound { IfOk result (λ h. (h.size < 2 ^ 25) × (h.kind ≡ 1 → h.size < 32)) }
    {
        header_at(self.section, self.offset)
    }

    /// Begins a budget, where none has begun.
    pub fn begin_budget(&mut self)
        ensures begun { self.new ≡ record self.old { budget = spec_begun true self.old.budget } }
        ensures within { Within self.new.budget }
    {
        self.budget = begun(self.budget);
    }
}
