//! Passing a value without reading it.
ghost use Rattle.std.specs.Prelude.{◌≡◌, ℕ, ◌<◌, ◌≤◌, ◌^◌, true, Some, IfSome};
ghost use Rattle.mmdb_decode.specs.Scalars.{free_of_charge};
ghost use Rattle.mmdb_decode.specs.Skipping.{skip_within, skip_at, parts_of as spec_parts_of};
ghost use Rattle.mmdb_decode.specs.Working.{scalar_passed, entered_inline, PassesTo};
ghost use Rattle.mmdb_decode.specs.Errors.{Takes, TakesValue, ReadsUnderBudget};

use super::Decoder;
use crate::budget::spent;
use mmdb_format::content::passed_end;
use mmdb_format::decode_error_kind::DecodeErrorKind;
use mmdb_format::error::DecodeResult;
use mmdb_format::header::Header;
use mmdb_format::kind::{ARRAY, MAP};
use std::alloc::Global;

/// At most this many containers nest in a value that is skipped.
pub(super) const MAX_NESTED: u16 = 128;

impl<'de> Decoder<'de> {
    /// Passes one inline value. A container's parts are charged; pointers are not followed, and texts
    /// neither tested for UTF-8 nor charged.
    pub fn skip_value(&mut self, alloc: Global) -> DecodeResult<()>
        ensures { ReadsUnderBudget (λ x. tt) true skip_at self.old self.new result }
    {
        self.begin_budget();
        if let Err(fault) = self.pass(MAX_NESTED) {
            return Err(fault.to_error(alloc, self.offset));
        }
        Ok(())
    }

    // Passes a scalar or a pointer whose header is at the offset.
    fn pass_scalar(&mut self, header: Header) -> Result<(), DecodeErrorKind>
        requires { header.kind ≡ 1 → header.size < 32 }
        ensures { Takes (λ x. tt) (scalar_passed self.old header) self.old self.new result }
    {
        self.offset = passed_end(self.section, header)?;
        Ok(())
    }

    // Goes to the first part of a container that is passed, on the same level.
    fn enter_inline(&mut self, header: Header, parts: usize) -> Result<(), DecodeErrorKind>
        requires { parts < 2 ^ 26 }
        ensures { Takes (λ x. tt) (entered_inline self.old header parts) self.old self.new result }
    {
        self.budget = spent(self.budget, parts, 0)?;
        self.offset = header.body;
        Ok(())
    }

    // Passes one inline value. A short one, as most are that a path passes, is passed here.
    #[inline(always)]
    pub(super) fn pass_value(&mut self) -> Result<(), DecodeErrorKind>
        ensures { TakesValue (λ x. tt) skip_at self.old self.new result }
    {
        self.stays_within();
        match short_end(self.section, self.offset) {
            Some(next) => {
                self.offset = next;
                Ok(())
            }
            None => self.pass(MAX_NESTED),
        }
    }

    // Passes short inline values, at most `count`, and says how many are left: none, or the next one is not short.
    #[inline(always)]
    fn pass_short(&mut self, count: usize) -> usize
        ensures passed { PassesTo count result self.old self.new }
        ensures fewer { result ≤ count }
    {
        self.stays_within();
        let mut offset = self.offset;
        let mut left = count;
        while left > 0 {
            let Some(next) = short_end(self.section, offset) else {
                break;
            };
            offset = next;
            left -= 1;
        }
        self.offset = offset;
        left
    }

    // Passes one inline value, whose containers nest at most so deep.
    pub(super) fn pass(&mut self, nested: u16) -> Result<(), DecodeErrorKind>
        ensures { TakesValue (λ x. tt) (skip_within nested) self.old self.new result }
    {
        self.stays_within();
        let header = self.header_here()?;
        let Some(parts) = parts_of(header) else {
            return self.pass_scalar(header);
        };
        if nested == 0 {
            return Err(DecodeErrorKind::TooDeep);
        }
        self.enter_inline(header, parts)?;
        let mut left = self.pass_short(parts);
        while left > 0 {
            self.pass(nested - 1)?;
            left = self.pass_short(left - 1);
        }
        self.stays_within();
        Ok(())
    }
}

// The offset after an inline value that most are that are passed: a pointer, a text or a number of 32 bits whose header is
// its control byte alone. None for others.
#[inline(always)]
fn short_end(section: &[u8], offset: usize) -> Option<usize>
    ensures { IfSome result (λ next. (nested levels : ℕ)
        → skip_within nested section.now offset levels ≡ Some (free_of_charge (tt, next))) }
{
    let control = usize::from(*section.get(offset)?);
    let size = control % 32;
    let len = match control / 32 {
        1 => size / 8 + 1,
        2 if size <= 28 => size,
        6 if size <= 4 => size,
        _ => return None,
    };
    if len < section.len() - offset {
        Some(offset + 1 + len)
    } else {
        None
    }
}

// How many parts a container has.
#[tactic(auto, unfolding(crate::specs::Skipping::parts_of))]
pub(super) fn parts_of(header: Header) -> Option<usize>
    requires { header.size < 2 ^ 25 }
    ensures value { result ≡ spec_parts_of header }
    ensures bound { IfSome result (λ n. n < 2 ^ 26) }
{
    match header.kind {
        MAP => Some(2 * header.size),
        ARRAY => Some(header.size),
        _ => None,
    }
}
