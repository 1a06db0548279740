//! Readings that keep aside why they fail, so that a loop over many values holds no memory for an error.
ghost use Rattle.std.specs.Prelude.{◌≡◌, ℕ, true, false, Some, IfSome, IsSome, IfOk, ◌≤ℤ◌};
ghost use Rattle.mmdb_decode.specs.Errors.{Takes, TakesValue, TakesUnderBudget};
ghost use Rattle.mmdb_decode.specs.Scalars.{u16_at, u32_at, bool_at, double_at, text_at, free_of_charge};
ghost use Rattle.mmdb_decode.specs.Maps.{name_at, entered_map, NextKey, pairs_left, with_pairs_left};
ghost use Rattle.mmdb_decode.specs.SmallNumbers.{small_at, whole_at};
ghost use Rattle.mmdb_decode.specs.Arrays.{entered_array};
ghost use Rattle.mmdb_decode.specs.Skipping.{skip_at};
ghost use Rattle.mmdb_decode.specs.Repeats.{Repeats};

use super::Decoder;
use super::keys::FREE_NAME;
use super::skipping::{MAX_NESTED, parts_of};
use crate::budget::{Charges, spent};
use crate::failed::{Failed, Step};
use crate::items::{Entries, Items};
use mmdb_format::content::{Double, passed_end};
use mmdb_format::decode_error_kind::DecodeErrorKind;
use mmdb_format::header::header_at;
use mmdb_format::kind::{DOUBLE, U16, U32};

impl<'de> Decoder<'de> {
    // Another decoder at the same offset.
    #[inline(always)]
    pub(crate) fn again(&self) -> Decoder<'de>
        ensures { result ≡ self.now }
    {
        Decoder {
            section: self.section,
            offset: self.offset,
            levels: self.levels,
            budget: self.budget,
            step: Step::Name,
            repeated: self.section,
        }
    }

    // Goes to where another decoder of the section is.
    #[inline(always)]
    pub(crate) fn go_to(&mut self, there: &Decoder<'de>)
        requires { there.now.section ≡ self.old.section }
        ensures { self.new ≡ there.now }
    {
        there.stays_within();
        self.offset = there.offset;
        self.levels = there.levels;
        self.budget = there.budget;
    }

    /// Goes from where a decoder of the section was to where it is that read on from there, and charges what was
    /// charged between. It says whether it did; else it stays.
    #[inline(always)]
    pub fn repeat(&mut self, before: &Decoder<'de>, behind: &Decoder<'de>) -> bool
        ensures ok { result ≡ true → Repeats before.now behind.now self.old self.new }
        ensures same { result ≡ false → self.new ≡ self.old }
    {
        self.stays_within();
        if self.offset != before.offset || self.levels != before.levels {
            return false;
        }
        let (Some(first), Some(last)) = (before.budget, behind.budget) else {
            return false;
        };
        let values = last.values.saturating_sub(first.values) as usize;
        let bytes = last.bytes.saturating_sub(first.bytes) as usize;
        match spent(self.budget, values, bytes) {
            Ok(budget) => {
                self.budget = budget;
                self.offset = behind.offset;
                true
            }
            Err(_) => false,
        }
    }

    /// The number of 16 bits that is read.
    #[inline(always)]
    pub fn try_u16(&mut self) -> Result<u16, Failed>
        ensures { TakesValue (λ n. n) u16_at self.old self.new result }
    {
        match self.take_number(U16, 2) {
            Ok(n) => Ok(n as u16),
            Err(_) => Err(self.fail(Step::U16)),
        }
    }

    /// The number of 32 bits that is read.
    #[inline(always)]
    pub fn try_u32(&mut self) -> Result<u32, Failed>
        ensures { TakesValue (λ n. n) u32_at self.old self.new result }
    {
        match self.take_number(U32, 4) {
            Ok(n) => Ok(n as u32),
            Err(_) => Err(self.fail(Step::U32)),
        }
    }

    /// The truth value that is read.
    #[inline(always)]
    pub fn try_bool(&mut self) -> Result<bool, Failed>
        ensures { TakesValue (λ b. b) bool_at self.old self.new result }
    {
        match self.take_bool() {
            Ok(b) => Ok(b),
            Err(_) => Err(self.fail(Step::Bool)),
        }
    }

    /// The number of double precision that is read.
    #[inline(always)]
    pub fn try_double(&mut self) -> Result<Double, Failed>
        ensures { TakesValue (λ x. x.bits) double_at self.old self.new result }
    {
        match self.take_bits(DOUBLE, 8) {
            Ok(bits) => Ok(Double { bits: bits as u64 }),
            Err(_) => Err(self.fail(Step::Double)),
        }
    }

    /// The text that is read.
    #[inline(always)]
    pub fn try_str(&mut self) -> Result<&'de str, Failed>
        ensures { TakesValue (λ x. x.now) text_at self.old self.new result }
    {
        match self.take_text() {
            Ok(text) => Ok(text),
            Err(fault) => Err(self.fail(step_of(Step::Text, fault))),
        }
    }

    /// The name of the next field, where one is left.
    #[inline(always)]
    pub fn try_next(&mut self, entries: &mut Entries) -> Result<Option<&'de [u8]>, Failed>
        ensures key { NextKey name_at self.old self.new entries.old entries.new result }
        ensures rest { entries.new ≡ with_pairs_left (pairs_left entries.new) entries.old }
    {
        match self.step_key(entries, FREE_NAME) {
            Ok(key) => Ok(key),
            Err(_) => Err(self.fail(Step::Name)),
        }
    }

    // An integer of whatever type.
    fn try_whole(&mut self) -> Result<i128, Failed>
        ensures { TakesUnderBudget (λ z. z) whole_at self.old self.new result }
    {
        match self.take_whole() {
            Ok(number) => Ok(number),
            Err(_) => Err(self.fail(Step::Whole)),
        }
    }

    /// An integer of whatever type from low to high.
    pub fn try_between(&mut self, low: i128, high: i128) -> Result<i128, Failed>
        ensures read { TakesUnderBudget (λ z. z) (small_at low high) self.old self.new result }
        ensures low { IfOk result (λ z. low ≤ℤ z) }
        ensures high { IfOk result (λ z. z ≤ℤ high) }
    {
        let number = self.try_whole()?;
        if low <= number && number <= high {
            return Ok(number);
        }
        Err(self.fail(Step::Range))
    }

    /// Enters an array, and charges its elements.
    pub fn try_array(&mut self) -> Result<Items, Failed>
        ensures { Takes (λ items. items) (entered_array self.old) self.old self.new result }
    {
        match self.enter_array() {
            Ok(items) => Ok(items),
            Err(_) => Err(self.fail(Step::Array)),
        }
    }

    /// The map that is entered.
    #[inline(always)]
    pub fn try_map(&mut self) -> Result<Entries, Failed>
        ensures { Takes (λ entries. entries) (entered_map self.old) self.old self.new result }
    {
        match self.enter_map() {
            Ok(entries) => Ok(entries),
            Err(_) => Err(self.fail(Step::Map)),
        }
    }

    /// Passes one inline value as `skip_value` does.
    #[inline(never)]
    pub fn try_skip(&mut self) -> Result<(), Failed>
        ensures { TakesUnderBudget (λ x. tt) skip_at self.old self.new result }
    {
        self.begin_budget();
        match self.pass(MAX_NESTED) {
            Ok(()) => Ok(()),
            Err(fault) => Err(self.fail(step_of(Step::Skip, fault))),
        }
    }

    /// Passes one inline value as `try_skip` does. It is for a reader that mostly meets values that hold no others:
    /// its decoder can stay in registers.
    #[inline(always)]
    pub fn try_skip_scalar(&mut self) -> Result<(), Failed>
        requires { IsSome self.old.budget }
        ensures { TakesUnderBudget (λ x. tt) skip_at self.old self.new result }
    {
        self.stays_within();
        match passed_scalar(self.section, self.offset) {
            Some(next) => {
                self.offset = next;
                Ok(())
            }
            None => {
                let mut here = self.again();
                let passed = here.try_skip();
                let Some(charges) = here.budget else {
                    unreachable!();
                };
                *self = here;
                self.budget = Some(Charges {
                    values: charges.values,
                    bytes: charges.bytes,
                });
                passed
            }
        }
    }
}

// The step that fails for a fault: one that is found after the offset where the step began is reported by itself.
pub(super) fn step_of(step: Step, fault: DecodeErrorKind) -> Step {
    match fault {
        DecodeErrorKind::InvalidUtf8 => Step::Encoding,
        DecodeErrorKind::TooDeep => Step::Nested,
        _ => step,
    }
}

// The offset after an inline value that holds no others.
#[inline(never)]
fn passed_scalar(section: &[u8], offset: usize) -> Option<usize>
    ensures { IfSome result (λ next. (levels : ℕ)
        → skip_at section.now offset levels ≡ Some (free_of_charge (tt, next))) }
{
    let Ok(header) = header_at(section, offset) else {
        return None;
    };
    let None = parts_of(header) else {
        return None;
    };
    match passed_end(section, header) {
        Ok(next) => Some(next),
        Err(_) => None,
    }
}
