//! Values of one type that hold no others.
ghost use Rattle.std.specs.Prelude.{◌<◌, ◌≤◌, ◌^◌, true, IfOk};
ghost use Rattle.mmdb_decode.specs.Scalars.{number_of, bits_of, bytes_of, u16_at, u32_at, u64_at, u128_at, i32_at, bool_at as spec_bool_at, double_at, float_at, text_at, byte_string_at};
ghost use Rattle.mmdb_decode.specs.SmallNumbers.{whole_at as spec_whole_at};
ghost use Rattle.mmdb_decode.specs.Errors.{TakesValue, TakesUnderBudget, ReadsValue, ReadsUnderBudget};

use super::Decoder;
use crate::budget::{begun, spent_bytes};
use crate::direct::{bits_at, bool_at, content_bytes_at, number_at, text_of};
use crate::whole::whole_at;
use mmdb_format::content::{Double, Float};
use mmdb_format::decode_error_kind::DecodeErrorKind;
use mmdb_format::error::DecodeResult;
use mmdb_format::kind::{BYTES, DOUBLE, FLOAT, I32, TEXT, U16, U32, U64, U128};
use std::alloc::Global;

impl<'de> Decoder<'de> {
    // An integer of one type, of at most `most` bytes.
    #[inline(always)]
    pub(super) fn take_number(&mut self, wanted: u16, most: usize) -> Result<u128, DecodeErrorKind>
        requires { most ≤ 16 }
        ensures read { TakesValue (λ n. n) (number_of wanted most) self.old self.new result }
        ensures bound { IfOk result (λ n. n < 256 ^ most) }
    {
        let (n, next) = number_at(self.section, self.offset, self.levels, wanted, most)?;
        self.offset = next;
        Ok(n)
    }

    // A signed number of 32 bits.
    #[inline(always)]
    fn take_signed(&mut self) -> Result<i32, DecodeErrorKind>
        ensures { TakesValue (λ z. z) i32_at self.old self.new result }
    {
        let n = self.take_number(I32, 4)?;
        Ok((n as u32).cast_signed())
    }

    // The bits of a number of exactly `size` bytes.
    #[inline(always)]
    pub(super) fn take_bits(&mut self, wanted: u16, size: usize) -> Result<u128, DecodeErrorKind>
        requires { size ≤ 16 }
        ensures read { TakesValue (λ n. n) (bits_of wanted size) self.old self.new result }
        ensures bound { IfOk result (λ n. n < 256 ^ size) }
    {
        let (n, next) = bits_at(self.section, self.offset, self.levels, wanted, size)?;
        self.offset = next;
        Ok(n)
    }

    // A truth value.
    #[inline(always)]
    pub(super) fn take_bool(&mut self) -> Result<bool, DecodeErrorKind>
        ensures { TakesValue (λ b. b) spec_bool_at self.old self.new result }
    {
        let (b, next) = bool_at(self.section, self.offset, self.levels)?;
        self.offset = next;
        Ok(b)
    }

    // An integer of whatever type, through any number of pointers.
    pub(super) fn take_whole(&mut self) -> Result<i128, DecodeErrorKind>
        ensures { TakesUnderBudget (λ z. z) spec_whole_at self.old self.new result }
    {
        let (number, next) = whole_at(self.section, self.offset, self.levels)?;
        self.budget = begun(self.budget);
        self.offset = next;
        Ok(number)
    }

    // The bytes of a text or a byte string.
    #[inline(always)]
    fn take_bytes(&mut self, wanted: u16) -> Result<&'de [u8], DecodeErrorKind>
        ensures { TakesValue (λ x. x.now) (bytes_of wanted) self.old self.new result }
    {
        let (bytes, next) = content_bytes_at(self.section, self.offset, self.levels, wanted)?;
        self.budget = spent_bytes(self.budget, bytes.len())?;
        self.offset = next;
        Ok(bytes)
    }

    // A text.
    #[inline(always)]
    pub(super) fn take_text(&mut self) -> Result<&'de str, DecodeErrorKind>
        ensures { TakesValue (λ x. x.now) text_at self.old self.new result }
    {
        let bytes = self.take_bytes(TEXT)?;
        text_of(bytes)
    }

    /// Reads an unsigned number of 16 bits.
    #[inline(always)]
    pub fn read_u16(&mut self, alloc: Global) -> DecodeResult<u16>
        ensures { ReadsValue (λ n. n) true u16_at self.old self.new result }
    {
        match self.take_number(U16, 2) {
            Ok(n) => Ok(n as u16),
            Err(fault) => Err(fault.to_error(alloc, self.offset)),
        }
    }

    /// Reads an unsigned number of 32 bits.
    #[inline(always)]
    pub fn read_u32(&mut self, alloc: Global) -> DecodeResult<u32>
        ensures { ReadsValue (λ n. n) true u32_at self.old self.new result }
    {
        match self.take_number(U32, 4) {
            Ok(n) => Ok(n as u32),
            Err(fault) => Err(fault.to_error(alloc, self.offset)),
        }
    }

    /// Reads an unsigned number of 64 bits.
    #[inline(always)]
    pub fn read_u64(&mut self, alloc: Global) -> DecodeResult<u64>
        ensures { ReadsValue (λ n. n) true u64_at self.old self.new result }
    {
        match self.take_number(U64, 8) {
            Ok(n) => Ok(n as u64),
            Err(fault) => Err(fault.to_error(alloc, self.offset)),
        }
    }

    /// Reads an unsigned number of 128 bits.
    #[inline(always)]
    pub fn read_u128(&mut self, alloc: Global) -> DecodeResult<u128>
        ensures { ReadsValue (λ n. n) true u128_at self.old self.new result }
    {
        match self.take_number(U128, 16) {
            Ok(n) => Ok(n),
            Err(fault) => Err(fault.to_error(alloc, self.offset)),
        }
    }

    /// Reads a signed number of 32 bits.
    pub fn read_i32(&mut self, alloc: Global) -> DecodeResult<i32>
        ensures { ReadsValue (λ z. z) true i32_at self.old self.new result }
    {
        match self.take_signed() {
            Ok(n) => Ok(n),
            Err(fault) => Err(fault.to_error(alloc, self.offset)),
        }
    }

    /// Reads an integer of whatever type: an i32, u16, u32 or u64, through any number of pointers
    /// within the levels. At the start it begins a budget.
    pub fn read_small(&mut self, alloc: Global) -> DecodeResult<i128>
        ensures { ReadsUnderBudget (λ z. z) true spec_whole_at self.old self.new result }
    {
        match self.take_whole() {
            Ok(number) => Ok(number),
            Err(fault) => Err(fault.to_error(alloc, self.offset)),
        }
    }

    /// Reads a truth value.
    pub fn read_bool(&mut self, alloc: Global) -> DecodeResult<bool>
        ensures { ReadsValue (λ b. b) true spec_bool_at self.old self.new result }
    {
        match self.take_bool() {
            Ok(b) => Ok(b),
            Err(fault) => Err(fault.to_error(alloc, self.offset)),
        }
    }

    /// Reads the bits of a number of double precision.
    pub fn read_double(&mut self, alloc: Global) -> DecodeResult<Double>
        ensures { ReadsValue (λ x. x.bits) true double_at self.old self.new result }
    {
        match self.take_bits(DOUBLE, 8) {
            Ok(bits) => Ok(Double { bits: bits as u64 }),
            Err(fault) => Err(fault.to_error(alloc, self.offset)),
        }
    }

    /// Reads the bits of a number of single precision.
    pub fn read_float(&mut self, alloc: Global) -> DecodeResult<Float>
        ensures { ReadsValue (λ x. x.bits) true float_at self.old self.new result }
    {
        match self.take_bits(FLOAT, 4) {
            Ok(bits) => Ok(Float { bits: bits as u32 }),
            Err(fault) => Err(fault.to_error(alloc, self.offset)),
        }
    }

    /// Reads a byte string.
    pub fn read_bytes(&mut self, alloc: Global) -> DecodeResult<&'de [u8]>
        ensures { ReadsValue (λ x. x.now) true byte_string_at self.old self.new result }
    {
        match self.take_bytes(BYTES) {
            Ok(bytes) => Ok(bytes),
            Err(fault) => Err(fault.to_error(alloc, self.offset)),
        }
    }

    /// Reads a text, which is UTF-8.
    #[inline(always)]
    pub fn read_str(&mut self, alloc: Global) -> DecodeResult<&'de str>
        ensures { ReadsValue (λ s. s.now) true text_at self.old self.new result }
    {
        match self.take_text() {
            Ok(text) => Ok(text),
            Err(fault) => Err(fault.to_error(alloc, self.offset)),
        }
    }
}
