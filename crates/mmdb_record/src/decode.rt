//! What can be decoded.
ghost use Rattle.std.specs.Prelude.{◌≡◌, ◌≤ℤ◌, ℕ, ℤ, pos, neg_ℤ, List, Option, Some, Bool, true, false, IfOk, IfErr, OnOk, OnErr, IsSome, map, option_map};
ghost use Rattle.std.specs.String.{string_bytes};
ghost use Rattle.mmdb_decode.specs.Reading.{Meaning, mapped};
ghost use Rattle.mmdb_decode.specs.State.{State, GivenUp};
ghost use Rattle.mmdb_decode.specs.Scalars.{u16_at, u32_at, u64_at, u128_at, i32_at, bool_at, double_at, float_at, text_at, byte_string_at};
ghost use Rattle.mmdb_decode.specs.SmallNumbers.{small_at};
ghost use Rattle.mmdb_decode.specs.Arrays.{list_at, elements_left, with_items_left};
ghost use Rattle.mmdb_decode.specs.Errors.{IsRead, FailsToRead, Kept, ReadsUnderBudget};

use mmdb_decode::decoder::Decoder;
use mmdb_decode::items::Items;
use mmdb_format::content::{Double, Float};
use mmdb_format::decode_error_kind::DecodeErrorKind;
use mmdb_format::error::{DecodeResult, MaxMindDbError};
use std::alloc::Global;

/// A type that can be decoded. A type of one's own says by its ghost items what is there, and is read by the types that
/// it is made of:
///
///     impl<'de> Decode<'de> for SystemNumber {
///         ghost Datum = { ℕ };
///
///         ghost datum = { λ v. v.0 };
///
///         ghost meaning = { u32_at };
///
///         ghost starts = { false };
///
///         ghost free = { true };
///
///         fn decode(alloc: Global, d: &mut Decoder<'de>) -> DecodeResult<SystemNumber> {
///             Ok(SystemNumber(u32::decode(alloc, d)?))
///         }
///     }
pub trait Decode<'de>: Sized + Drop {
    /// What its values say, apart from where they lie in memory.
    ghost Datum: { Type 0 };

    ghost datum: { Self → Datum };

    /// What is in a section at an offset, below this many levels.
    ghost meaning: { Meaning Datum };

    /// Whether a reading at the start begins a budget.
    ghost starts: { Bool };

    /// Whether a success takes no memory.
    ghost free: { Bool };

    /// Whether the meaning is exact. Otherwise only `also` is known, and of Ok alone.
    ghost exact: { Bool } = { true };

    /// A relation of the type's own between the decoder before, the value and the decoder then.
    ghost also: { State → Self → State → Type 0 } = { λ _ _ _. Unit {0} };

    fn decode(alloc: Global, d: &mut Decoder<'de>) -> DecodeResult<Self>
        ensures ok { IfOk result (λ v. exact ≡ true → IsRead starts meaning d.old (datum v) d.new) }
        ensures also { IfOk result (λ v. also d.old v d.new) }
        ensures kept { OnOk result (Kept d.old d.new) }
        ensures err { IfErr result (λ e. exact ≡ true → FailsToRead free e starts meaning d.old) }
        ensures given_up { OnErr result (GivenUp d.old d.new) };
}

impl<'de> Decode<'de> for u16 {
    ghost Datum = { ℕ };

    ghost datum = { λ v. v };

    ghost meaning = { u16_at };

    ghost starts = { false };

    ghost free = { true };

    #[inline(always)]
    fn decode(alloc: Global, d: &mut Decoder<'de>) -> DecodeResult<u16> {
        d.read_u16(alloc)
    }
}

impl<'de> Decode<'de> for u32 {
    ghost Datum = { ℕ };

    ghost datum = { λ v. v };

    ghost meaning = { u32_at };

    ghost starts = { false };

    ghost free = { true };

    #[inline(always)]
    fn decode(alloc: Global, d: &mut Decoder<'de>) -> DecodeResult<u32> {
        d.read_u32(alloc)
    }
}

impl<'de> Decode<'de> for u64 {
    ghost Datum = { ℕ };

    ghost datum = { λ v. v };

    ghost meaning = { u64_at };

    ghost starts = { false };

    ghost free = { true };

    #[inline(always)]
    fn decode(alloc: Global, d: &mut Decoder<'de>) -> DecodeResult<u64> {
        d.read_u64(alloc)
    }
}

impl<'de> Decode<'de> for u128 {
    ghost Datum = { ℕ };

    ghost datum = { λ v. v };

    ghost meaning = { u128_at };

    ghost starts = { false };

    ghost free = { true };

    #[inline(always)]
    fn decode(alloc: Global, d: &mut Decoder<'de>) -> DecodeResult<u128> {
        d.read_u128(alloc)
    }
}

impl<'de> Decode<'de> for i32 {
    ghost Datum = { ℤ };

    ghost datum = { λ v. v };

    ghost meaning = { i32_at };

    ghost starts = { false };

    ghost free = { true };

    #[inline(always)]
    fn decode(alloc: Global, d: &mut Decoder<'de>) -> DecodeResult<i32> {
        d.read_i32(alloc)
    }
}

impl<'de> Decode<'de> for bool {
    ghost Datum = { Bool };

    ghost datum = { λ v. v };

    ghost meaning = { bool_at };

    ghost starts = { false };

    ghost free = { true };

    #[inline(always)]
    fn decode(alloc: Global, d: &mut Decoder<'de>) -> DecodeResult<bool> {
        d.read_bool(alloc)
    }
}

impl<'de> Decode<'de> for Double {
    ghost Datum = { ℕ };

    ghost datum = { λ v. v.bits };

    ghost meaning = { double_at };

    ghost starts = { false };

    ghost free = { true };

    #[inline(always)]
    fn decode(alloc: Global, d: &mut Decoder<'de>) -> DecodeResult<Double> {
        d.read_double(alloc)
    }
}

impl<'de> Decode<'de> for Float {
    ghost Datum = { ℕ };

    ghost datum = { λ v. v.bits };

    ghost meaning = { float_at };

    ghost starts = { false };

    ghost free = { true };

    #[inline(always)]
    fn decode(alloc: Global, d: &mut Decoder<'de>) -> DecodeResult<Float> {
        d.read_float(alloc)
    }
}

// A small number from low to high.
fn read_between<'de>(
    alloc: Global,
    d: &mut Decoder<'de>,
    low: i128,
    high: i128,
) -> DecodeResult<i128>
    ensures read { ReadsUnderBudget (λ z. z) true (small_at low high) d.old d.new result }
    ensures low { IfOk result (λ z. low ≤ℤ z) }
    ensures high { IfOk result (λ z. z ≤ℤ high) }
{
    let number = d.read_small(alloc)?;
    if low <= number && number <= high {
        return Ok(number);
    }
    Err(DecodeErrorKind::OutOfRange.to_error(alloc, d.offset()))
}

impl<'de> Decode<'de> for u8 {
    ghost Datum = { ℤ };

    ghost datum = { λ v. pos v };

    ghost meaning = { small_at (pos 0) (pos 255) };

    ghost starts = { true };

    ghost free = { true };

    fn decode(alloc: Global, d: &mut Decoder<'de>) -> DecodeResult<u8> {
        Ok(read_between(alloc, d, 0, 255)? as u8)
    }
}

impl<'de> Decode<'de> for i8 {
    ghost Datum = { ℤ };

    ghost datum = { λ v. v };

    ghost meaning = { small_at (neg_ℤ (pos 128)) (pos 127) };

    ghost starts = { true };

    ghost free = { true };

    fn decode(alloc: Global, d: &mut Decoder<'de>) -> DecodeResult<i8> {
        Ok(read_between(alloc, d, -128, 127)? as i8)
    }
}

impl<'de> Decode<'de> for i16 {
    ghost Datum = { ℤ };

    ghost datum = { λ v. v };

    ghost meaning = { small_at (neg_ℤ (pos 32768)) (pos 32767) };

    ghost starts = { true };

    ghost free = { true };

    fn decode(alloc: Global, d: &mut Decoder<'de>) -> DecodeResult<i16> {
        Ok(read_between(alloc, d, -32_768, 32_767)? as i16)
    }
}

impl<'de> Decode<'de> for i64 {
    ghost Datum = { ℤ };

    ghost datum = { λ v. v };

    ghost meaning = { small_at (neg_ℤ (pos 9223372036854775808)) (pos 9223372036854775807) };

    ghost starts = { true };

    ghost free = { true };

    fn decode(alloc: Global, d: &mut Decoder<'de>) -> DecodeResult<i64> {
        Ok(read_between(
            alloc,
            d,
            -9_223_372_036_854_775_808,
            9_223_372_036_854_775_807,
        )? as i64)
    }
}

impl<'de> Decode<'de> for &'de str {
    ghost Datum = { List ℕ };

    ghost datum = { λ v. v.now };

    ghost meaning = { text_at };

    ghost starts = { false };

    ghost free = { true };

    #[inline(always)]
    fn decode(alloc: Global, d: &mut Decoder<'de>) -> DecodeResult<&'de str> {
        d.read_str(alloc)
    }
}

impl<'de> Decode<'de> for String {
    ghost Datum = { List ℕ };

    ghost datum = { string_bytes };

    ghost meaning = { text_at };

    ghost starts = { false };

    ghost free = { false };

    fn decode(alloc: Global, d: &mut Decoder<'de>) -> DecodeResult<String> {
        let text = d.read_str(alloc)?;
        Ok(String::from_str(alloc, text)?)
    }
}

impl<'de> Decode<'de> for &'de [u8] {
    ghost Datum = { List ℕ };

    ghost datum = { λ v. v.now };

    ghost meaning = { byte_string_at };

    ghost starts = { false };

    ghost free = { true };

    fn decode(alloc: Global, d: &mut Decoder<'de>) -> DecodeResult<&'de [u8]> {
        d.read_bytes(alloc)
    }
}

/// A byte string of one's own.
#[derive(Debug, Drop, PartialEq, Eq)]
pub struct OwnedBytes(pub Vec<u8>);

impl<'de> Decode<'de> for OwnedBytes {
    ghost Datum = { List ℕ };

    ghost datum = { λ v. v.0.items };

    ghost meaning = { byte_string_at };

    ghost starts = { false };

    ghost free = { false };

    fn decode(alloc: Global, d: &mut Decoder<'de>) -> DecodeResult<OwnedBytes> {
        let bytes = d.read_bytes(alloc)?;
        Ok(OwnedBytes(Vec::from_slice(alloc, bytes)?))
    }
}

impl<'de, T: Decode<'de>> Decode<'de> for Option<T> {
    ghost Datum = { Option T.Datum };

    ghost datum = { option_map T.datum };

    ghost meaning = { mapped Some T.meaning };

    ghost starts = { T.starts };

    ghost free = { T.free };

    ghost exact = { T.exact };

    fn decode(alloc: Global, d: &mut Decoder<'de>) -> DecodeResult<Option<T>> {
        Ok(Some(T::decode(alloc, d)?))
    }
}

/// Reads the elements that are left of an array.
pub fn read_items<'de, T: Decode<'de>>(
    alloc: Global,
    d: &mut Decoder<'de>,
    items: &mut Items,
) -> DecodeResult<Vec<T>>
    requires { IsSome d.old.budget }
    ensures ok { IfOk result (λ v. T.exact ≡ true
        → IsRead false (elements_left T.meaning items.old) d.old (map T.datum v.items) d.new) }
    ensures spent { OnOk result (items.new ≡ with_items_left 0 items.old) }
    ensures kept { OnOk result (Kept d.old d.new) }
    ensures err { IfErr result (λ e. T.exact ≡ true
        → FailsToRead false e false (elements_left T.meaning items.old) d.old) }
    ensures given_up { OnErr result (GivenUp d.old d.new) }
{
    let mut out = Vec::new(alloc);
    while d.next_item(items) {
        out.push(T::decode(alloc, d)?)?;
    }
    Ok(out)
}

impl<'de, T: Decode<'de>> Decode<'de> for Vec<T> {
    ghost Datum = { List T.Datum };

    ghost datum = { λ v. map T.datum v.items };

    ghost meaning = { list_at T.meaning };

    ghost starts = { true };

    ghost free = { false };

    ghost exact = { T.exact };

    fn decode(alloc: Global, d: &mut Decoder<'de>) -> DecodeResult<Vec<T>> {
        let mut items = d.begin_array(alloc)?;
        match read_items(alloc, d, &mut items) {
            Ok(out) => {
                d.end_array(items);
                Ok(out)
            }
            Err(e) => {
                items.give_up(d);
                Err(e)
            }
        }
    }
}
