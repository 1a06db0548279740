//! Types whose values are read as parts of records: why a reading fails is kept aside.
ghost use Rattle.std.specs.Prelude.{◌≡◌, true, false, Some, IfOk, IfErr, OnOk, OnErr, IsSome, map, option_map};
ghost use Rattle.mmdb_decode.specs.State.{decoded, GivenUp};
ghost use Rattle.mmdb_decode.specs.Errors.{IsRead, Declines, Kept};
ghost use Rattle.mmdb_decode.specs.Arrays.{elements_left, with_items_left};
ghost use Rattle.mmdb_record.specs.TableReads.{TakesOnce};

use crate::decode::Decode;
use crate::fields::{Fields, read_into};
use mmdb_decode::decoder::Decoder;
use mmdb_decode::failed::Failed;
use mmdb_decode::items::Items;
use mmdb_format::content::Double;
use std::alloc::Global;

/// A type whose values can be read so.
pub trait TryDecode<'de>: Decode<'de> {
    /// Reads a value under a budget that has begun.
    fn try_decode(alloc: Global, d: &mut Decoder<'de>) -> Result<Self, Failed>
        requires { IsSome d.old.budget }
        ensures ok { IfOk result (λ v. IsRead Self.starts Self.meaning d.old (Self.datum v) d.new) }
        ensures err { IfErr result (λ e.
            Declines Self.free e (decoded Self.starts Self.meaning d.old)) }
        ensures given_up { OnErr result (GivenUp d.old d.new) };
}

impl<'de> TryDecode<'de> for u16 {
    #[inline(always)]
    fn try_decode(_alloc: Global, d: &mut Decoder<'de>) -> Result<u16, Failed> {
        d.try_u16()
    }
}

impl<'de> TryDecode<'de> for u32 {
    #[inline(always)]
    fn try_decode(_alloc: Global, d: &mut Decoder<'de>) -> Result<u32, Failed> {
        d.try_u32()
    }
}

impl<'de> TryDecode<'de> for bool {
    #[inline(always)]
    fn try_decode(_alloc: Global, d: &mut Decoder<'de>) -> Result<bool, Failed> {
        d.try_bool()
    }
}

impl<'de> TryDecode<'de> for Double {
    #[inline(always)]
    fn try_decode(_alloc: Global, d: &mut Decoder<'de>) -> Result<Double, Failed> {
        d.try_double()
    }
}

impl<'de> TryDecode<'de> for u8 {
    fn try_decode(_alloc: Global, d: &mut Decoder<'de>) -> Result<u8, Failed> {
        Ok(d.try_between(0, 255)? as u8)
    }
}

impl<'de> TryDecode<'de> for &'de str {
    #[inline(always)]
    fn try_decode(_alloc: Global, d: &mut Decoder<'de>) -> Result<&'de str, Failed> {
        d.try_str()
    }
}

impl<'de, R: Fields<'de>> TryDecode<'de> for R {
    fn try_decode(alloc: Global, d: &mut Decoder<'de>) -> Result<R, Failed> {
        let mut record = R::empty(alloc);
        read_into::<R, false>(alloc, d, &mut record, &mut None)?;
        Ok(record)
    }
}

/// Reads the elements that are left of an array.
pub fn try_items<'de, T: TryDecode<'de>>(
    alloc: Global,
    d: &mut Decoder<'de>,
    items: &mut Items,
) -> Result<Vec<T>, Failed>
    requires { IsSome d.old.budget }
    ensures ok { IfOk result (λ v.
        IsRead false (elements_left T.meaning items.old) d.old (map T.datum v.items) d.new) }
    ensures spent { OnOk result (items.new ≡ with_items_left 0 items.old) }
    ensures kept { OnOk result (Kept d.old d.new) }
    ensures err { IfErr result (λ e.
        Declines false e (decoded false (elements_left T.meaning items.old) d.old)) }
    ensures given_up { OnErr result (GivenUp d.old d.new) }
{
    let mut out = Vec::new(alloc);
    while d.next_item(items) {
        out.push(T::try_decode(alloc, d)?)?;
    }
    Ok(out)
}

/// Reads a field that comes at most once. One that comes again is rejected before its value is read.
#[inline(always)]
pub fn try_once<'de, T: TryDecode<'de>>(
    alloc: Global,
    d: &mut Decoder<'de>,
    name: &'de [u8],
    slot: &mut Option<T>,
) -> Result<(), Failed>
    requires { IsSome d.old.budget }
    ensures { TakesOnce T.free T.meaning (option_map T.datum slot.old)
        (option_map T.datum slot.new) d.old d.new result }
{
    if slot.is_some() {
        return Err(d.fail_repeated(name));
    }
    *slot = Some(T::try_decode(alloc, d)?);
    Ok(())
}
