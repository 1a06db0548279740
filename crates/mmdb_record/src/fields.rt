//! Records that are read in place, field by field, as a table of their fields says.
ghost use Rattle.std.specs.Prelude.{◌≡◌, Bool, true, false, Some, None, IsSome, OnOk};
ghost use Rattle.mmdb_record.specs.Tables.{Table, Data, data_of, no_data, parts_met, flags, none_met, record_of};
ghost use Rattle.mmdb_record.specs.Memos.{Kept, nothing, IsKept, IsPlaceOf};
ghost use Rattle.mmdb_record.specs.TableReads.{TakesField, TakesPairs, TakesRecord, TakesPart};

use crate::decode::Decode;
use crate::memo::Place;
use mmdb_decode::decoder::Decoder;
use mmdb_decode::detours::{again, forget_map, go_to};
use mmdb_decode::failed::Failed;
use mmdb_decode::items::Entries;
use mmdb_format::error::DecodeResult;
use std::alloc::Global;

/// Which parts of a record were met, and where the one was that may be reused.
#[derive(Drop)]
pub struct FieldsSeen<'de>(
    pub bool,
    pub bool,
    pub bool,
    pub bool,
    pub bool,
    pub bool,
    pub bool,
    pub bool,
    pub bool,
    pub Option<Place<'de>>,
);

impl<'de> FieldsSeen<'de> {
    /// No part was met.
    #[inline(always)]
    pub fn none() -> FieldsSeen<'de>
        ensures none { flags result ≡ none_met }
        ensures place { result.9 ≡ None }
    {
        FieldsSeen(
            false, false, false, false, false, false, false, false, false, None,
        )
    }
}

/// A record that a table describes: its fields are optional, or parts that are records or lists of their
/// own, of which there are at most nine. Such a record can be decoded.
pub trait Fields<'de>: Sized + Drop {
    /// A row for each field: its name in the file, its shape, and where the record keeps it.
    ghost table: { Table Self };

    /// Whether a success takes no memory.
    ghost free: { Bool } = { true };

    /// The part that may be reused for another one, if there is such a part.
    ghost kept: { Kept Self } = { nothing };

    /// A record of which no field was met.
    fn empty(alloc: Global) -> Self
        ensures { data_of table result ≡ no_data table };

    /// Reads or skips the value after a name.
    fn read_field(
        &mut self,
        met: &mut FieldsSeen<'de>,
        alloc: Global,
        name: &'de [u8],
        d: &mut Decoder<'de>,
    ) -> Result<(), Failed>
        requires started { IsSome d.old.budget }
        requires kept { IsKept kept met.old self.old d.old.section }
        ensures read { TakesField free table name.now (parts_met table (flags met.old) self.old)
            (parts_met table (flags met.new) self.new) d.old d.new result }
        ensures kept { OnOk result (IsKept kept met.new self.new d.old.section) };
}

// Reads the fields that are left of a map into a record of which no field was met.
#[inline(always)]
fn read_each<'de, R: Fields<'de>>(
    alloc: Global,
    d: &mut Decoder<'de>,
    entries: &mut Entries,
    fields: &mut R,
) -> Result<(), Failed>
    requires none { data_of R.table fields.old ≡ no_data R.table }
    requires started { IsSome d.old.budget }
    ensures { TakesPairs R.free R.table fields.new d.old d.new entries.old entries.new result }
{
    let mut met = FieldsSeen::none();
    while let Some(name) = d.try_next(entries)? {
        fields.read_field(&mut met, alloc, name, d)?;
    }
    Ok(())
}

// Reads a map into a record of which no field was met, and may note where its pairs are.
#[inline(always)]
fn read_map_into<'de, R: Fields<'de>, const NOTES: bool>(
    alloc: Global,
    d: &mut Decoder<'de>,
    fields: &mut R,
    place: &mut Option<Place<'de>>,
) -> Result<(), Failed>
    requires { data_of R.table fields.old ≡ no_data R.table }
    ensures read { TakesRecord R.free R.table fields.new d.old d.new result }
    ensures noted { OnOk result (NOTES ≡ true
        → IsPlaceOf R.table place.new fields.new d.old.section) }
{
    let mut entries = d.try_map()?;
    let before = again(d);
    let count = entries.left();
    match read_each(alloc, d, &mut entries, fields) {
        Ok(()) => {
            if NOTES {
                *place = Some(Place {
                    before,
                    count,
                    behind: again(d),
                });
            }
            d.end_map(entries);
            Ok(())
        }
        Err(rejected) => {
            forget_map(entries);
            Err(rejected)
        }
    }
}

// Reads the fields of a map by a decoder of its own, which can stay in registers.
pub(crate) fn read_into<'de, R: Fields<'de>, const NOTES: bool>(
    alloc: Global,
    d: &mut Decoder<'de>,
    fields: &mut R,
    place: &mut Option<Place<'de>>,
) -> Result<(), Failed>
    requires { data_of R.table fields.old ≡ no_data R.table }
    ensures read { TakesRecord R.free R.table fields.new d.old d.new result }
    ensures noted { OnOk result (NOTES ≡ true
        → IsPlaceOf R.table place.new fields.new d.old.section) }
{
    let mut here = again(d);
    match read_map_into::<R, NOTES>(alloc, &mut here, fields, place) {
        Ok(()) => {
            go_to(d, &here);
            Ok(())
        }
        Err(rejected) => {
            *d = here;
            Err(rejected)
        }
    }
}

impl<'de, R: Fields<'de>> Decode<'de> for R {
    ghost Datum = { Data R.table };

    ghost datum = { data_of R.table };

    ghost meaning = { record_of R.table };

    ghost starts = { true };

    ghost free = { R.free };

    fn decode(alloc: Global, d: &mut Decoder<'de>) -> DecodeResult<R> {
        let mut fields = R::empty(alloc);
        match read_into::<R, false>(alloc, d, &mut fields, &mut None) {
            Ok(()) => Ok(fields),
            Err(rejected) => Err(d.error_of(alloc, rejected)),
        }
    }
}

// Reads a part that comes at most once, and may note where its pairs are.
#[inline(always)]
pub(crate) fn read_part_into<'de, R: Fields<'de>, const NOTES: bool>(
    alloc: Global,
    d: &mut Decoder<'de>,
    name: &'de [u8],
    met: &mut bool,
    part: &mut R,
    place: &mut Option<Place<'de>>,
) -> Result<(), Failed>
    requires { IsSome d.old.budget }
    ensures read { TakesPart R.free (record_of R.table) (met.old, data_of R.table part.old)
        (met.new, data_of R.table part.new) d.old d.new result }
    ensures noted { OnOk result (NOTES ≡ true
        → IsPlaceOf R.table place.new part.new d.old.section) }
{
    if *met {
        return Err(d.fail_repeated(name));
    }
    *part = R::empty(alloc);
    read_into::<R, NOTES>(alloc, d, part, place)?;
    *met = true;
    Ok(())
}

/// Reads a part that comes at most once. One that comes again is rejected before its value is read.
#[inline(always)]
pub fn read_part<'de, R: Fields<'de>>(
    alloc: Global,
    d: &mut Decoder<'de>,
    name: &'de [u8],
    met: &mut bool,
    part: &mut R,
) -> Result<(), Failed>
    requires { IsSome d.old.budget }
    ensures { TakesPart R.free (record_of R.table) (met.old, data_of R.table part.old)
        (met.new, data_of R.table part.new) d.old d.new result }
{
    read_part_into::<R, false>(alloc, d, name, met, part, &mut None)
}
