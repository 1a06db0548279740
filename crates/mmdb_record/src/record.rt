//! Records: maps whose keys name fields.
ghost use Rattle.std.specs.Prelude.{◌≡◌, ℕ, List, Option, Some, None, Bool, true, false, IfOk, IfErr, OnOk, OnErr, IsSome, option_map};
ghost use Rattle.mmdb_decode.specs.Reading.{Meaning};
ghost use Rattle.mmdb_decode.specs.Maps.{Fields, pairs_from, name_at, pairs_left, with_pairs_left};
ghost use Rattle.mmdb_record.specs.Records.{record_at, finished, once, FieldRead};
ghost use Rattle.mmdb_decode.specs.State.{State, decoded, GivenUp};
ghost use Rattle.mmdb_decode.specs.Errors.{Fails, IsRead, FailsToRead, Kept};

use crate::decode::Decode;
use mmdb_decode::decoder::Decoder;
use mmdb_decode::items::Entries;
pub use mmdb_decode::names::{duplicate_field, missing_field, named};
use mmdb_format::error::{DecodeResult, MaxMindDbError};
use std::alloc::Global;

/// The fields of a record that were read so far.
pub trait Record<'de>: Sized + Drop {
    /// The record, once all its fields were read.
    type Whole: Drop;

    /// What the fields say, apart from where they lie in memory.
    ghost Datum: { Type 0 };

    ghost datum: { Self → Datum };

    /// What no fields say.
    ghost none: { Datum };

    /// What a name makes of the fields so far.
    ghost fields: { Fields Datum };

    /// What the whole record says.
    ghost WholeDatum: { Type 0 };

    ghost whole_datum: { Self.Whole → WholeDatum };

    /// The whole record that fields make, where none that is required is missing.
    ghost whole: { Datum → Option WholeDatum };

    /// Whether a success takes no memory.
    ghost free: { Bool };

    /// No fields.
    fn empty(alloc: Global) -> Self
        ensures { datum result ≡ none };

    /// Reads or skips the value after a name.
    fn read_field(
        &mut self,
        alloc: Global,
        name: &'de [u8],
        d: &mut Decoder<'de>,
    ) -> DecodeResult<()>
        requires { IsSome d.old.budget }
        ensures { FieldRead free (decoded false (fields (datum self.old) name.now) d.old)
            (datum self.new) d.old d.new result };

    /// The whole record. A field that is required and missing is rejected, as `missing_field` says.
    fn finish(self, alloc: Global, offset: usize) -> DecodeResult<Self::Whole>
        ensures ok { IfOk result (λ v. whole (datum self) ≡ Some (whole_datum v)) }
        ensures err { IfErr result (λ e. Fails free e (whole (datum self))) };
}

/// Reads a field that comes at most once. One that comes again is rejected before its value is read.
#[inline(always)]
pub fn read_once<'de, T: Decode<'de>>(
    alloc: Global,
    d: &mut Decoder<'de>,
    name: &str,
    slot: &mut Option<T>,
) -> DecodeResult<()>
    requires exact { T.exact ≡ true }
    requires started { IsSome d.old.budget }
    ensures { FieldRead T.free (decoded false (once T.meaning (option_map T.datum slot.old)) d.old)
        (option_map T.datum slot.new) d.old d.new result }
{
    if slot.is_some() {
        return Err(duplicate_field(alloc, name, d.offset()));
    }
    *slot = Some(T::decode(alloc, d)?);
    Ok(())
}

// The fields that are left of a map.
fn read_fields<'de, R: Record<'de>>(
    alloc: Global,
    d: &mut Decoder<'de>,
    entries: &mut Entries,
) -> DecodeResult<R>
    requires { IsSome d.old.budget }
    ensures ok { IfOk result (λ v. IsRead false
        (pairs_from name_at R.fields R.none (pairs_left entries.old)) d.old (R.datum v) d.new) }
    ensures rest { entries.new ≡ with_pairs_left (pairs_left entries.new) entries.old }
    ensures spent { OnOk result (pairs_left entries.new ≡ 0) }
    ensures kept { OnOk result (Kept d.old d.new) }
    ensures err { IfErr result (λ e. FailsToRead R.free e false
        (pairs_from name_at R.fields R.none (pairs_left entries.old)) d.old) }
    ensures given_up { OnErr result (GivenUp d.old d.new) }
{
    let mut record = R::empty(alloc);
    while let Some(name) = d.next_field(alloc, entries)? {
        record.read_field(alloc, name, d)?;
    }
    Ok(record)
}

// All fields of a map.
fn read_map<'de, R: Record<'de>>(alloc: Global, d: &mut Decoder<'de>) -> DecodeResult<R>
    ensures ok { IfOk result (λ v. IsRead true (record_at R.fields R.none)
        d.old (R.datum v) d.new) }
    ensures kept { OnOk result (Kept d.old d.new) }
    ensures err { IfErr result (λ e. FailsToRead R.free e true (record_at R.fields R.none) d.old) }
    ensures given_up { OnErr result (GivenUp d.old d.new) }
{
    let mut entries = d.begin_map(alloc)?;
    match read_fields(alloc, d, &mut entries) {
        Ok(record) => {
            d.end_map(entries);
            Ok(record)
        }
        Err(e) => {
            entries.give_up(d);
            Err(e)
        }
    }
}

/// Reads a record from a map.
pub fn read_record<'de, R: Record<'de>>(
    alloc: Global,
    d: &mut Decoder<'de>,
) -> DecodeResult<R::Whole>
    ensures ok { IfOk result (λ v. IsRead true (finished R.whole (record_at R.fields R.none))
        d.old (R.whole_datum v) d.new) }
    ensures kept { OnOk result (Kept d.old d.new) }
    ensures err { IfErr result (λ e. FailsToRead R.free e true
        (finished R.whole (record_at R.fields R.none)) d.old) }
    ensures given_up { OnErr result (GivenUp d.old d.new) }
{
    let fields: R = read_map(alloc, d)?;
    fields.finish(alloc, d.offset())
}
