//! The values of lookups' results.
ghost use Rattle.std.specs.Prelude.{◌≡◌, ℕ, true, Some, IfOk, IfErr, IfSome, IfNone, OnErr, IsSome, is_some, option_map};
ghost use Rattle.mmdb_decode.specs.State.{State, begin, decoded};
ghost use Rattle.mmdb_decode.specs.Errors.{Fails, answer};
ghost use Rattle.mmdb_reader.specs.Found.{section_asked, offset_found};
ghost use Rattle.mmdb_reader.specs.Decoding.{DecodesTo, FailsToDecode};
ghost use Rattle.mmdb_reader.specs.Selecting.{selected, read_along, answer_along, SelectsTo, Reaches, LeadsNowhere, HasNone, meets_other_from};

use crate::go_along::{go_along, meets_other_type, with_path};
use crate::lookup_result::LookupResult;
use crate::offsets::counted_from_start;
use crate::path::PathElement;
use mmdb_decode::decoder::Decoder;
use mmdb_decode::laws::values_bounded;
use mmdb_format::error::{DecodeResult, MaxMindDbError};
use mmdb_record::decode::Decode;
use std::alloc::Global;
use std::convert::AsSlice;

// The value at an offset of a section.
pub(crate) fn decode_at<'de, T: Decode<'de>>(
    alloc: Global,
    section: &'de [u8],
    offset: usize,
) -> DecodeResult<T>
    ensures ok { IfOk result (λ v. T.exact ≡ true
        → answer T.starts T.meaning section.now offset ≡ Some (T.datum v)) }
    ensures err { IfErr result (λ e. T.exact ≡ true
        → Fails T.free e (answer T.starts T.meaning section.now offset)) }
    ensures also { IfOk result (λ v. (after : State) × T.also (begin section.now offset) v after) }
{
    let mut d = Decoder::new(section, offset);
    T::decode(alloc, &mut d)
}

// The value at the end of a path that begins at an offset of a section.
#[inline(always)]
pub(crate) fn decode_along<'de, T: Decode<'de>>(
    alloc: Global,
    section: &'de [u8],
    offset: usize,
    path: &[PathElement<'_>],
) -> DecodeResult<Option<T>>
    ensures ok { IfOk result (λ value. T.exact ≡ true
        → answer true (read_along path.now T.meaning) section.now offset
        ≡ Some (option_map T.datum value)) }
    ensures err { IfErr result (λ e. T.exact ≡ true
        → Fails T.free e (answer true (read_along path.now T.meaning) section.now offset)) }
    ensures none { IfOk result (λ value. IfNone value (LeadsNowhere path.now section.now offset)) }
    ensures also { IfOk result (λ value. IfSome value (λ v. (there after : State)
        × (decoded true (selected path.now) (begin section.now offset) ≡ Some (true, there))
        × T.also there v after)) }
{
    let mut d = Decoder::new(section, offset);
    d.begin_budget();
    match go_along(&mut d, path) {
        Ok(true) => {}
        Ok(false) => {
            values_bounded(&d);
            return Ok(None);
        }
        Err(rejected) => return Err(rejected.to_error(alloc, &mut d, path)),
    }
    match T::decode(alloc, &mut d) {
        Ok(value) => Ok(Some(value)),
        Err(error) => Err(with_path(alloc, error, path)),
    }
}

impl<'a, S: AsSlice<u8> + Drop> LookupResult<'a, S> {
    /// The value of the network, or none exactly where it has no data; only data can fail.
    ///
    /// Fails, unless out of memory, exactly where no value of the type's shape is at the offset within the limits:
    /// `InvalidDatabase` where the bytes are no value, `Decoding` where the value is of another shape, `ResourceLimit`
    /// over a limit. Of a type whose meaning is not exact its own relation is known, and of Ok alone.
    pub fn decode<T: Decode<'a>>(&self, alloc: Global) -> Result<Option<T>, MaxMindDbError>
        ensures ok { IfOk result (λ value. T.exact ≡ true → DecodesTo T.datum
            (answer T.starts T.meaning (section_asked self.now)) (offset_found self.now) value) }
        ensures err { IfErr result (λ e. T.exact ≡ true → FailsToDecode T.free e
            (answer T.starts T.meaning (section_asked self.now)) (offset_found self.now)) }
        ensures none { IfOk result (λ value. is_some value ≡ is_some (offset_found self.now)) }
        ensures of_data { OnErr result (IsSome (offset_found self.now)) }
        ensures also { IfOk result (λ value. IfSome value (λ v. (offset : ℕ) × (after : State)
            × (offset_found self.now ≡ Some offset)
            × T.also (begin (section_asked self.now) offset) v after)) }
    {
        match self.to_record() {
            Some(found) => match found.decode(alloc) {
                Ok(value) => Ok(Some(value)),
                Err(error) => Err(error),
            },
            None => Ok(None),
        }
    }

    /// The value at the end of a path into the network's value, without reading what is beside the path; none exactly
    /// where the network has no data, no key of a map on the way is equal, or an index is out of range. The first of
    /// equal keys counts. An empty path is `decode`.
    ///
    /// Fails, unless out of memory, exactly where another value than a map for a key or an array for an index
    /// is on the way, where bytes on the way are no value, where no value of the type's shape is at the path's end, or
    /// where way and value together pass the limits. A `Decoding` or `ResourceLimit` names the path up to the step at
    /// which it arose. The way itself takes no memory.
    pub fn decode_path<T: Decode<'a>>(
        &self,
        alloc: Global,
        path: &[PathElement<'_>],
    ) -> Result<Option<T>, MaxMindDbError>
        ensures ok { IfOk result (λ value. T.exact ≡ true → SelectsTo T.datum
            (answer_along path.now T.starts T.meaning (section_asked self.now)) (offset_found self.now) value) }
        ensures err { IfErr result (λ e. T.exact ≡ true → FailsToDecode T.free e
            (answer_along path.now T.starts T.meaning (section_asked self.now)) (offset_found self.now)) }
        ensures none { IfOk result (λ value. IfNone value
            (HasNone path.now (section_asked self.now) (offset_found self.now))) }
        ensures of_data { OnErr result (IsSome (offset_found self.now)) }
        ensures also { IfOk result (λ value. IfSome value (λ v. (offset : ℕ) × (there after : State)
            × (offset_found self.now ≡ Some offset)
            × Reaches path.now (section_asked self.now) offset there × T.also there v after)) }
    {
        match self.to_record() {
            Some(found) => found.decode_path(alloc, path),
            None => Ok(None),
        }
    }

    /// Whether a step of a path meets a value of another type than it goes into: a key no map, an index no array. Such a
    /// path leads nowhere, though `decode_path` fails; where this is false it failed for another reason.
    ///
    /// What can't be read is no value of another type, nor is a type number above 255, or a map or an array over the
    /// limits. It takes no memory.
    pub fn meets_other_type(&self, path: &[PathElement<'_>]) -> bool
        ensures { result ≡ meets_other_from path.now (section_asked self.now)
            (offset_found self.now) }
    {
        match self.to_record() {
            Some(found) => found.meets_other_type(path),
            None => false,
        }
    }
}
