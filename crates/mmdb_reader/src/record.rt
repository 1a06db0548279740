//! Records of a database.
ghost use Rattle.std.specs.Prelude.{◌≡◌, Some, true, ⊤, IfOk, IfErr, IfSome, option_map, IfNone};
ghost use Rattle.mmdb_decode.specs.State.{State, begin};
ghost use Rattle.mmdb_decode.specs.Errors.{Fails, answer};
ghost use Rattle.mmdb_reader.specs.Found.{section_of_record, place_of_record};
ghost use Rattle.mmdb_reader.specs.Selecting.{answer_along, LeadsNowhere, Reaches, meets_other_type as spec_meets_other_type};

use crate::decode_path::{decode_along, decode_at};
use crate::go_along::meets_other_type;
use crate::offsets::counted_from_start;
use crate::path::PathElement;
use crate::reader::Reader;
use mmdb_decode::decoder::Decoder;
use mmdb_format::error::MaxMindDbError;
use mmdb_record::decode::Decode;
use std::alloc::{AllocError, Global};
use std::convert::AsSlice;

/// A place of a database's data section, from which a value is read without a lookup.
pub struct Record<'a, S: AsSlice<u8> + Drop> {
    pub(crate) reader: &'a Reader<S>,
    pub(crate) offset: usize,
}

impl<'a, S: AsSlice<u8> + Drop> Copy for Record<'a, S> {}

impl<'a, S: AsSlice<u8> + Drop> Clone for Record<'a, S> {
    ghost is_clone = { λ s r. r ≡ s };

    ghost is_infallible = { λ _. ⊤ };

    fn clone(&self) -> Result<Record<'a, S>, AllocError> {
        Ok(*self)
    }
}

impl<'a, S: AsSlice<u8> + Drop> Record<'a, S> {
    /// Its place, counted from the start of the data section.
    #[inline(always)]
    pub fn offset(&self) -> usize
        ensures { result ≡ place_of_record self.now }
    {
        self.offset
    }

    /// The value there.
    ///
    /// Fails, unless out of memory, exactly where no value of the type's shape is there within the limits: `InvalidDatabase`
    /// where the bytes are no value, `Decoding` where the value is of another shape, `ResourceLimit` over a limit. Of a type
    /// whose meaning is not exact its own relation is known, and of Ok alone.
    #[inline(always)]
    pub fn decode<T: Decode<'a>>(&self, alloc: Global) -> Result<T, MaxMindDbError>
        ensures ok { IfOk result (λ value. T.exact ≡ true
            → answer T.starts T.meaning (section_of_record self.now) (place_of_record self.now)
            ≡ Some (T.datum value)) }
        ensures err { IfErr result (λ e. T.exact ≡ true → Fails T.free e
            (answer T.starts T.meaning (section_of_record self.now)
            (place_of_record self.now))) }
        ensures also { IfOk result (λ value. (after : State)
            × T.also (begin (section_of_record self.now) (place_of_record self.now))
            value after) }
    {
        match decode_at(alloc, self.reader.data_section(), self.offset) {
            Ok(value) => Ok(value),
            Err(error) => Err(counted_from_start(error, self.reader.data_start())),
        }
    }

    /// The value at the end of a path into the value there, without reading what is beside the path; none exactly where no key
    /// of a map on the way is equal, or an index is out of range. The first of equal keys counts. An empty path is `decode`.
    ///
    /// Fails, unless out of memory, exactly where another value than a map for a key or an array for an index is on the way,
    /// where bytes on the way are no value, where no value of the type's shape is at the path's end, or where way and value
    /// together pass the limits. A `Decoding` or `ResourceLimit` names the path up to the step at which it arose. The way
    /// itself takes no memory.
    #[inline(always)]
    pub fn decode_path<T: Decode<'a>>(
        &self,
        alloc: Global,
        path: &[PathElement<'_>],
    ) -> Result<Option<T>, MaxMindDbError>
        ensures ok { IfOk result (λ value. T.exact ≡ true
            → answer_along path.now T.starts T.meaning (section_of_record self.now)
            (place_of_record self.now) ≡ Some (option_map T.datum value)) }
        ensures err { IfErr result (λ e. T.exact ≡ true → Fails T.free e
            (answer_along path.now T.starts T.meaning (section_of_record self.now)
            (place_of_record self.now))) }
        ensures none { IfOk result (λ value. IfNone value
            (LeadsNowhere path.now (section_of_record self.now)
            (place_of_record self.now))) }
        ensures also { IfOk result (λ value. IfSome value (λ v. (there after : State)
            × Reaches path.now (section_of_record self.now) (place_of_record self.now) there
            × T.also there v after)) }
    {
        if path.is_empty() {
            return match self.decode(alloc) {
                Ok(value) => Ok(Some(value)),
                Err(error) => Err(error),
            };
        }
        match decode_along(alloc, self.reader.data_section(), self.offset, path) {
            Ok(value) => Ok(value),
            Err(error) => Err(counted_from_start(error, self.reader.data_start())),
        }
    }

    /// Whether a step of a path meets a value of another type than it goes into: a key no map, an index no array. Such a
    /// path leads nowhere, though `decode_path` fails; where this is false it failed for another reason.
    ///
    /// What can't be read is no value of another type, nor is a type number above 255, or a map or an array over the
    /// limits. It takes no memory.
    #[inline(always)]
    pub fn meets_other_type(&self, path: &[PathElement<'_>]) -> bool
        ensures { result ≡ spec_meets_other_type path.now
            (begin (section_of_record self.now) (place_of_record self.now)) }
    {
        let mut d = Decoder::new(self.reader.data_section(), self.offset);
        meets_other_type(&mut d, path)
    }
}
