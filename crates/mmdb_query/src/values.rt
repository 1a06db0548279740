//! What is read along a path in a record.
ghost use Rattle.std.specs.Prelude.{◌≡◌};
ghost use Rattle.mmdb_decode.specs.State.{begin};
ghost use Rattle.mmdb_reader.specs.Found.{section_of_record, place_of_record};
ghost use Rattle.mmdb_reader.specs.Selecting.{meets_other_type};
ghost use Rattle.mmdb_query.specs.Reading.{value_found, outline_found, stands_for_none, IsReadAs};

use crate::outline::Outline;
use mmdb_reader::{MaxMindDbError, PathElement, Record};
use mmdb_value::Value;
use std::alloc::Global;
use std::convert::AsSlice;

// Whether an error stands for a path that leads nowhere, since a step of it meets a value of another type.
#[cold]
#[inline(never)]
fn leads_nowhere<S: AsSlice<u8> + Drop>(
    found: &Record<'_, S>,
    path: &[PathElement<'_>],
    error: &MaxMindDbError,
) -> bool
    ensures { let begun = begin (section_of_record found.now) (place_of_record found.now) in
        result ≡ stands_for_none error.now (meets_other_type path.now begun) }
{
    match error {
        MaxMindDbError::Memory => false,
        _ => found.meets_other_type(path),
    }
}

/// The value at the end of a path, or none where the path leads nowhere in the record: also where a step of it meets a value of
/// another type.
#[inline(always)]
pub(crate) fn value_along<'a, S: AsSlice<u8> + Drop>(
    alloc: Global,
    found: &Record<'a, S>,
    path: &[PathElement<'_>],
) -> Result<Option<Value<'a>>, MaxMindDbError>
    ensures { IsReadAs (value_found path.now (section_of_record found.now)
        (place_of_record found.now)) result }
{
    match found.decode_path(alloc, path) {
        Ok(value) => Ok(value),
        Err(error) => {
            if leads_nowhere(found, path, &error) {
                Ok(None)
            } else {
                Err(error)
            }
        }
    }
}

/// The same, but in place of a map or an array an empty one: no more of it is read than its header.
///
/// Fails, unless out of memory, where the way, the header or a scalar can't be read.
#[inline(always)]
pub fn outline_along<'a, S: AsSlice<u8> + Drop>(
    alloc: Global,
    found: &Record<'a, S>,
    path: &[PathElement<'_>],
) -> Result<Option<Value<'a>>, MaxMindDbError>
    ensures { IsReadAs (outline_found path.now (section_of_record found.now)
        (place_of_record found.now)) result }
{
    let read: Result<Option<Outline<'a>>, MaxMindDbError> = found.decode_path(alloc, path);
    match read {
        Ok(Some(outline)) => Ok(Some(outline.value)),
        Ok(None) => Ok(None),
        Err(error) => {
            if leads_nowhere(found, path, &error) {
                Ok(None)
            } else {
                Err(error)
            }
        }
    }
}
