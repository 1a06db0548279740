//! Values along paths in records.
ghost use Rattle.std.specs.Prelude.{Option, List};
ghost use Rattle.mmdb_format.specs.Unfolding.{Tree};
ghost use Rattle.mmdb_reader.specs.declared.path.PathElement.{PathElement as SpecPathElement};
ghost use Rattle.mmdb_layout.specs.Reading.{IsReadAs, reads_of, outlines_of};

use mmdb_found::value_along;
use mmdb_query::outline_along;
use mmdb_reader::{LookupResult, MaxMindDbError, PathElement};
use mmdb_value::Value;
use std::alloc::Global;
use std::convert::AsSlice;

/// What has values along paths: a record, or several that are asked one after another.
pub trait ReadAlong {
    /// What is read along a path.
    ghost reads: { Self → List SpecPathElement → Option (Option Tree) };

    /// What is read so where of a map or an array no more is read than its header.
    ghost outlines: { Self → List SpecPathElement → Option (Option Tree) };

    /// The value at the end of a path, or none where the path leads nowhere. Fails, unless out of memory, where the way
    /// or the value can't be read.
    fn read_along(
        &self,
        alloc: Global,
        path: &[PathElement<'_>],
    ) -> Result<Option<Value<'_>>, MaxMindDbError>
        ensures { IsReadAs (reads self.now path.now) result };

    /// The same, but in place of a map or an array an empty one: no more of it is read than its header, and it fails only
    /// where the way, the header or a scalar can't be read.
    fn outline_along(
        &self,
        alloc: Global,
        path: &[PathElement<'_>],
    ) -> Result<Option<Value<'_>>, MaxMindDbError>
        ensures { IsReadAs (outlines self.now path.now) result };
}

impl<'a, S: AsSlice<u8> + Drop> ReadAlong for LookupResult<'a, S> {
    ghost use Rattle.mmdb_layout.specs.Reading.{reads_found, outlines_found};

    ghost reads = { λ found. reads_found found };

    ghost outlines = { λ found. outlines_found found };

    #[inline(always)]
    fn read_along(
        &self,
        alloc: Global,
        path: &[PathElement<'_>],
    ) -> Result<Option<Value<'_>>, MaxMindDbError> {
        value_along(alloc, self, path)
    }

    fn outline_along(
        &self,
        alloc: Global,
        path: &[PathElement<'_>],
    ) -> Result<Option<Value<'_>>, MaxMindDbError> {
        match self.to_record() {
            Some(found) => outline_along(alloc, &found, path),
            None => Ok(None),
        }
    }
}

// The value at the end of a path in the record of an answer, or none where there is none.
fn read_in<'v, S: AsSlice<u8> + Drop>(
    alloc: Global,
    answer: &'v Option<LookupResult<'_, S>>,
    path: &[PathElement<'_>],
) -> Result<Option<Value<'v>>, MaxMindDbError>
    ensures { IsReadAs (reads_of answer.now path.now) result }
{
    match answer {
        Some(found) => found.read_along(alloc, path),
        None => Ok(None),
    }
}

// The same without what a map or an array holds.
fn outline_in<'v, S: AsSlice<u8> + Drop>(
    alloc: Global,
    answer: &'v Option<LookupResult<'_, S>>,
    path: &[PathElement<'_>],
) -> Result<Option<Value<'v>>, MaxMindDbError>
    ensures { IsReadAs (outlines_of answer.now path.now) result }
{
    match answer {
        Some(found) => found.outline_along(alloc, path),
        None => Ok(None),
    }
}

/// What several databases have, in their order: a value is that of the first record that has one at the path, and one
/// that can't be read is no reason to ask the next.
impl<'a, S: AsSlice<u8> + Drop> ReadAlong for Vec<Option<LookupResult<'a, S>>> {
    ghost use Rattle.mmdb_layout.specs.Reading.{first_read_of, first_outline_of};

    ghost reads = { λ answers. first_read_of answers.items };

    ghost outlines = { λ answers. first_outline_of answers.items };

    fn read_along(
        &self,
        alloc: Global,
        path: &[PathElement<'_>],
    ) -> Result<Option<Value<'_>>, MaxMindDbError> {
        for answer in self {
            match read_in(alloc, answer, path) {
                Ok(None) => {}
                Ok(Some(value)) => return Ok(Some(value)),
                Err(error) => return Err(error),
            }
        }
        Ok(None)
    }

    fn outline_along(
        &self,
        alloc: Global,
        path: &[PathElement<'_>],
    ) -> Result<Option<Value<'_>>, MaxMindDbError> {
        for answer in self {
            let value = outline_in(alloc, answer, path)?;
            if value.is_some() {
                return Ok(value);
            }
        }
        Ok(None)
    }
}
