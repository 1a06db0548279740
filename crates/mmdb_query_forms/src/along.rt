//! What databases have, as what conditions read.
use mmdb_layout::ReadAlong;
use mmdb_query::Answer;
use mmdb_reader::{MaxMindDbError, PathElement};
use mmdb_value::Value;
use std::alloc::Global;

/// What databases have, of which values are read along paths.
#[derive(Drop)]
pub struct Along<'x, A: Answer> {
    pub answer: &'x A,
}

impl<'x, A: Answer> ReadAlong for Along<'x, A> {
    ghost use Rattle.mmdb_query.specs.Reading.{values_of, outlines_of};

    ghost reads = { λ along. values_of (A.sections along.answer.now)
        (A.had along.answer.now).offsets };

    ghost outlines = { λ along. outlines_of (A.sections along.answer.now)
        (A.had along.answer.now).offsets };

    #[inline(always)]
    fn read_along(
        &self,
        alloc: Global,
        path: &[PathElement<'_>],
    ) -> Result<Option<Value<'_>>, MaxMindDbError> {
        self.answer.read_along(alloc, path)
    }

    #[inline(always)]
    fn outline_along(
        &self,
        alloc: Global,
        path: &[PathElement<'_>],
    ) -> Result<Option<Value<'_>>, MaxMindDbError> {
        self.answer.outline_along(alloc, path)
    }
}
