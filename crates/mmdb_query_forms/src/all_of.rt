//! Conditions on values.
ghost use Rattle.std.specs.Prelude.{IfOk, IfErr};
ghost use Rattle.mmdb_format.specs.Error.{MemoryApart};
ghost use Rattle.mmdb_layout.specs.Conditions.{SaysAllMetBy, HasUnreadBy};

use crate::along::Along;
use mmdb_layout::{Condition, ReadAlong};
use mmdb_query::{Answer, Conditions};
use mmdb_reader::MaxMindDbError;
use std::alloc::Global;

/// All of some conditions, on values in the records of one database or of several: a value is that of the first record that
/// has one at the path.
#[derive(Drop)]
pub struct AllOf<'a> {
    pub conditions: &'a [Condition<'a>],
}

// Whether all conditions are met. They are asked in turn up to the first that is not met.
fn meet_all<R: ReadAlong>(
    alloc: Global,
    conditions: &[Condition<'_>],
    found: &R,
) -> Result<bool, MaxMindDbError>
    ensures met { IfOk result (SaysAllMetBy conditions.now (R.outlines found.now)) }
    ensures unread { IfErr result
        (λ e. MemoryApart e (HasUnreadBy conditions.now (R.outlines found.now))) }
{
    for condition in conditions {
        if !condition.holds(alloc, found)? {
            return Ok(false);
        }
    }
    Ok(true)
}

impl Conditions for AllOf<'_> {
    ghost use Rattle.mmdb_query_forms.specs.Met.{says_all, has_unread};

    ghost says = { says_all };

    ghost is_unread = { has_unread };

    fn are_none(&self) -> bool {
        self.conditions.is_empty()
    }

    fn are_met<A: Answer>(&self, alloc: Global, answer: &A) -> Result<bool, MaxMindDbError> {
        meet_all(alloc, self.conditions, &Along { answer })
    }
}
