//! Costs, and how they add up.
ghost use Rattle.std.specs.Prelude.{◌≡◌, ◌+◌, IfOk};
ghost use Rattle.mmdb_costs.specs.Working.{IsWithin};

use mmdb_decode::budget::{MAX_BYTES, MAX_VALUES};
use mmdb_decode::failed::Failed;

/// What a value costs a reading: how many values it is, itself and keys among them, and how many bytes its texts and byte
/// strings have.
#[derive(Clone, Copy)]
pub(crate) struct Cost {
    pub(crate) values: u32,
    pub(crate) bytes: u32,
}

impl Cost {
    /// The given numbers of values and bytes, if they are within the limits of a reading.
    #[inline(always)]
    pub(crate) fn of(values: usize, bytes: usize) -> Result<Cost, Failed>
        ensures cost { IfOk result (λ cost. cost ≡ record { values = values; bytes = bytes }) }
        ensures within { IfOk result IsWithin }
    {
        if values > MAX_VALUES || bytes > MAX_BYTES {
            return Err(Failed::Unreadable);
        }
        Ok(Cost {
            values: values as u32,
            bytes: bytes as u32,
        })
    }
}

/// What comes one after the other from an offset on: where it ends, and what it costs together.
#[derive(Clone, Copy)]
pub(crate) struct PartCost {
    pub(crate) end: usize,
    pub(crate) cost: Cost,
}

impl PartCost {
    /// Nothing, at an offset.
    #[inline(always)]
    pub(crate) fn nothing(offset: usize) -> PartCost
        ensures { result ≡ record { end = offset; cost = record { values = 0; bytes = 0 } } }
    {
        PartCost {
            end: offset,
            cost: Cost {
                values: 0,
                bytes: 0,
            },
        }
    }

    /// This, and what comes after it, if both together are within the limits.
    #[inline(always)]
    pub(crate) fn and(self, behind: PartCost) -> Result<PartCost, Failed>
        ensures end { IfOk result (λ both. both.end ≡ behind.end) }
        ensures values { IfOk result
            (λ both. both.cost.values ≡ self.cost.values + behind.cost.values) }
        ensures bytes { IfOk result
            (λ both. both.cost.bytes ≡ self.cost.bytes + behind.cost.bytes) }
        ensures within { IfOk result (λ both. IsWithin both.cost) }
    {
        let values = self.cost.values as usize + behind.cost.values as usize;
        let bytes = self.cost.bytes as usize + behind.cost.bytes as usize;
        Ok(PartCost {
            end: behind.end,
            cost: Cost::of(values, bytes)?,
        })
    }

    /// The container whose parts this is, if it is within the limits.
    #[inline(always)]
    pub(crate) fn contained(self) -> Result<PartCost, Failed>
        ensures end { IfOk result (λ whole. whole.end ≡ self.end) }
        ensures values { IfOk result (λ whole. whole.cost.values ≡ self.cost.values + 1) }
        ensures bytes { IfOk result (λ whole. whole.cost.bytes ≡ self.cost.bytes) }
        ensures within { IfOk result (λ whole. IsWithin whole.cost) }
    {
        Ok(PartCost {
            end: self.end,
            cost: Cost::of(self.cost.values as usize + 1, self.cost.bytes as usize)?,
        })
    }
}
