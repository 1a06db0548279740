//! The check of a section's first value.
ghost use Rattle.std.specs.Prelude.{IfErr, OnOk};
ghost use Rattle.mmdb_format.specs.Error.{MemoryApart};
ghost use Rattle.mmdb_check.specs.Checking.{CanAdd, none};

use crate::checked::{Checked, check_value};
use mmdb_format::error::MaxMindDbError;
use std::alloc::Global;

/// Checks the value at offset 0 of a section, and all that it leads to.
///
/// It succeeds, unless out of memory, exactly where `check_value` of a section with no good offsets does.
pub fn verify(alloc: Global, section: &[u8]) -> Result<(), MaxMindDbError>
    ensures ok { OnOk result (CanAdd section.now none 0) }
    ensures err { IfErr result (λ e. MemoryApart e (CanAdd section.now none 0 → ⊥)) }
{
    let mut checked = match Checked::new(alloc, section) {
        Ok(checked) => checked,
        Err(error) => return Err(error),
    };
    check_value(alloc, &mut checked, 0)
}
