//! Decoding from the beginning of a section, and the check of its first value.
ghost use Rattle.std.specs.Prelude.{◌≡◌, IfOk, IfErr, true, false};
ghost use Rattle.mmdb_format.specs.Error.{MemoryApart};
ghost use Rattle.mmdb_format.specs.Unfolding.{Tree};
ghost use Rattle.mmdb_value.specs.Standing.{WholeValue};
ghost use Rattle.mmdb_value.specs.Values.{value_tree};
ghost use Rattle.mmdb_value.specs.RawValues.{raw_tree};

use crate::any_value::Value;
use crate::raw_value::RawValue;
pub use mmdb_check::first_value::verify;
use mmdb_format::error::DecodeResult;
pub use mmdb_record::first_value::decode;
use std::alloc::Global;

/// The value at the beginning of a section, in the words of the format: the tree that unfolds there, with
/// texts for keys and all texts UTF-8, within the limits.
pub fn decode_value(alloc: Global, section: &[u8]) -> DecodeResult<Value<'_>>
    ensures ok { IfOk result (λ v. WholeValue true section.now 0 (value_tree v)) }
    ensures err { IfErr result (λ e.
        MemoryApart e ((v : Tree) → WholeValue true section.now 0 v → ⊥)) }
{
    decode::<Value<'_>>(alloc, section)
}

/// The value at the beginning of a section as `decode_value` gives it, its texts not tested.
pub fn decode_raw_value(alloc: Global, section: &[u8]) -> DecodeResult<RawValue<'_>>
    ensures ok { IfOk result (λ v. WholeValue false section.now 0 (raw_tree v)) }
    ensures err { IfErr result (λ e.
        MemoryApart e ((v : Tree) → WholeValue false section.now 0 v → ⊥)) }
{
    decode::<RawValue<'_>>(alloc, section)
}
