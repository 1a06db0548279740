//! Laws of any value: each is the contract of a function that does nothing.
ghost use Rattle.std.specs.Prelude.{true, false};
ghost use Rattle.mmdb_value.specs.AnyValue.{value_at};
ghost use Rattle.mmdb_value.specs.RawValues.{raw_tree};
ghost use Rattle.mmdb_value.specs.Values.{value_tree};
ghost use Rattle.mmdb_value.specs.Standing.{ValueIsWhatStands, AnswerIsWholeValue, OneValueStands};
ghost use Rattle.mmdb_record.specs.Shapes.{decoding, IsContainerShape};
ghost use Rattle.mmdb_format.specs.Equality.{IsEqualityOf};

use crate::any_value::Value;
use crate::raw_value::RawValue;
pub use mmdb_check::laws::{no_place_is_met_again, order_is_free};
use mmdb_record::decode::Decode;
pub use mmdb_record::laws::{
    answer_is_within_limits, how_containers_are_read, how_owned_bytes_are_read,
    how_scalars_are_read, how_small_numbers_are_read, list_is_what_stands, one_scalar_stands,
    one_tree_unfolds, owned_bytes_equal_where_same, record_is_what_stands, same_offset_same_result,
    scalar_is_what_stands, scalars_equal_where_same, scalars_unfold, skipping_is_passing,
    small_number_is_what_stands, table_is_what_stands, text_map_is_what_stands, values_bounded,
};

/// What is read as any value is what unfolds there, with its measures.
pub fn value_is_what_stands()
    ensures { ValueIsWhatStands }
{}

/// A whole reading succeeds exactly where there is a value within the limits.
pub fn answer_is_whole_value()
    ensures { AnswerIsWholeValue }
{}

/// Equal offsets hold equal values, or none.
pub fn one_value_stands()
    ensures { OneValueStands }
{}

/// Any value says its tree and is read as what is there, exactly, under a budget, with memory.
pub fn any_value_is_exact()
    ensures tested { IsContainerShape (decoding ⟦<Value<'static> as Decode<'static>>⟧)
        value_tree (value_at true) }
    ensures raw { IsContainerShape (decoding ⟦<RawValue<'static> as Decode<'static>>⟧)
        raw_tree (value_at false) }
{}

/// `==` of any values is equality of their trees: of kinds too, of bits where a number is not whole, and of
/// pairs in file order.
pub fn values_equal_where_same()
    ensures tested { IsEqualityOf ⟦<Value<'static> as PartialEq>⟧.eq value_tree }
    ensures raw { IsEqualityOf ⟦<RawValue<'static> as PartialEq>⟧.eq raw_tree }
{}
