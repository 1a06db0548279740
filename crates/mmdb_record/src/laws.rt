//! Laws of typed reading: each is the contract of a function that does nothing.
ghost use Rattle.std.specs.Prelude.{◌≡◌, true, Some, map, option_map, pos, neg_ℤ};
ghost use Rattle.std.specs.String.{string_bytes};
ghost use Rattle.mmdb_format.specs.Equality.{IsEqualityOf};
ghost use Rattle.mmdb_decode.specs.Arrays.{list_at};
ghost use Rattle.mmdb_decode.specs.Maps.{text_map_at};
ghost use Rattle.mmdb_decode.specs.Reading.{mapped};
ghost use Rattle.mmdb_decode.specs.Scalars.{u16_at, u32_at, u64_at, u128_at, i32_at, bool_at, double_at, float_at, text_at, byte_string_at};
ghost use Rattle.mmdb_decode.specs.SmallNumbers.{small_at};
ghost use Rattle.mmdb_record.specs.Limits.{AnswerIsWithinLimits, OneReading};
ghost use Rattle.mmdb_record.specs.OneStands.{OneScalarStands, OneIntegerStands, OneListStands, OneTextMapStands, OneRecordStands};
ghost use Rattle.mmdb_record.specs.Shapes.{decoding, IsShape, IsScalarShape, IsSmallShape, IsOwnedShape, IsContainerShape};
ghost use Rattle.mmdb_record.specs.TypedReads.{ScalarsUnfold, ReadsLists, ListsUnfold, ReadsTextMaps, TextMapsUnfold, LastPairStays, KeysAscend, ReadsRecords, ReadsWholeRecords, ReadsTables, KnownNamesStandOnce, FieldNamesStandOnce};
ghost use Rattle.mmdb_record.specs.Tables.{fields_of, no_parts};

use crate::decode::{Decode, OwnedBytes};
use crate::fields::Fields;
use crate::record::Record;
pub use mmdb_decode::laws::{
    one_tree_unfolds, scalar_is_what_stands, scalars_equal_where_same, skipping_is_passing,
    small_number_is_what_stands, values_bounded,
};
use mmdb_format::content::{Double, Float};
use std::collections::BTreeMap;

/// An answer that begins a budget is a reading of at most 65,536 values and 2,097,152 bytes of texts and
/// byte strings, and each such reading is an answer.
pub fn answer_is_within_limits<'de, T: Decode<'de>>()
    ensures { AnswerIsWithinLimits T.Datum }
{}

/// At one offset of a section there is at most one value of a type, with one end and one cost: equal offsets are read
/// as equal data, or both fail.
pub fn same_offset_same_result<'de, T: Decode<'de>>()
    ensures { OneReading T.meaning }
{}

/// In the words of the format too: at one offset there is at most one scalar, and at most one integer of any type, with
/// one end and one cost.
pub fn one_scalar_stands()
    ensures scalars { OneScalarStands }
    ensures integers { OneIntegerStands }
{}

/// Scalars, and texts and byte strings that are lent, say themselves and are read as the one type of the
/// format, exactly, under no budget at the start, and without memory.
pub fn how_scalars_are_read()
    ensures boolean { IsScalarShape (decoding ⟦<bool as Decode<'static>>⟧) (λ v. v) bool_at }
    ensures u16 { IsScalarShape (decoding ⟦<u16 as Decode<'static>>⟧) (λ v. v) u16_at }
    ensures u32 { IsScalarShape (decoding ⟦<u32 as Decode<'static>>⟧) (λ v. v) u32_at }
    ensures u64 { IsScalarShape (decoding ⟦<u64 as Decode<'static>>⟧) (λ v. v) u64_at }
    ensures u128 { IsScalarShape (decoding ⟦<u128 as Decode<'static>>⟧) (λ v. v) u128_at }
    ensures i32 { IsScalarShape (decoding ⟦<i32 as Decode<'static>>⟧) (λ v. v) i32_at }
    ensures text { IsScalarShape (decoding ⟦<&'static str as Decode<'static>>⟧)
        (λ v. v.now) text_at }
    ensures bytes { IsScalarShape (decoding ⟦<&'static [u8] as Decode<'static>>⟧)
        (λ v. v.now) byte_string_at }
    ensures double { IsScalarShape (decoding ⟦<Double as Decode<'static>>⟧)
        (λ v. v.bits) double_at }
    ensures float { IsScalarShape (decoding ⟦<Float as Decode<'static>>⟧) (λ v. v.bits) float_at }
{}

/// Small numbers say themselves and are read as an integer of any type that fits them, exactly and
/// without memory, and begin a budget.
pub fn how_small_numbers_are_read()
    ensures u8 { IsSmallShape (decoding ⟦<u8 as Decode<'static>>⟧)
        pos (small_at (pos 0) (pos 255)) }
    ensures i8 { IsSmallShape (decoding ⟦<i8 as Decode<'static>>⟧)
        (λ v. v) (small_at (neg_ℤ (pos 128)) (pos 127)) }
    ensures i16 { IsSmallShape (decoding ⟦<i16 as Decode<'static>>⟧)
        (λ v. v) (small_at (neg_ℤ (pos 32768)) (pos 32767)) }
    ensures i64 { IsSmallShape (decoding ⟦<i64 as Decode<'static>>⟧)
        (λ v. v) (small_at (neg_ℤ (pos 9223372036854775808)) (pos 9223372036854775807)) }
{}

/// Texts and byte strings of one's own say their bytes, and are read as those that are lent, but take
/// memory.
pub fn how_owned_bytes_are_read()
    ensures string { IsOwnedShape (decoding ⟦<String as Decode<'static>>⟧) string_bytes text_at }
    ensures owned_bytes { IsOwnedShape (decoding ⟦<OwnedBytes as Decode<'static>>⟧)
        (λ v. v.0.items) byte_string_at }
{}

/// Containers of a type that is read exactly are too: a list of what its elements say, and a map of what
/// its values say by the bytes of their keys. An optional value is read as its type.
pub fn how_containers_are_read<'de, T: Decode<'de>>()
    requires { T.exact ≡ true }
    ensures optional { IsShape (decoding ⟦<Option<T> as Decode<'de>>⟧)
        (option_map T.datum) (mapped Some T.meaning) T.starts T.free }
    ensures list { IsContainerShape (decoding ⟦<Vec<T> as Decode<'de>>⟧)
        (λ v. map T.datum v.items) (list_at T.meaning) }
    ensures text_map { IsContainerShape (decoding ⟦<BTreeMap<String, T> as Decode<'de>>⟧)
        (λ m. map (λ e. (string_bytes e.0, T.datum e.1)) m.entries) (text_map_at T.meaning) }
{}

/// `==` of byte strings of one's own is equality of their bytes.
pub fn owned_bytes_equal_where_same()
    ensures { IsEqualityOf ⟦<OwnedBytes as PartialEq>⟧.eq (λ x. x.0.items) }
{}

/// What is read as a scalar unfolds to that scalar, its pointer dropped; so lists and maps of such values
/// unfold too.
pub fn scalars_unfold<'de, T: Decode<'de>>()
    ensures { ScalarsUnfold T.meaning }
{}

/// What is read as a list is the array that is there, directly or through one pointer: its elements in turn. At most
/// one is at an offset, with one end and one cost.
pub fn list_is_what_stands<'de, T: Decode<'de>>()
    ensures read { ReadsLists T.meaning }
    ensures one { OneListStands T.meaning }
    ensures unfolds { ListsUnfold T.meaning }
{}

/// What is read as a map with keys of text is the map that is there, directly or through one pointer: its pairs in
/// turn, of which the last one with a key gives its value. Its keys ascend. At most one is at an offset, with one end
/// and one cost.
pub fn text_map_is_what_stands<'de, T: Decode<'de>>()
    ensures read { ReadsTextMaps T.meaning }
    ensures one { OneTextMapStands T.meaning }
    ensures unfolds { TextMapsUnfold T.meaning }
    ensures last { LastPairStays T.Datum }
    ensures ascend { KeysAscend T.Datum }
{}

/// What is read as a record is the map that is there, directly or through one pointer: its fields in turn. A name of
/// which the record says whether it was met, and that is an error then, comes at most once. At most one record is at an
/// offset, with one end and one cost.
pub fn record_is_what_stands<'de, R: Record<'de>>()
    ensures read { ReadsRecords R.fields R.none }
    ensures one { OneRecordStands R.fields R.none }
    ensures whole { ReadsWholeRecords R.fields R.none R.whole }
    ensures known_names { KnownNamesStandOnce R.fields R.none }
{}

/// What is read as a record that a table describes is the map that is there, directly or through one pointer: its
/// fields in turn, by the rows of the table. The name of each row comes at most once. At most one such record is at an
/// offset, with one end and one cost.
pub fn table_is_what_stands<'de, R: Fields<'de>>()
    ensures read { ReadsTables R.table }
    ensures one { OneRecordStands (fields_of R.table) (no_parts R.table) }
    ensures known_names { KnownNamesStandOnce (fields_of R.table) (no_parts R.table) }
    ensures field_names { FieldNamesStandOnce R.table }
{}
