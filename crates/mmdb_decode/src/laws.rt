//! Laws of the format: each is the contract of a function that does nothing.
ghost use Rattle.mmdb_decode.specs.Scalars.{u16_at, u32_at, u64_at, u128_at, i32_at, bool_at, double_at, float_at, text_at, byte_string_at};
ghost use Rattle.mmdb_decode.specs.State.{Within};
ghost use Rattle.mmdb_format.specs.Contents.{text, bytes, boolean, signed32, number16, number32, number64, number128, double_bits, float_bits};
ghost use Rattle.mmdb_decode.specs.ScalarReads.{ReadsScalars, ReadsSmallNumbers};
ghost use Rattle.mmdb_decode.specs.Skipping.{SkippingIsPassing};

use crate::decoder::Decoder;
pub use mmdb_format::laws::{one_tree_unfolds, scalars_equal_where_same};

/// Skipping a value is passing it in the words of the format.
pub fn skipping_is_passing()
    ensures { SkippingIsPassing }
{}

/// What a decoder under a budget has charged never passes the limits, after an error too.
#[inline(always)]
pub fn values_bounded(d: &Decoder<'_>)
    ensures { Within d.now.budget }
{
    d.stays_within();
}

/// What is read as a scalar, a text or a byte string is what unfolds there, directly or through one pointer.
pub fn scalar_is_what_stands()
    ensures u16 { ReadsScalars u16_at number16 }
    ensures u32 { ReadsScalars u32_at number32 }
    ensures u64 { ReadsScalars u64_at number64 }
    ensures u128 { ReadsScalars u128_at number128 }
    ensures i32 { ReadsScalars i32_at signed32 }
    ensures boolean { ReadsScalars bool_at boolean }
    ensures double { ReadsScalars double_at double_bits }
    ensures float { ReadsScalars float_at float_bits }
    ensures text { ReadsScalars text_at text }
    ensures bytes { ReadsScalars byte_string_at bytes }
{}

/// What is read as a small number is the integer that unfolds there, through any number of pointers
/// within the levels.
pub fn small_number_is_what_stands()
    ensures { ReadsSmallNumbers }
{}
