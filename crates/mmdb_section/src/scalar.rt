//! Values that hold no others.
ghost use Rattle.std.specs.Prelude.{◌≡◌, ◌≤◌, ◌<◌, ◌++◌, length, OnOk};
ghost use Rattle.mmdb_format.specs.Header.{big_endian};
ghost use Rattle.mmdb_format.specs.Contents.{bytes as bytes_scalar, text as text_scalar};
ghost use Rattle.mmdb_section.specs.Bytes.{sized_bytes, significant_of, integer_bytes, scalar_bytes};
ghost use Rattle.mmdb_section.specs.Sections.{most_size, scalar_of};
ghost use Rattle.mmdb_section.specs.Encoding.{Appends, IsScalar, IsText};
ghost use Rattle.mmdb_section.specs.Working.{IsSized, IsInteger};

use crate::header::push_header;
use crate::value::Number;
use mmdb_format::kind::{BOOL, BYTES, DOUBLE, FLOAT, I32, TEXT, U16, U32, U64, U128};
use std::alloc::AllocError;

// A header of this type and the size of a content, and the content.
fn push_sized(out: &mut Vec<u8>, kind: u16, content: &[u8]) -> Result<(), AllocError>
    requires no_pointer { 1 < kind }
    requires kind { kind < 16 }
    requires size { length content.now ≤ most_size }
    ensures says { OnOk result (Appends (IsSized kind content.now) out.old.items out.new.items) }
    ensures bytes { OnOk result (out.new.items ≡ out.old.items ++ sized_bytes kind content.now) }
{
    push_header(out, kind, content.len())?;
    out.extend_from_slice(content)
}

// The bytes of a number without the zeros before it.
fn significant(bytes: &[u8]) -> &[u8]
    ensures value { big_endian result.now ≡ big_endian bytes.now }
    ensures len { length result.now ≤ length bytes.now }
    ensures bytes { result.now ≡ significant_of bytes.now }
{
    match bytes {
        [0, rest @ ..] => significant(rest),
        _ => bytes,
    }
}

// An integer, in as few bytes as it has.
fn push_integer(out: &mut Vec<u8>, kind: u16, bytes: &[u8]) -> Result<(), AllocError>
    requires no_pointer { 1 < kind }
    requires kind { kind < 16 }
    requires size { length bytes.now ≤ 16 }
    ensures says { OnOk result (Appends (IsInteger kind bytes.now) out.old.items out.new.items) }
    ensures bytes { OnOk result (out.new.items ≡ out.old.items ++ integer_bytes kind bytes.now) }
{
    push_sized(out, kind, significant(bytes))
}

/// Appends a number, or a truth value, whose size is the value.
pub fn push_number(out: &mut Vec<u8>, number: Number) -> Result<(), AllocError>
    ensures says { OnOk result (Appends (IsScalar (scalar_of number)) out.old.items out.new.items) }
    ensures bytes { OnOk result (out.new.items ≡ out.old.items ++ scalar_bytes (scalar_of number)) }
{
    match number {
        Number::Bool(truth) => push_header(out, BOOL, usize::from(truth)),
        Number::I32(integer) => push_integer(out, I32, &integer.cast_unsigned().to_be_bytes()),
        Number::U16(integer) => push_integer(out, U16, &integer.to_be_bytes()),
        Number::U32(integer) => push_integer(out, U32, &integer.to_be_bytes()),
        Number::U64(integer) => push_integer(out, U64, &integer.to_be_bytes()),
        Number::U128(integer) => push_integer(out, U128, &integer.to_be_bytes()),
        Number::Double(double) => push_sized(out, DOUBLE, &double.bits.to_be_bytes()),
        Number::Float(float) => push_sized(out, FLOAT, &float.bits.to_be_bytes()),
    }
}

/// Appends a text.
pub fn push_text(out: &mut Vec<u8>, text: &str) -> Result<(), AllocError>
    requires { length text.now ≤ most_size }
    ensures says { OnOk result (Appends (IsText text.now) out.old.items out.new.items) }
    ensures bytes { let scalar = text_scalar text.now in
        OnOk result (out.new.items ≡ out.old.items ++ scalar_bytes scalar) }
{
    push_sized(out, TEXT, text.as_bytes())
}

// A text, by its bytes.
pub(crate) fn push_text_bytes(out: &mut Vec<u8>, text: &[u8]) -> Result<(), AllocError>
    requires { length text.now ≤ most_size }
    ensures { let scalar = text_scalar text.now in
        OnOk result (Appends (IsScalar scalar) out.old.items out.new.items) }
{
    push_sized(out, TEXT, text)
}

// A string of bytes.
pub(crate) fn push_bytes(out: &mut Vec<u8>, bytes: &[u8]) -> Result<(), AllocError>
    requires { length bytes.now ≤ most_size }
    ensures says { let scalar = bytes_scalar bytes.now in
        OnOk result (Appends (IsScalar scalar) out.old.items out.new.items) }
    ensures bytes { let scalar = bytes_scalar bytes.now in
        OnOk result (out.new.items ≡ out.old.items ++ scalar_bytes scalar) }
{
    push_sized(out, BYTES, bytes)
}
