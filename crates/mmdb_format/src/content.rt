//! The contents of values that hold no others.
ghost use Rattle.std.specs.Prelude.{◌≡◌, ℕ, ◌<◌, ◌≤◌, ◌^◌, ◌+◌, length, Some, IfOk, IfSome};
ghost use Rattle.std.specs.Result.{result_ok};
ghost use Rattle.mmdb_format.specs.Contents.{content_at as spec_content_at, variable_width_integer as spec_variable_width_integer, fixed_width_integer as spec_fixed_width_integer, content_end as spec_content_end, bytes_of_content, scalar_payload, key_bytes_at as spec_key_bytes_at, passed_end as spec_passed_end};
ghost use Rattle.mmdb_format.specs.Kinds.{kind_of_number};
ghost use Rattle.mmdb_format.specs.Views.{content_view, bytes_given, content_given, key_given};

use crate::decode_error_kind::DecodeErrorKind;
use crate::header::{
    Header, bytes_at, direct_at, pointer_at, pointer_bits_at, text_size_at, wide_number_at,
};
use crate::kind::{BOOL, BYTES, DOUBLE, FLOAT, I32, Kind, POINTER, TEXT, U16, U32, U64, U128};

/// The 64 bits of a number of double precision (IEEE 754 binary64).
#[derive(Clone, Copy, Debug, PartialEq, Eq)]
pub struct Double {
    pub bits: u64,
}

/// The 32 bits of a number of single precision (IEEE 754 binary32).
#[derive(Clone, Copy, Debug, PartialEq, Eq)]
pub struct Float {
    pub bits: u32,
}

/// What a value that holds no others says, its text not tested yet.
#[derive(Clone, Copy)]
pub enum Content<'de> {
    Text(&'de [u8]),
    Bytes(&'de [u8]),
    Bool(bool),
    I32(i32),
    U16(u16),
    U32(u32),
    U64(u64),
    U128(u128),
    Double(Double),
    Float(Float),
}

impl Header {
    /// The fault of a size that the type does not have, or that runs past the section.
    #[inline(always)]
    pub fn wrong_size(self) -> DecodeErrorKind
        ensures { result ≡ DecodeErrorKind.SizeOf (kind_of_number self.kind) self.size }
    {
        DecodeErrorKind::SizeOf(Kind::of_number(self.kind), self.size)
    }
}

/// The bytes of a text or a byte string.
#[inline(always)]
pub fn content_bytes(section: &[u8], header: Header) -> Result<&[u8], DecodeErrorKind>
    ensures value { bytes_given result ≡ bytes_of_content section.now header }
    ensures inside { IfOk result (λ x. header.body + header.size ≤ length section.now) }
    ensures len { IfOk result (λ x. length x.now ≡ header.size) }
{
    match bytes_at(section, header.body, header.size) {
        Some(bytes) => Ok(bytes),
        None => Err(header.wrong_size()),
    }
}

/// A number of at most `most` bytes.
#[inline(always)]
pub fn variable_width_integer(
    section: &[u8],
    header: Header,
    most: usize,
) -> Result<u128, DecodeErrorKind>
    requires { most ≤ 16 }
    ensures value { result_ok result ≡ spec_variable_width_integer section.now header most }
    ensures bound { IfOk result (λ n. n < 256 ^ most) }
    ensures inside { IfOk result (λ n. header.body + header.size ≤ length section.now) }
{
    if header.size > most {
        return Err(header.wrong_size());
    }
    match wide_number_at(section, header.body, header.size) {
        Some(n) => Ok(n),
        None => Err(header.wrong_size()),
    }
}

/// A number of exactly `size` bytes.
#[inline(always)]
pub fn fixed_width_integer(
    section: &[u8],
    header: Header,
    size: usize,
) -> Result<u128, DecodeErrorKind>
    requires { size ≤ 16 }
    ensures value { result_ok result ≡ spec_fixed_width_integer section.now header size }
    ensures bound { IfOk result (λ n. n < 256 ^ size) }
    ensures inside { IfOk result (λ n. header.body + header.size ≤ length section.now) }
{
    if header.size != size {
        return Err(header.wrong_size());
    }
    match wide_number_at(section, header.body, header.size) {
        Some(n) => Ok(n),
        None => Err(header.wrong_size()),
    }
}

/// What follows the header of a value that holds no others.
#[inline(always)]
#[tactic(auto, unfolding(crate::specs::Contents::content_at))]
pub fn content_at(section: &[u8], header: Header) -> Result<Content<'_>, DecodeErrorKind>
    ensures value { content_given result ≡ spec_content_at section.now header }
    ensures inside { IfOk result (λ c. spec_content_end header < 2 ^ 64) }
    ensures short { IfOk result (λ c. scalar_payload (content_view c) ≤ header.size) }
{
    Ok(match header.kind {
        TEXT => Content::Text(content_bytes(section, header)?),
        DOUBLE => Content::Double(Double {
            bits: fixed_width_integer(section, header, 8)? as u64,
        }),
        BYTES => Content::Bytes(content_bytes(section, header)?),
        U16 => Content::U16(variable_width_integer(section, header, 2)? as u16),
        U32 => Content::U32(variable_width_integer(section, header, 4)? as u32),
        I32 => {
            let bits = variable_width_integer(section, header, 4)? as u32;
            Content::I32(bits.cast_signed())
        }
        U64 => Content::U64(variable_width_integer(section, header, 8)? as u64),
        U128 => Content::U128(variable_width_integer(section, header, 16)?),
        BOOL if header.size <= 1 => Content::Bool(header.size == 1),
        BOOL => return Err(header.wrong_size()),
        FLOAT => Content::Float(Float {
            bits: fixed_width_integer(section, header, 4)? as u32,
        }),
        kind => return Err(DecodeErrorKind::UnknownType(kind)),
    })
}

/// The offset after the content.
#[inline(always)]
pub fn content_end(header: Header) -> usize
    requires { spec_content_end header < 2 ^ 64 }
    ensures { result ≡ spec_content_end header }
{
    if header.kind == BOOL {
        header.body
    } else {
        header.body + header.size
    }
}

impl Content<'_> {
    /// How many bytes of text or of a byte string it has.
    #[inline(always)]
    pub fn payload(&self) -> usize
        ensures { result ≡ scalar_payload (content_view self.now) }
    {
        match *self {
            Content::Text(x) | Content::Bytes(x) => x.len(),
            _ => 0,
        }
    }
}

// The bytes of a key that is a text to which a pointer leads, as nearly all keys are, and the offset after it.
// Nothing is known of others.
#[inline(always)]
#[tactic(auto, unfolding(crate::specs::Contents::key_bytes_at, crate::specs::Pointer::direct_at, crate::specs::Pointer::behind))]
fn shared_key_at(section: &[u8], offset: usize) -> Option<(&[u8], usize)>
    ensures value { IfSome result (λ x. spec_key_bytes_at section.now offset
        ≡ Some (x.0.now, x.1)) }
    ensures bound { IfSome result (λ x. length x.0.now < 2 ^ 25) }
{
    let low = pointer_bits_at(section, offset)?;
    let Ok(pointer) = pointer_at(section, offset + 1, low) else {
        return None;
    };
    let (size, body) = text_size_at(section, pointer.target)?;
    let bytes = bytes_at(section, body, size)?;
    Some((bytes, pointer.next))
}

/// The bytes of a map's key and the offset after it: a text, directly or through one pointer.
#[inline(always)]
#[tactic(auto, unfolding(crate::specs::Contents::key_bytes_at))]
pub fn key_bytes_at(section: &[u8], offset: usize) -> Result<(&[u8], usize), DecodeErrorKind>
    ensures value { key_given result ≡ spec_key_bytes_at section.now offset }
    ensures bound { IfOk result (λ x. length x.0.now < 2 ^ 25) }
{
    if let Some(key) = shared_key_at(section, offset) {
        return Ok(key);
    }
    let at = direct_at(section, offset, 0)?;
    if at.header.kind != TEXT {
        return Err(DecodeErrorKind::KeyOfType(at.header.kind));
    }
    match bytes_at(section, at.header.body, at.header.size) {
        Some(bytes) => Ok((bytes, at.after.unwrap_or(at.header.body + at.header.size))),
        None => Err(DecodeErrorKind::KeyTooLong),
    }
}

/// The offset after a scalar or a pointer that is passed without being followed.
#[inline(always)]
#[tactic(auto, unfolding(crate::specs::Contents::passed_end))]
pub fn passed_end(section: &[u8], header: Header) -> Result<usize, DecodeErrorKind>
    requires { header.kind ≡ 1 → header.size < 32 }
    ensures { result_ok result ≡ spec_passed_end section.now header }
{
    if header.kind == POINTER {
        let own_bytes = header.size / 8 + 1;
        return match pointer_at(section, header.body, header.size as u8) {
            Ok(pointer) => Ok(pointer.next),
            Err(_) => Err(DecodeErrorKind::PointerSize(own_bytes)),
        };
    }
    content_at(section, header)?;
    Ok(content_end(header))
}
