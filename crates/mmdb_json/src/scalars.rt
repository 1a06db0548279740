//! Values that hold no others, as JSON.
ghost use Rattle.std.specs.Prelude.{◌≡◌, IfSome, OnOk, true};
ghost use Rattle.mmdb_format.specs.Contents.{text as text_scalar, bytes as byte_string, boolean, scalar_payload};
ghost use Rattle.mmdb_format.specs.Views.{content_view};
ghost use Rattle.mmdb_json.specs.Appended.{AppendsScalar, ChargesBytes};
ghost use Rattle.std.specs.Str.{is_utf8};

use crate::budget::Budget;
use crate::draft::Draft;
use crate::numbers::{put_double, put_float, put_number, put_signed, put_wide};
use mmdb_decode::direct::text_of;
use mmdb_format::content::Content;
use std::alloc::AllocError;

/// Texts of fewer bytes are tested for UTF-8 one character after another, longer ones many bytes at a time.
const LONG: usize = 64;

/// The text of bytes, if they are UTF-8.
#[inline(always)]
pub(crate) fn utf8_of(bytes: &[u8]) -> Option<&str>
    ensures same { IfSome result (λ text. text.now ≡ bytes.now) }
    ensures utf8 { IfSome result (λ text. is_utf8 bytes.now ≡ true) }
{
    if bytes.len() < LONG {
        text_of(bytes).ok()
    } else {
        simdutf8::compat::from_utf8(bytes).ok()
    }
}

// Appends a truth value.
fn put_bool(b: bool, out: &mut Draft<'_>) -> Result<(), AllocError>
    ensures { OnOk result (AppendsScalar (boolean b) out.old out.new) }
{
    if b {
        out.put(b"true")
    } else {
        out.put(b"false")
    }
}

// Appends a byte string, as a string of base64.
fn put_bytes<'r>(bytes: &'r [u8], out: &mut Draft<'r>) -> Result<(), AllocError>
    ensures { OnOk result (AppendsScalar (byte_string bytes.now) out.old out.new) }
{
    out.put_bytes(bytes)
}

// Appends a text. Whether it is UTF-8, and there was memory.
#[inline(always)]
fn put_text<'r>(bytes: &'r [u8], out: &mut Draft<'r>) -> bool
    ensures { result ≡ true → AppendsScalar (text_scalar bytes.now) out.old out.new }
{
    match utf8_of(bytes) {
        Some(text) => out.put_string(text).is_ok(),
        None => false,
    }
}

/// Appends a content, whose bytes are charged if it is a text or a byte string. Whether enough are left, a text is UTF-8,
/// and there was memory.
#[inline(always)]
pub(crate) fn put_content<'r>(
    content: Content<'r>,
    budget: &mut Budget,
    out: &mut Draft<'r>,
) -> bool
    ensures written { result ≡ true → AppendsScalar (content_view content.entry) out.old out.new }
    ensures charged { result ≡ true
        → ChargesBytes budget.old budget.new (scalar_payload (content_view content.entry)) }
{
    match content {
        Content::Text(bytes) => budget.charge_bytes(bytes.len()) && put_text(bytes, out),
        Content::Bytes(bytes) => {
            budget.charge_bytes(bytes.len()) && put_bytes(bytes, out).is_ok()
        }
        Content::Bool(b) => put_bool(b, out).is_ok(),
        Content::I32(n) => put_signed(n, out).is_ok(),
        Content::U16(n) => put_number(u64::from(n), out).is_ok(),
        Content::U32(n) => put_number(u64::from(n), out).is_ok(),
        Content::U64(n) => put_number(n, out).is_ok(),
        Content::U128(n) => put_wide(n, out).is_ok(),
        Content::Double(x) => put_double(x, out).is_ok(),
        Content::Float(x) => put_float(x, out).is_ok(),
    }
}
