//! Values that hold no others, side by side.
ghost use Rattle.std.specs.Prelude.{◌≡◌, true};
ghost use Rattle.mmdb_format.specs.Contents.{scalar_is_text};
ghost use Rattle.mmdb_format.specs.Views.{content_view};

use mmdb_format::content::Content;
use mmdb_format::utf8::is_utf8;

/// Whether a content, if it is a text, is UTF-8.
#[inline(always)]
pub(crate) fn is_text(content: Content<'_>) -> bool
    ensures { result ≡ true → scalar_is_text (content_view content.entry) ≡ true }
{
    match content {
        Content::Text(bytes) => is_utf8(bytes),
        _ => true,
    }
}

/// Whether two contents are the same.
#[inline(always)]
pub(crate) fn are_same(old: Content<'_>, new: Content<'_>) -> bool
    ensures { result ≡ true → content_view old.entry ≡ content_view new.entry }
{
    match (old, new) {
        (Content::Text(old), Content::Text(new)) => old == new,
        (Content::Bytes(old), Content::Bytes(new)) => old == new,
        (Content::Bool(old), Content::Bool(new)) => old == new,
        (Content::I32(old), Content::I32(new)) => old == new,
        (Content::U16(old), Content::U16(new)) => old == new,
        (Content::U32(old), Content::U32(new)) => old == new,
        (Content::U64(old), Content::U64(new)) => old == new,
        (Content::U128(old), Content::U128(new)) => old == new,
        (Content::Double(old), Content::Double(new)) => old.bits == new.bits,
        (Content::Float(old), Content::Float(new)) => old.bits == new.bits,
        _ => false,
    }
}
