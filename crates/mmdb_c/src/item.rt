//! One value at an offset of a section.
ghost use Rattle.std.specs.Prelude.{◌≡◌, true, false, Some, None};
ghost use Rattle.std.specs.Result.{result_ok};
ghost use Rattle.mmdb_format.specs.Views.{content_view};
ghost use Rattle.mmdb_c.specs.Items.{low_of, high_of, item_at as spec_item_at};

use mmdb_format::content::{Content, content_at, content_end};
use mmdb_format::decode_error_kind::DecodeErrorKind;
use mmdb_format::header::{Header, Pointer, header_at, pointer_at};
use mmdb_format::kind::{ARRAY, MAP, POINTER};

/// A value: its type's number, its offset, its size (of a map or an array how many parts it has, of a pointer its
/// bytes), where its payload begins, the offset after it (of a map or an array where its first part begins), and
/// the number that it is, or where a pointer leads, in two halves of 64 bits.
#[repr(C)]
#[derive(Clone, Copy)]
pub struct Item {
    pub kind: u32,
    pub size: u32,
    pub offset: usize,
    pub body: usize,
    pub next: usize,
    pub low: u64,
    pub high: u64,
}

// The number of a content in two halves; 0 of a text or bytes.
#[inline(always)]
fn halves(content: Content<'_>) -> (u64, u64)
    ensures low { result.0 ≡ low_of (content_view content.entry) }
    ensures high { result.1 ≡ high_of (content_view content.entry) }
{
    match content {
        Content::Text(_) | Content::Bytes(_) => (0, 0),
        Content::Bool(b) => (u64::from(b), 0),
        Content::I32(n) => (u64::from(n.cast_unsigned()), 0),
        Content::U16(n) => (u64::from(n), 0),
        Content::U32(n) => (u64::from(n), 0),
        Content::U64(n) => (n, 0),
        Content::U128(n) => ((n % (1 << 64)) as u64, (n >> 64) as u64),
        Content::Double(x) => (x.bits, 0),
        Content::Float(x) => (u64::from(x.bits), 0),
    }
}

// The value at an offset; a pointer is not followed.
#[inline(always)]
#[tactic(auto, unfolding(crate::specs::Items::item_at))]
fn item_at(section: &[u8], offset: usize) -> Result<Item, DecodeErrorKind>
    ensures { result_ok result ≡ spec_item_at section.now offset }
{
    let header = header_at(section, offset)?;
    match header.kind {
        POINTER => {
            let pointer = pointer_at(section, header.body, header.size as u8)?;
            Ok(Item {
                kind: 1,
                size: (header.size / 8 + 1) as u32,
                offset,
                body: header.body,
                next: pointer.next,
                low: pointer.target as u64,
                high: 0,
            })
        }
        MAP | ARRAY => Ok(Item {
            kind: u32::from(header.kind),
            size: header.size as u32,
            offset,
            body: header.body,
            next: header.body,
            low: 0,
            high: 0,
        }),
        _ => {
            let content = content_at(section, header)?;
            let (low, high) = halves(content);
            Ok(Item {
                kind: u32::from(header.kind),
                size: header.size as u32,
                offset,
                body: header.body,
                next: content_end(header),
                low,
                high,
            })
        }
    }
}

/// The value at an offset of a section, or false where no value is there. A pointer is not followed.
#[unsafe(no_mangle)]
pub extern "C" fn mmdb_c_value(section: &[u8], offset: usize, item: &mut Item) -> bool
    ensures value { result ≡ true → spec_item_at section.now offset ≡ Some item.new }
    ensures none { result ≡ false → spec_item_at section.now offset ≡ None }
{
    match item_at(section, offset) {
        Ok(found) => {
            *item = found;
            true
        }
        Err(_) => false,
    }
}
