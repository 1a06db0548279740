//! A value and all that it holds as a list, in memory that C gives.

ghost use Rattle.std.specs.Prelude.{◌≡◌, ◌<◌, ◌≤◌, ◌%◌, ◌^◌, ◌||◌, [], ◌∷◌, length, nat_eq, IsTrue, IfOk, IfErr, Err, Some, None, option_map};
ghost use Rattle.std.specs.Result.{result_ok};
ghost use Rattle.mmdb_format.specs.Views.{content_view};
ghost use Rattle.mmdb_c.specs.Items.{high_of};
ghost use Rattle.mmdb_c.specs.List.{place_at as spec_place_at, part, part_low, part_size, is_container, count_of as spec_count_of, scalar_parts_at, listed, list_at, Passes, HasList, HasNoRoom};
ghost use Rattle.mmdb_c.specs.Working.{IsListed};

use mmdb_format::content::{Content, content_at, content_end};
use mmdb_format::header::{Header, header_at, pointer_at};
use mmdb_format::kind::{ARRAY, MAP, POINTER};

/// A part of a list, laid out as `MMDB_entry_data_list_s` on a machine of 64 bits. For a text or bytes `low` is
/// the offset of their first byte; C puts the address there, and links the parts.
#[repr(C)]
#[derive(Clone, Copy)]
pub struct ListPart {
    pub has_data: u64,
    pub unused: u64,
    pub low: u64,
    pub high: u64,
    pub offset: u32,
    pub next: u32,
    pub size: u32,
    pub kind: u32,
    pub link: usize,
    pub pool: usize,
}

// Why a list stopped.
#[derive(Clone, Copy)]
enum ListStop {
    Damaged,
    Full,
}

// How many parts are there, and the offset after the value.
#[derive(Clone, Copy)]
struct Filled {
    parts: usize,
    next: usize,
}

#[inline(always)]
fn short(n: usize) -> u32
    ensures { result ≡ n % 2 ^ 32 }
{
    (n % (1 << 32)) as u32
}

/// A value that is no pointer: its offset, its header, and the offset after the pointer that led to it.
#[derive(Clone, Copy)]
pub struct EntryPlace {
    pub offset: usize,
    pub header: Header,
    pub after: Option<usize>,
}

// The value that an offset stands for, through one pointer or none.
#[inline(always)]
#[tactic(auto, unfolding(crate::specs::List::place_at))]
fn place_at(section: &[u8], offset: usize) -> Result<EntryPlace, ListStop>
    ensures value { result_ok result ≡ spec_place_at section.now offset }
    ensures bound { IfOk result (λ place. place.header.size < 2 ^ 25) }
    ensures damaged { IfErr result (λ stop. stop ≡ ListStop.Damaged) }
{
    let Ok(own) = header_at(section, offset) else {
        return Err(ListStop::Damaged);
    };
    if own.kind != POINTER {
        return Ok(EntryPlace {
            offset,
            header: own,
            after: None,
        });
    }
    let Ok(pointer) = pointer_at(section, own.body, own.size as u8) else {
        return Err(ListStop::Damaged);
    };
    let Ok(header) = header_at(section, pointer.target) else {
        return Err(ListStop::Damaged);
    };
    if header.kind == POINTER {
        return Err(ListStop::Damaged);
    }
    Ok(EntryPlace {
        offset: pointer.target,
        header,
        after: Some(pointer.next),
    })
}

#[inline(always)]
fn make_part(place: EntryPlace, next: usize, size: usize, low: u64, high: u64) -> ListPart
    ensures { result ≡ part place next size low high }
{
    ListPart {
        has_data: 1,
        unused: 0,
        low,
        high,
        offset: short(place.offset),
        next: short(next),
        size: short(size),
        kind: u32::from(place.header.kind),
        link: 0,
        pool: 0,
    }
}

// The number of a content in two halves; of a text or bytes where they begin; and its size, which numbers have not.
#[inline(always)]
fn number_of(header: Header, content: Content<'_>) -> (u64, u64, usize)
    ensures low { result.0 ≡ part_low header (content_view content.entry) }
    ensures high { result.1 ≡ high_of (content_view content.entry) }
    ensures size { result.2 ≡ part_size header (content_view content.entry) }
{
    match content {
        Content::Text(_) | Content::Bytes(_) => (header.body as u64, 0, header.size),
        Content::Bool(b) => (u64::from(b), 0, 0),
        Content::I32(n) => (u64::from(n.cast_unsigned()), 0, 0),
        Content::U16(n) => (u64::from(n), 0, 0),
        Content::U32(n) => (u64::from(n), 0, 0),
        Content::U64(n) => (n, 0, 0),
        Content::U128(n) => ((n % (1 << 64)) as u64, (n >> 64) as u64, 0),
        Content::Double(x) => (x.bits, 0, 0),
        Content::Float(x) => (u64::from(x.bits), 0, 0),
    }
}

// Whether the parts of a value follow it, and how many values they are.
#[inline(always)]
fn holds_parts(header: Header) -> bool
    ensures { result ≡ is_container header }
{
    header.kind == MAP || header.kind == ARRAY
}

#[inline(always)]
fn count_of(header: Header) -> usize
    requires { header.size < 2 ^ 25 }
    ensures { result ≡ spec_count_of header }
{
    if header.kind == MAP {
        2 * header.size
    } else {
        header.size
    }
}

// The part of a value that holds no others, and the offset after it.
#[inline(always)]
fn scalar_part(section: &[u8], place: EntryPlace) -> Result<(ListPart, usize), ListStop>
    ensures value { option_map (λ x. (x.0 ∷ [], x.1)) (result_ok result) ≡
        scalar_parts_at section.now place }
    ensures damaged { IfErr result (λ stop. stop ≡ ListStop.Damaged) }
{
    let Ok(content) = content_at(section, place.header) else {
        return Err(ListStop::Damaged);
    };
    let next = place.after.unwrap_or(content_end(place.header));
    let (low, high, size) = number_of(place.header, content);
    Ok((make_part(place, next, size, low, high), next))
}

// Appends the parts of the value at an offset.
fn put(
    section: &[u8],
    offset: usize,
    out: &mut [ListPart],
    parts: usize,
    levels: u16,
) -> Result<Filled, ListStop>
    ensures listed { IfOk result (λ r.
        IsListed (listed levels section.now offset) parts r.parts r.next out.old out.new) }
    ensures damaged { result ≡ Err ListStop.Damaged → listed levels section.now offset ≡ None }
    ensures full { result ≡ Err ListStop.Full →
        Passes (listed levels section.now offset) parts out.old }
    ensures room { length out.new ≡ length out.old }
{
    if levels == 0 {
        return Err(ListStop::Damaged);
    }
    if parts >= out.len() {
        return Err(ListStop::Full);
    }
    let place = place_at(section, offset)?;
    if !holds_parts(place.header) {
        let (part, next) = scalar_part(section, place)?;
        out[parts] = part;
        return Ok(Filled {
            parts: parts + 1,
            next,
        });
    }
    let mut filled = Filled {
        parts: parts + 1,
        next: place.header.body,
    };
    let count = count_of(place.header);
    for _ in 0..count {
        filled = put(section, filled.next, out, filled.parts, levels - 1)?;
    }
    let next = place.after.unwrap_or(filled.next);
    out[parts] = make_part(place, next, place.header.size, 0, 0);
    Ok(Filled {
        parts: filled.parts,
        next,
    })
}

/// Writes the list of the value at an offset: the value and all that it holds, each map and array before its parts,
/// pointers followed. 0 and how many parts, 7 where the value has no list within 512 levels, as it is damaged or
/// too deep, and 5 where a list has more parts than there is room. Where there is no list, the room may be used up
/// before this is found, and the status is 5 as well.
#[unsafe(no_mangle)]
pub extern "C" fn mmdb_c_list(
    section: &[u8],
    offset: usize,
    out: &mut [ListPart],
    count: &mut usize,
) -> u32
    ensures statuses { IsTrue (nat_eq result 0 || nat_eq result 5 || nat_eq result 7) }
    ensures listed { result ≡ 0 → HasList section.now offset count.new out.old out.new }
    ensures no_list { result ≡ 7 → list_at section.now offset ≡ None }
    ensures no_room { result ≡ 5 → HasNoRoom section.now offset out.old }
    ensures room { result ≡ 0 → count.new ≤ length out.old }
    ensures some { result ≡ 0 → 0 < count.new }
{
    match put(section, offset, out, 0, 512) {
        Ok(filled) => {
            *count = filled.parts;
            0
        }
        Err(ListStop::Damaged) => 7,
        Err(ListStop::Full) => 5,
    }
}
