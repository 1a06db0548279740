//! A section in which values that are used once stand in line.
ghost use Rattle.std.specs.Prelude.{◌≡◌, ◌≤◌, ◌<◌, ℕ, List, length, IfOk, OnOk, IfSome, None};
ghost use Rattle.mmdb_format.specs.Contents.{scalar_payload};
ghost use Rattle.mmdb_format.specs.Views.{content_view};
ghost use Rattle.mmdb_section.specs.declared.moved.Place.{Place as SpecPlace};
ghost use Rattle.mmdb_section.specs.Encoding.{Appends, IsScalar};
ghost use Rattle.mmdb_section.specs.Moved.{HasPlace, MovesTo, AreInOrder, IsMoved};
ghost use Rattle.mmdb_section.specs.MovedWorking.{Replaces, MovesScalar, MovesPart, MovesParts, MovesPairs, MovesValue, TakesValue, Places};
ghost use Rattle.mmdb_section.specs.Sections.{Tile, AreTiles, most_size};

use crate::header::{MOST_SIZE, push_header};
use crate::pointer::push_pointer;
use crate::scalar::{push_bytes, push_number, push_text_bytes};
use crate::uses::Uses;
use crate::value::Number;
use mmdb_format::content::{Content, content_at, content_end};
use mmdb_format::decode_error_kind::DecodeErrorKind;
use mmdb_format::header::{Header, header_at, pointer_at};
use mmdb_format::kind::{ARRAY, MAP, POINTER};
use std::alloc::{AllocError, AllocFailed, Global};

// Why a section is not moved: out of memory, or it is not laid out as a `Section` is.
#[derive(Clone, Copy, Debug, PartialEq, Eq)]
pub(crate) enum NotMoved {
    Memory,
    Unlike,
}

impl From<AllocError> for NotMoved {
    fn from(_error: AllocError) -> NotMoved {
        NotMoved::Memory
    }
}

impl<T: Drop> From<AllocFailed<T>> for NotMoved {
    fn from(_error: AllocFailed<T>) -> NotMoved {
        NotMoved::Memory
    }
}

impl From<DecodeErrorKind> for NotMoved {
    fn from(_error: DecodeErrorKind) -> NotMoved {
        NotMoved::Unlike
    }
}

// Where a value went: it stands by itself, or its bytes are those that stand in line.
#[derive(Drop)]
enum Place {
    At(u32),
    InLine(Vec<u8>),
}

// The offset at which a value began, and where it went.
#[derive(Drop)]
struct Moved {
    from: u32,
    place: Place,
}

/// A section in which values that are used once stand in line.
#[derive(Drop)]
pub struct MovedSection {
    bytes: Vec<u8>,
    /// In the order of the offsets at which they began.
    moved: Vec<Moved>,
}

// Where the value that began at an offset went.
fn find(moved: &[Moved], from: usize) -> Option<&Place>
    ensures found { IfSome result (λ place. HasPlace moved.now from place.now) }
    ensures none { result ≡ None → AreInOrder moved.now
        → (place : SpecPlace) → ¬ HasPlace moved.now from place }
{
    let index = moved.partition_point(|value| (value.from as usize) < from);
    let value = moved.get(index)?;
    if value.from as usize == from {
        Some(&value.place)
    } else {
        None
    }
}

// In place of a pointer: one to where the value is now, or the value.
fn put_place(out: &mut Vec<u8>, moved: &[Moved], from: usize) -> Result<(), NotMoved>
    ensures { OnOk result (Appends (Replaces moved.now from) out.old.items out.new.items) }
{
    match find(moved, from) {
        Some(Place::At(to)) => Ok(push_pointer(out, *to)?),
        Some(Place::InLine(bytes)) => Ok(out.extend_from_slice(bytes)?),
        None => Err(NotMoved::Unlike),
    }
}

// A value that holds no others.
fn put_content(out: &mut Vec<u8>, content: Content<'_>) -> Result<(), AllocError>
    requires { scalar_payload (content_view content) ≤ most_size }
    ensures { OnOk result
        (Appends (IsScalar (content_view content.entry)) out.old.items out.new.items) }
{
    match content {
        Content::Text(text) => push_text_bytes(out, text),
        Content::Bytes(bytes) => push_bytes(out, bytes),
        Content::Bool(truth) => push_number(out, Number::Bool(truth)),
        Content::I32(integer) => push_number(out, Number::I32(integer)),
        Content::U16(integer) => push_number(out, Number::U16(integer)),
        Content::U32(integer) => push_number(out, Number::U32(integer)),
        Content::U64(integer) => push_number(out, Number::U64(integer)),
        Content::U128(integer) => push_number(out, Number::U128(integer)),
        Content::Double(double) => push_number(out, Number::Double(double)),
        Content::Float(float) => push_number(out, Number::Float(float)),
    }
}

// A value that holds no others, by its header in the section. Answers where it ended.
fn put_scalar(out: &mut Vec<u8>, section: &[u8], header: Header) -> Result<usize, NotMoved>
    ensures { IfOk result (λ end.
        Appends (MovesScalar section.now header end) out.old.items out.new.items) }
{
    if header.size > MOST_SIZE {
        return Err(NotMoved::Unlike);
    }
    let content = content_at(section, header)?;
    put_content(out, content)?;
    Ok(content_end(header))
}

// A part of an array or a map. Answers where it ended.
fn put_part(
    out: &mut Vec<u8>,
    section: &[u8],
    moved: &[Moved],
    at: usize,
) -> Result<usize, NotMoved>
    ensures { IfOk result (λ end.
        Appends (MovesPart section.now moved.now at end) out.old.items out.new.items) }
{
    let header = header_at(section, at)?;
    if header.kind != POINTER {
        return put_scalar(out, section, header);
    }
    let pointer = pointer_at(section, header.body, header.size as u8)?;
    put_place(out, moved, pointer.target)?;
    Ok(pointer.next)
}

// The elements of an array. Answers where they ended.
fn put_parts(
    out: &mut Vec<u8>,
    section: &[u8],
    moved: &[Moved],
    from: usize,
    count: usize,
) -> Result<usize, NotMoved>
    ensures { IfOk result (λ end.
        Appends (MovesParts section.now moved.now from count end) out.old.items out.new.items) }
{
    let mut at = from;
    let mut left = count;
    while left > 0 {
        at = put_part(out, section, moved, at)?;
        left -= 1;
    }
    Ok(at)
}

// The pairs of a map. Answers where they ended.
fn put_pairs(
    out: &mut Vec<u8>,
    section: &[u8],
    moved: &[Moved],
    from: usize,
    count: usize,
) -> Result<usize, NotMoved>
    ensures { IfOk result (λ end.
        Appends (MovesPairs section.now moved.now from count end) out.old.items out.new.items) }
{
    let mut at = from;
    let mut left = count;
    while left > 0 {
        let value = put_part(out, section, moved, at)?;
        at = put_part(out, section, moved, value)?;
        left -= 1;
    }
    Ok(at)
}

// A value of a section. Answers where it ended.
fn put_value(
    out: &mut Vec<u8>,
    section: &[u8],
    moved: &[Moved],
    at: usize,
) -> Result<usize, NotMoved>
    ensures { IfOk result (λ end.
        Appends (MovesValue section.now moved.now at end) out.old.items out.new.items) }
{
    let header = header_at(section, at)?;
    if header.size > MOST_SIZE {
        return Err(NotMoved::Unlike);
    }
    match header.kind {
        POINTER => Err(NotMoved::Unlike),
        ARRAY => {
            push_header(out, ARRAY, header.size)?;
            put_parts(out, section, moved, header.body, header.size)
        }
        MAP => {
            push_header(out, MAP, header.size)?;
            put_pairs(out, section, moved, header.body, header.size)
        }
        _ => put_scalar(out, section, header),
    }
}

impl MovedSection {
    // Puts the bytes of a value after the others, unless they are to stand in line.
    fn place(&mut self, value: Vec<u8>, is_in_line: bool) -> Result<Place, NotMoved>
        ensures { IfOk result (Places value.items self.old self.new) }
    {
        if is_in_line {
            return Ok(Place::InLine(value));
        }
        let Ok(to) = u32::try_from(self.bytes.len()) else {
            return Err(NotMoved::Unlike);
        };
        self.bytes.extend_from_slice(&value)?;
        Ok(Place::At(to))
    }

    // Takes the value at an offset of a section. Answers where it ended.
    fn take(
        &mut self,
        alloc: Global,
        section: &[u8],
        uses: &Uses,
        at: usize,
    ) -> Result<usize, NotMoved>
        ensures { IfOk result (TakesValue section.now at self.old self.new) }
    {
        let Ok(from) = u32::try_from(at) else {
            return Err(NotMoved::Unlike);
        };
        let mut value = Vec::new(alloc);
        let end = put_value(&mut value, section, &self.moved, at)?;
        let place = self.place(value, uses.is_once(at))?;
        self.moved.push(Moved { from, place })?;
        Ok(end)
    }
}

impl MovedSection {
    // The values of a section, moved one after the other.
    fn of(alloc: Global, section: &[u8], whole: &[u32]) -> Result<MovedSection, NotMoved>
        ensures { IfOk result (λ m.
            (tiles : List Tile) → AreTiles tiles section.now → IsMoved tiles m) }
    {
        let uses = Uses::of(alloc, section, whole)?;
        let mut now = MovedSection {
            bytes: Vec::new(alloc),
            moved: Vec::new(alloc),
        };
        let mut at = 0;
        // There are no more values than bytes.
        for _ in 0..section.len() {
            if at < section.len() {
                at = now.take(alloc, section, &uses, at)?;
            }
        }
        Ok(now)
    }

    /// Where the value that began at an offset is now, if it stands by itself.
    pub fn offset(&self, from: u32) -> Option<u32>
        ensures moves { IfSome result (MovesTo self.now from) }
        ensures none { result ≡ None → (tiles : List Tile) → IsMoved tiles self.now
            → (to : ℕ) → ¬ MovesTo self.now from to }
    {
        match find(&self.moved, from as usize)? {
            Place::At(to) => Some(*to),
            Place::InLine(_) => None,
        }
    }

    /// The bytes of the section.
    pub fn into_bytes(self) -> Vec<u8>
        ensures { result ≡ self.bytes }
    {
        self.bytes
    }
}

/// The values of a section anew: one to which one pointer leads, and which is none of those that are to stand by themselves, is
/// put in place of that pointer. Answers none where that is not shorter.
pub fn in_line(
    alloc: Global,
    section: &[u8],
    whole: &[u32],
) -> Result<Option<MovedSection>, AllocError>
    ensures moved { IfOk result (λ moved. IfSome moved (λ m.
        (tiles : List Tile) → AreTiles tiles section.now → IsMoved tiles m)) }
    ensures shorter { IfOk result (λ moved. IfSome moved (λ m.
        length m.bytes.items < length section.now)) }
{
    match MovedSection::of(alloc, section, whole) {
        Ok(moved) if moved.bytes.len() < section.len() => Ok(Some(moved)),
        Err(NotMoved::Memory) => Err(AllocError),
        _ => Ok(None),
    }
}
