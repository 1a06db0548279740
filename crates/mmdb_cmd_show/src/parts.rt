//! What stands at an offset of a data section.
use mmdb_format::content::{Content, content_at, content_end};
use mmdb_format::header::{Header, Pointer, header_at, pointer_at};
use mmdb_format::kind::{ARRAY, Kind, MAP, POINTER};

/// A value that holds no others.
#[derive(Clone, Copy)]
pub(crate) struct Scalar<'s> {
    pub(crate) kind: Kind,
    /// The bytes of a text, none of any other value.
    pub(crate) text: &'s [u8],
    /// The offset behind it.
    pub(crate) end: usize,
}

/// What stands at an offset.
#[derive(Clone, Copy)]
pub(crate) enum Part<'s> {
    Pointer(Pointer),
    Map(Header),
    Array(Header),
    Scalar(Scalar<'s>),
}

// The pointer after a header.
fn pointer_behind(section: &[u8], header: Header) -> Option<Pointer> {
    if header.size >= 32 {
        return None;
    }
    match pointer_at(section, header.body, header.size as u8) {
        Ok(pointer) => Some(pointer),
        Err(_) => None,
    }
}

// The value after a header, which holds no others.
fn scalar_behind(section: &[u8], header: Header) -> Option<Scalar<'_>> {
    let Ok(content) = content_at(section, header) else {
        return None;
    };
    Some(Scalar {
        kind: Kind::of_number(header.kind),
        text: match content {
            Content::Text(text) => text,
            _ => &[],
        },
        end: content_end(header),
    })
}

/// What stands at an offset, none where nothing can be read.
pub(crate) fn part_at(section: &[u8], offset: usize) -> Option<Part<'_>> {
    let Ok(header) = header_at(section, offset) else {
        return None;
    };
    Some(match header.kind {
        POINTER => Part::Pointer(pointer_behind(section, header)?),
        MAP => Part::Map(header),
        ARRAY => Part::Array(header),
        _ => Part::Scalar(scalar_behind(section, header)?),
    })
}
