//! What no clause says: that values are added where there is memory, and which bytes they have. The rows have those of
//! "Output Data Section" of the MaxMind DB File Format Specification 2.0. Each public call runs once.
use mmdb_format::content::{Double, Float};
use mmdb_section::laws::{at_most_twice_as_deep, equal_values_stand_once, sections_are_good};
use mmdb_section::{
    MovedSection, Number, Section, SectionError, SectionPart, WrittenValue, in_line,
};
use mmdb_vectors::hoard::{Outcome, fail_in_turn};
use std::alloc::{AllocError, Global};

/// Values that are added one after the other, the parts that stand for them, and the bytes of the section then.
#[derive(Clone, Copy)]
struct Row {
    name: &'static str,
    values: &'static [WrittenValue<'static>],
    parts: &'static [SectionPart],
    bytes: &'static [u8],
}

const ROWS: &[Row] = &[
    Row {
        name: "nothing",
        values: &[],
        parts: &[],
        bytes: &[],
    },
    Row {
        name: "true",
        values: &[WrittenValue::Number(Number::Bool(true))],
        parts: &[SectionPart::At(0)],
        bytes: &[0x01, 0x07],
    },
    Row {
        name: "false",
        values: &[WrittenValue::Number(Number::Bool(false))],
        parts: &[SectionPart::At(0)],
        bytes: &[0x00, 0x07],
    },
    Row {
        name: "an unsigned number of 16 bits that is 0",
        values: &[WrittenValue::Number(Number::U16(0))],
        parts: &[SectionPart::At(0)],
        bytes: &[0xA0],
    },
    Row {
        name: "one of a byte",
        values: &[WrittenValue::Number(Number::U16(255))],
        parts: &[SectionPart::At(0)],
        bytes: &[0xA1, 0xFF],
    },
    Row {
        name: "one of two bytes",
        values: &[WrittenValue::Number(Number::U16(256))],
        parts: &[SectionPart::At(0)],
        bytes: &[0xA2, 0x01, 0x00],
    },
    Row {
        name: "an unsigned number of 32 bits",
        values: &[WrittenValue::Number(Number::U32(0x01_00_00))],
        parts: &[SectionPart::At(0)],
        bytes: &[0xC3, 0x01, 0x00, 0x00],
    },
    Row {
        name: "the greatest of 32 bits",
        values: &[WrittenValue::Number(Number::U32(u32::MAX))],
        parts: &[SectionPart::At(0)],
        bytes: &[0xC4, 0xFF, 0xFF, 0xFF, 0xFF],
    },
    Row {
        name: "a signed number that is 0",
        values: &[WrittenValue::Number(Number::I32(0))],
        parts: &[SectionPart::At(0)],
        bytes: &[0x00, 0x01],
    },
    Row {
        name: "a signed number of a byte",
        values: &[WrittenValue::Number(Number::I32(200))],
        parts: &[SectionPart::At(0)],
        bytes: &[0x01, 0x01, 0xC8],
    },
    Row {
        name: "a negative number",
        values: &[WrittenValue::Number(Number::I32(-2))],
        parts: &[SectionPart::At(0)],
        bytes: &[0x04, 0x01, 0xFF, 0xFF, 0xFF, 0xFE],
    },
    Row {
        name: "an unsigned number of 64 bits",
        values: &[WrittenValue::Number(Number::U64(1 << 56))],
        parts: &[SectionPart::At(0)],
        bytes: &[0x08, 0x02, 0x01, 0x00, 0x00, 0x00, 0x00, 0x00, 0x00, 0x00],
    },
    Row {
        name: "an unsigned number of 128 bits",
        values: &[WrittenValue::Number(Number::U128(1 << 64))],
        parts: &[SectionPart::At(0)],
        bytes: &[
            0x09, 0x03, 0x01, 0x00, 0x00, 0x00, 0x00, 0x00, 0x00, 0x00, 0x00,
        ],
    },
    Row {
        name: "a number of double precision",
        values: &[WrittenValue::Number(Number::Double(Double {
            bits: 0x4008_0000_0000_0000,
        }))],
        parts: &[SectionPart::At(0)],
        bytes: &[0x68, 0x40, 0x08, 0x00, 0x00, 0x00, 0x00, 0x00, 0x00],
    },
    Row {
        name: "a number of single precision",
        values: &[WrittenValue::Number(Number::Float(Float { bits: 0x3F8C_CCCD }))],
        parts: &[SectionPart::At(0)],
        bytes: &[0x04, 0x08, 0x3F, 0x8C, 0xCC, 0xCD],
    },
    Row {
        name: "a text",
        values: &[WrittenValue::Text("foo")],
        parts: &[SectionPart::At(0)],
        bytes: &[0x43, 0x66, 0x6F, 0x6F],
    },
    Row {
        name: "no bytes",
        values: &[WrittenValue::Bytes(&[])],
        parts: &[SectionPart::At(0)],
        bytes: &[0x80],
    },
    Row {
        name: "a string of bytes",
        values: &[WrittenValue::Bytes(&[0x2A, 0])],
        parts: &[SectionPart::At(0)],
        bytes: &[0x82, 0x2A, 0x00],
    },
    Row {
        name: "an empty array",
        values: &[WrittenValue::Array(&[])],
        parts: &[SectionPart::At(0)],
        bytes: &[0x00, 0x04],
    },
    Row {
        name: "an array of numbers",
        values: &[WrittenValue::Array(&[
            SectionPart::Number(Number::U16(1)),
            SectionPart::Number(Number::Bool(true)),
        ])],
        parts: &[SectionPart::At(0)],
        bytes: &[0x02, 0x04, 0xA1, 0x01, 0x01, 0x07],
    },
    Row {
        name: "an empty map",
        values: &[WrittenValue::Map(&[])],
        parts: &[SectionPart::At(0)],
        bytes: &[0xE0],
    },
    Row {
        name: "a map whose key and value are texts behind pointers",
        values: &[
            WrittenValue::Text("en"),
            WrittenValue::Text("foo"),
            WrittenValue::Map(&[(SectionPart::At(0), SectionPart::At(3))]),
        ],
        parts: &[SectionPart::At(0), SectionPart::At(3), SectionPart::At(7)],
        bytes: &[
            0x42, 0x65, 0x6E, 0x43, 0x66, 0x6F, 0x6F, 0xE1, 0x20, 0x00, 0x20, 0x03,
        ],
    },
    Row {
        name: "equal values stand once",
        values: &[
            WrittenValue::Text("en"),
            WrittenValue::Array(&[SectionPart::At(0)]),
            WrittenValue::Text("en"),
            WrittenValue::Array(&[SectionPart::At(0)]),
        ],
        parts: &[
            SectionPart::At(0),
            SectionPart::At(3),
            SectionPart::At(0),
            SectionPart::At(3),
        ],
        bytes: &[0x42, 0x65, 0x6E, 0x01, 0x04, 0x20, 0x00],
    },
    Row {
        name: "the same bytes as a text and as bytes",
        values: &[
            WrittenValue::Text("a"),
            WrittenValue::Bytes(b"a"),
            WrittenValue::Text("a"),
        ],
        parts: &[SectionPart::At(0), SectionPart::At(2), SectionPart::At(0)],
        bytes: &[0x41, 0x61, 0x81, 0x61],
    },
    Row {
        name: "the beginning of another value",
        values: &[
            WrittenValue::Array(&[SectionPart::Number(Number::U16(0))]),
            WrittenValue::Array(&[
                SectionPart::Number(Number::U16(0)),
                SectionPart::Number(Number::U16(0)),
            ]),
            WrittenValue::Array(&[SectionPart::Number(Number::U16(0))]),
        ],
        parts: &[SectionPart::At(0), SectionPart::At(3), SectionPart::At(0)],
        bytes: &[0x01, 0x04, 0xA0, 0x02, 0x04, 0xA0, 0xA0],
    },
];

// The parts that stand for values which are added one after the other.
fn parts_of(
    alloc: Global,
    section: &mut Section,
    values: &[WrittenValue<'_>],
) -> Result<Vec<SectionPart>, SectionError> {
    let mut parts = Vec::new(alloc);
    for value in values {
        let offset = section.add(alloc, *value)?;
        parts.push(SectionPart::At(offset))?;
    }
    Ok(parts)
}

fn holds(alloc: Global, row: &Row) -> Result<bool, SectionError> {
    let mut section = Section::new(alloc);
    let parts = parts_of(alloc, &mut section, row.values)?;
    Ok(parts.as_slice() == row.parts && section.bytes() == row.bytes)
}

#[test]
fn calls_succeed(rt: HostRuntime) {
    for row in ROWS {
        let holds = holds(rt.alloc(), row);
        assert!(rt; holds == Ok(true), "{}: {holds:?}", row.name);
    }
}

/// How many bytes a string of bytes has, and its header.
const SIZES: &[(usize, &[u8])] = &[
    (28, &[0x9C]),
    (29, &[0x9D, 0]),
    (284, &[0x9D, 0xFF]),
    (285, &[0x9E, 0, 0]),
    (65_820, &[0x9E, 0xFF, 0xFF]),
    (65_821, &[0x9F, 0, 0, 0]),
    (16_843_036, &[0x9F, 0xFF, 0xFF, 0xFF]),
];

// Adds so many bytes.
fn add_zeros(alloc: Global, section: &mut Section, len: usize) -> Result<u32, SectionError> {
    let zeros = zeros(alloc, len)?;
    section.add(alloc, WrittenValue::Bytes(&zeros))
}

fn zeros(alloc: Global, len: usize) -> Result<Vec<u8>, AllocError> {
    vec![in alloc; 0; len]
}

fn has_header(alloc: Global, len: usize, header: &[u8]) -> Result<bool, SectionError> {
    let mut section = Section::new(alloc);
    add_zeros(alloc, &mut section, len)?;
    let bytes = section.bytes();
    Ok(bytes.starts_with(header) && bytes.len().checked_sub(len) == Some(header.len()))
}

#[test]
fn headers_of_sizes(rt: HostRuntime) {
    for (len, header) in SIZES {
        let holds = has_header(rt.alloc(), *len, header);
        assert!(rt; holds == Ok(true), "{len}: {holds:?}");
    }
}

#[test]
fn larger_than_a_header_can_say(rt: HostRuntime) {
    let mut section = Section::new(rt.alloc());
    let part = add_zeros(rt.alloc(), &mut section, 16_843_037);
    assert!(rt; part == Err(SectionError::TooLarge), "{part:?}");
}

/// How many bytes stand before a value, their header counted, and a pointer to it.
const POINTERS: &[(usize, usize, &[u8])] = &[
    (2_044, 3, &[0x27, 0xFF]),
    (2_045, 3, &[0x28, 0, 0]),
    (526_331, 4, &[0x2F, 0xFF, 0xFF]),
    (526_332, 4, &[0x30, 0, 0, 0]),
];

// The bytes of an array with a pointer to a value that stands behind so many bytes, without those of its header.
fn has_pointer(
    alloc: Global,
    len: usize,
    header: usize,
    pointer: &[u8],
) -> Result<bool, SectionError> {
    let mut section = Section::new(alloc);
    add_zeros(alloc, &mut section, len)?;
    let text = section.add(alloc, WrittenValue::Text("en"))?;
    section.add(alloc, WrittenValue::Array(&[SectionPart::At(text)]))?;
    let start = len.saturating_add(header);
    Ok(Some(text) == u32::try_from(start).ok() && section.bytes().ends_with(pointer))
}

#[test]
fn pointers_of_sizes(rt: HostRuntime) {
    for (len, header, pointer) in POINTERS {
        let holds = has_pointer(rt.alloc(), *len, *header, pointer);
        assert!(rt; holds == Ok(true), "{pointer:?}: {holds:?}");
    }
}

/// Values that are added one after the other, and which of them are to stand by themselves, by their offsets; and, where some
/// are put in line, where each value is then, if it stands by itself, and the bytes.
#[derive(Clone, Copy)]
struct Lines {
    name: &'static str,
    values: &'static [WrittenValue<'static>],
    whole: &'static [u32],
    now: Option<(&'static [(u32, Option<u32>)], &'static [u8])>,
}

const LINES: &[Lines] = &[
    Lines {
        name: "nothing",
        values: &[],
        whole: &[],
        now: None,
    },
    Lines {
        name: "a key that is used once",
        values: &[
            WrittenValue::Text("x"),
            WrittenValue::Map(&[(SectionPart::At(0), SectionPart::Number(Number::U16(5)))]),
        ],
        whole: &[2],
        now: Some((
            &[(0, None), (2, Some(0)), (3, None)],
            &[0xE1, 0x41, b'x', 0xA1, 5],
        )),
    },
    Lines {
        name: "a text that is used twice by one array",
        values: &[
            WrittenValue::Text("x"),
            WrittenValue::Array(&[SectionPart::At(0), SectionPart::At(0)]),
        ],
        whole: &[2],
        now: None,
    },
    Lines {
        name: "a text that is to stand by itself",
        values: &[
            WrittenValue::Text("x"),
            WrittenValue::Array(&[SectionPart::At(0)]),
        ],
        whole: &[0, 2],
        now: None,
    },
    Lines {
        name: "an array in an array",
        values: &[
            WrittenValue::Bytes(&[7]),
            WrittenValue::Array(&[SectionPart::At(0)]),
            WrittenValue::Array(&[SectionPart::At(2)]),
        ],
        whole: &[6],
        now: Some((
            &[(0, None), (2, None), (6, Some(0))],
            &[0x01, 0x04, 0x01, 0x04, 0x81, 7],
        )),
    },
    Lines {
        name: "one text that is used once, and one that is used twice",
        values: &[
            WrittenValue::Text("x"),
            WrittenValue::Text("y"),
            WrittenValue::Array(&[SectionPart::At(0), SectionPart::At(2)]),
            WrittenValue::Array(&[SectionPart::At(2)]),
        ],
        whole: &[4, 10],
        now: Some((
            &[(0, None), (2, Some(0)), (4, Some(2)), (10, Some(8))],
            &[
                0x41, b'y', 0x02, 0x04, 0x41, b'x', 0x20, 0, 0x01, 0x04, 0x20, 0,
            ],
        )),
    },
];

// Whether each value is where it should be now, or does not stand by itself.
fn are_moved(moved: &MovedSection, offsets: &[(u32, Option<u32>)]) -> bool {
    for (from, to) in offsets {
        if moved.offset(*from) != *to {
            return false;
        }
    }
    true
}

// Whether values of the section are put in line, and are where they should be then.
fn is_in_line(alloc: Global, lines: &Lines) -> Result<bool, SectionError> {
    let mut section = Section::new(alloc);
    for value in lines.values {
        section.add(alloc, *value)?;
    }
    let bytes = section.into_bytes();
    let Some(moved) = in_line(alloc, &bytes, lines.whole)? else {
        return Ok(lines.now.is_none());
    };
    let Some((offsets, wanted)) = lines.now else {
        return Ok(false);
    };
    Ok(are_moved(&moved, offsets) && moved.into_bytes().as_slice() == wanted)
}

#[test]
fn values_in_line(rt: HostRuntime) {
    for lines in LINES {
        let holds = is_in_line(rt.alloc(), lines);
        assert!(rt; holds == Ok(true), "{}: {holds:?}", lines.name);
    }
}

// What comes of two values that are added, the last of this many bytes.
fn outcome_of(alloc: Global, len: usize) -> Outcome {
    let mut section = Section::new(alloc);
    let text = section.add(alloc, WrittenValue::Text("en"));
    match text.and_then(|_| add_zeros(alloc, &mut section, len)) {
        Ok(_) => Outcome::Value,
        Err(SectionError::Memory) => Outcome::Memory,
        Err(SectionError::TooLarge) => Outcome::Error,
    }
}

#[test]
fn growths_fail_in_turn(rt: HostRuntime) {
    let alloc = rt.alloc();
    let (rejected, met) = fail_in_turn(alloc, 16, || outcome_of(alloc, 100));
    assert!(rt;
        rejected > 0 && met == Outcome::Value,
        "{rejected}: {met:?}"
    );
}

#[test]
fn laws_are_called() {
    at_most_twice_as_deep();
    sections_are_good();
    equal_values_stand_once();
}
