//! The offset that each call of a decoder names where it fails.
//!
//! It is that of the value asked for where its header, its size or its type is wrong, behind a pointer too. Where the
//! bytes of a text, or the size of an array, are read and then found wrong, it is the offset after them.
use mmdb_decode::failed::Failed;
use mmdb_decode::steps::Stepping;
use mmdb_value::{DecodeResult, Decoder, MaxMindDbError, empty_container};
use mmdb_vectors::answer::reported;
use mmdb_vectors::failures::Failures;
use std::alloc::{AllocError, Global};

/// A call of a decoder.
#[derive(Clone, Copy)]
enum Call {
    Bool,
    U16,
    U32,
    U64,
    U128,
    I32,
    Small,
    Double,
    Float,
    Bytes,
    Text,
    Kind,
    Skip,
    Map,
    Array,
    ArrayOfThree,
    Field,
    NextKey,
    RawKey,
    Key,
    Header,
    Pointer,
    Parts,
    Content,
    Empty,
}

/// A call at offset 1 of a section, and what is reported.
type Row = (Call, &'static [u8], &'static str);

/// Values that hold no others.
#[rattlefmt::skip]
const SCALARS: &[Row] = &[
    (Call::Bool, b"\xA0\xA1\x07", "decoding error at offset 1: expected bool, got type 5"),
    (Call::Bool, b"\xA0\x02\x07", "invalid database at offset 1: bool of size 2"),
    (Call::U16, b"\xA0\x41x", "decoding error at offset 1: expected u16, got type 2"),
    (Call::U16, b"\xA0\xA3\0\0\0", "invalid database at offset 1: u16 of size 3"),
    (Call::U16, b"\xA0\xA2\0", "invalid database at offset 1: u16 of size 2"),
    (Call::U16, b"\xA0", "invalid database at offset 1: unexpected end of buffer"),
    (Call::U16, b"\xA0\x00\xF9", "invalid database at offset 1: unknown data type: 256"),
    (Call::U32, b"\xA0\xA1\x07", "decoding error at offset 1: expected u32, got type 5"),
    (Call::U32, b"\xA0\xC5\0\0\0\0\0", "invalid database at offset 1: u32 of size 5"),
    (Call::U64, b"\xA0\xA1\x07", "decoding error at offset 1: expected u64, got type 5"),
    (Call::U64, b"\xA0\x09\x02\0\0\0\0\0\0\0\0\0", "invalid database at offset 1: u64 of size 9"),
    (Call::U128, b"\xA0\xA1\x07", "decoding error at offset 1: expected u128, got type 5"),
    (Call::U128, b"\xA0\x01\x03", "invalid database at offset 1: u128 of size 1"),
    (Call::I32, b"\xA0\xA1\x07", "decoding error at offset 1: expected i32, got type 5"),
    (Call::I32, b"\xA0\x05\x01\0\0\0\0\0", "invalid database at offset 1: i32 of size 5"),
    (Call::Small, b"\xA0\x41x", "decoding error at offset 1: expected a whole number"),
    (Call::Small, b"\xA0\xA3\0\0\0", "invalid database at offset 1: u16 of size 3"),
    (Call::Double, b"\xA0\xA1\x07", "decoding error at offset 1: expected double, got type 5"),
    (Call::Double, b"\xA0\x67\0\0\0\0\0\0\0", "invalid database at offset 1: double of size 7"),
    (Call::Float, b"\xA0\xA1\x07", "decoding error at offset 1: expected float, got type 5"),
    (Call::Float, b"\xA0\x03\x08\0\0\0", "invalid database at offset 1: float of size 3"),
    (Call::Bytes, b"\xA0\xA1\x07", "decoding error at offset 1: expected bytes, got type 5"),
    (Call::Bytes, b"\xA0\x82x", "invalid database at offset 1: bytes of size 2"),
    (Call::Text, b"\xA0\xA1\x07", "decoding error at offset 1: expected string, got type 5"),
    (Call::Text, b"\xA0\x42x", "invalid database at offset 1: string of size 2"),
    (Call::Text, b"\xA0\x41\xFF", "invalid database at offset 3: invalid UTF-8 in string"),
];

/// The same behind a pointer at offset 1, which ends before offset 3.
#[rattlefmt::skip]
const POINTED: &[Row] = &[
    (Call::Bool, b"\xA0\x20\x03\xA1\x07", "decoding error at offset 1: expected bool, got type 5"),
    (Call::U16, b"\xA0\x20\x03\x41x", "decoding error at offset 1: expected u16, got type 2"),
    (Call::U16, b"\xA0\x20\x03\xA3\0\0\0", "invalid database at offset 1: u16 of size 3"),
    (Call::U16, b"\xA0\x20\x09", "invalid database at offset 1: unexpected end of buffer"),
    (Call::U16, b"\xA0\x20\x03\x20\x00", "invalid database at offset 1: pointer points to another pointer"),
    (Call::Small, b"\xA0\x20\x03\x20\x05\x41x", "decoding error at offset 1: expected a whole number"),
    (Call::Double, b"\xA0\x20\x03\xA1\x07", "decoding error at offset 1: expected double, got type 5"),
    (Call::Bytes, b"\xA0\x20\x03\x82x", "invalid database at offset 1: bytes of size 2"),
    (Call::Text, b"\xA0\x20\x05\xA0\xA0\x41\xFF", "invalid database at offset 3: invalid UTF-8 in string"),
    (Call::Kind, b"\xA0\x20\x03\x20\x00", "invalid database at offset 1: pointer points to another pointer"),
    (Call::Map, b"\xA0\x20\x03\x41x", "decoding error at offset 1: expected map, got type 2"),
    (Call::Array, b"\xA0\x20\x03\x41x", "decoding error at offset 1: expected array, got type 2"),
    (Call::Key, b"\xA0\x20\x03\xA1\x07", "invalid database at offset 1: expected string, got type 5"),
    (Call::Empty, b"\xA0\x20\x03\x20\x00", "invalid database at offset 1: pointer points to another pointer"),
];

/// Maps, arrays and their parts. A map of 32,768 pairs has 65,536 parts, one too many.
#[rattlefmt::skip]
const CONTAINERS: &[Row] = &[
    (Call::Map, b"\xA0\x41x", "decoding error at offset 1: expected map, got type 2"),
    (Call::Map, b"\xA0", "invalid database at offset 1: unexpected end of buffer"),
    (
        Call::Map,
        b"\xA0\xFE\x7E\xE3",
        "resource limit exceeded at offset 1: exceeded maximum number of data structure values",
    ),
    (Call::Array, b"\xA0\xE0", "decoding error at offset 1: expected array, got type 7"),
    (
        Call::Array,
        b"\xA0\x1E\x04\xFE\xE3",
        "resource limit exceeded at offset 1: exceeded maximum number of data structure values",
    ),
    (
        Call::ArrayOfThree,
        b"\xA0\x02\x04\xA0\xA0",
        "decoding error at offset 3: expected tuple of length 3, got array of length 2",
    ),
    (Call::ArrayOfThree, b"\xA0\xE0", "decoding error at offset 1: expected array, got type 7"),
    (Call::Field, b"\xA0\xE1\xA1\x07\xA0", "invalid database at offset 2: expected string, got type 5"),
    (Call::Field, b"\xA0\xE1\x42x", "invalid database at offset 2: string length exceeds buffer"),
    (Call::NextKey, b"\xA0\xE1\xA1\x07\xA0", "invalid database at offset 2: expected string, got type 5"),
    (Call::NextKey, b"\xA0\xE1\x41\xFF\xA0", "invalid database at offset 4: invalid UTF-8 in string"),
    (Call::RawKey, b"\xA0\xE1\xA1\x07\xA0", "invalid database at offset 2: expected string, got type 5"),
    (Call::RawKey, b"\xA0\xE1", "invalid database at offset 2: unexpected end of buffer"),
    (Call::Key, b"\xA0\xA1\x07", "invalid database at offset 1: expected string, got type 5"),
    (Call::Key, b"\xA0\x42x", "invalid database at offset 1: string length exceeds buffer"),
];

/// Calls that look at a header, and single steps. 65,536 parts are one too many.
#[rattlefmt::skip]
const STEPS: &[Row] = &[
    (Call::Kind, b"\xA0\x5D", "invalid database at offset 1: unexpected end of buffer"),
    (Call::Skip, b"\xA0\x28\x00", "invalid database at offset 1: pointer of size 2"),
    (Call::Skip, b"\xA0\xE1\x41k\x02\x07", "invalid database at offset 4: bool of size 2"),
    (Call::Empty, b"\xA0\x20", "invalid database at offset 1: unexpected end of buffer"),
    (Call::Header, b"\xA0\x00", "invalid database at offset 1: unexpected end of buffer"),
    (Call::Pointer, b"\xA0\x28\x00", "invalid database at offset 1: unexpected end of buffer"),
    (
        Call::Parts,
        b"\xA0\xE1",
        "resource limit exceeded at offset 1: exceeded maximum number of data structure values",
    ),
    (Call::Content, b"\xA0\xA3\0\0\0", "invalid database at offset 1: u16 of size 3"),
];

// What a call answers, its value let go.
fn done<T: Drop>(answer: DecodeResult<T>) -> Result<(), MaxMindDbError> {
    match answer {
        Ok(_) => Ok(()),
        Err(error) => Err(error),
    }
}

// A call that reads a value which holds no others, or looks at a header.
fn read_scalar(alloc: Global, call: Call, d: &mut Decoder<'_>) -> Result<(), MaxMindDbError> {
    match call {
        Call::Bool => done(d.read_bool(alloc)),
        Call::U16 => done(d.read_u16(alloc)),
        Call::U32 => done(d.read_u32(alloc)),
        Call::U64 => done(d.read_u64(alloc)),
        Call::U128 => done(d.read_u128(alloc)),
        Call::I32 => done(d.read_i32(alloc)),
        Call::Small => done(d.read_small(alloc)),
        Call::Double => done(d.read_double(alloc)),
        Call::Float => done(d.read_float(alloc)),
        Call::Bytes => done(d.read_bytes(alloc)),
        Call::Text => done(d.read_str(alloc)),
        Call::Kind => done(d.peek_kind(alloc)),
        Call::Key => done(d.read_key(alloc)),
        _ => done(d.skip_value(alloc)),
    }
}

// A call that goes into a map, or on to its first key.
fn enter_map(alloc: Global, call: Call, d: &mut Decoder<'_>) -> Result<(), MaxMindDbError> {
    let mut entries = d.begin_map(alloc)?;
    let answer = match call {
        Call::Field => done(d.next_field(alloc, &mut entries)),
        Call::NextKey => done(d.next_key(alloc, &mut entries)),
        Call::RawKey => done(d.next_raw_key(alloc, &mut entries)),
        _ => Ok(()),
    };
    entries.give_up(d);
    answer
}

fn enter_array(alloc: Global, call: Call, d: &mut Decoder<'_>) -> Result<(), MaxMindDbError> {
    let items = match call {
        Call::ArrayOfThree => d.begin_array_of(alloc, 3)?,
        _ => d.begin_array(alloc)?,
    };
    items.give_up(d);
    Ok(())
}

// A single step from the header at the offset.
fn taken(call: Call, d: &mut Decoder<'_>) -> Result<(), Failed> {
    let header = d.try_header()?;
    match call {
        Call::Pointer if header.size < 32 => {
            let _ = d.try_follow(header)?;
            Ok(())
        }
        Call::Parts => d.try_descend(header, 65_536),
        Call::Content => {
            let _ = d.try_content(header)?;
            Ok(())
        }
        _ => Ok(()),
    }
}

// The same under a budget, and why it fails.
fn step(alloc: Global, call: Call, d: &mut Decoder<'_>) -> Result<(), MaxMindDbError> {
    d.begin_budget();
    match taken(call, d) {
        Ok(()) => Ok(()),
        Err(failed) => Err(d.error_of(alloc, failed)),
    }
}

// What a call answers at offset 1 of a section.
fn called(alloc: Global, call: Call, section: &[u8]) -> Result<String, AllocError> {
    let mut d = Decoder::new(section, 1);
    let answer = match call {
        Call::Map | Call::Field | Call::NextKey | Call::RawKey => enter_map(alloc, call, &mut d),
        Call::Array | Call::ArrayOfThree => enter_array(alloc, call, &mut d),
        Call::Header | Call::Pointer | Call::Parts | Call::Content => step(alloc, call, &mut d),
        Call::Empty => done(empty_container(section, 1)),
        _ => read_scalar(alloc, call, &mut d),
    };
    reported(alloc, answer)
}

#[test]
fn offsets_of_errors(rt: HostRuntime) -> Result<(), Failures> {
    let (alloc, mut failures) = (rt.alloc(), Failures::new(rt.alloc()));
    for rows in [SCALARS, POINTED, CONTAINERS, STEPS] {
        for (call, section, text) in rows {
            failures.expect_text(section, called(alloc, *call, section), text);
        }
    }
    failures.verdict()
}
