//! The types and the calls that read values.
use super::asserts::assert_holds;
use mmdb_value::{
    Decode, Decoder, Double, Float, OwnedBytes, RawValue, Value, empty_container, fuzzing,
};
use std::alloc::Global;
use std::collections::BTreeMap;
use std::process::Abort;

/// Whether a call succeeded; what it gave is let go here.
pub(crate) fn is_done<T: Drop, E: Drop>(answer: Result<T, E>) -> bool {
    answer.is_ok()
}

/// A map of k to 5, with an array of two numbers after it.
pub(crate) const PAIRS: &[u8] = b"\xE1\x41k\xA1\x05\x02\x04\xA1\x05\xA1\x06";

/// The number zero as a double.
const DOUBLE: &[u8] = b"\x68\x00\x00\x00\x00\x00\x00\x00\x00";

/// The number zero as a float.
const FLOAT: &[u8] = b"\x04\x08\x00\x00\x00\x00";

/// A call of a decoder that reads one value, or says what comes.
enum Scalar {
    Bool,
    U16,
    U32,
    U64,
    U128,
    I32,
    Small,
    Str,
    Bytes,
    Double,
    Float,
    Kind,
    Skip,
}

/// The calls by name, and what each reads.
#[rattlefmt::skip]
const SCALARS: &[(&str, Scalar, &[u8])] = &[
    ("read_bool", Scalar::Bool, b"\x01\x07"),
    ("read_u16", Scalar::U16, b"\xA1\x07"),
    ("read_u32", Scalar::U32, b"\xC1\x07"),
    ("read_u64", Scalar::U64, b"\x01\x02\x07"),
    ("read_u128", Scalar::U128, b"\x01\x03\x07"),
    ("read_i32", Scalar::I32, b"\x01\x01\x07"),
    ("read_small", Scalar::Small, b"\xA1\x07"),
    ("read_str", Scalar::Str, b"\x41x"),
    ("read_bytes", Scalar::Bytes, b"\x81x"),
    ("read_double", Scalar::Double, DOUBLE),
    ("read_float", Scalar::Float, FLOAT),
    ("peek_kind", Scalar::Kind, PAIRS),
    ("skip_value", Scalar::Skip, PAIRS),
];

fn reads_scalar(alloc: Global, scalar: &Scalar, d: &mut Decoder<'_>) -> bool {
    match scalar {
        Scalar::Bool => is_done(d.read_bool(alloc)),
        Scalar::U16 => is_done(d.read_u16(alloc)),
        Scalar::U32 => is_done(d.read_u32(alloc)),
        Scalar::U64 => is_done(d.read_u64(alloc)),
        Scalar::U128 => is_done(d.read_u128(alloc)),
        Scalar::I32 => is_done(d.read_i32(alloc)),
        Scalar::Small => is_done(d.read_small(alloc)),
        Scalar::Str => is_done(d.read_str(alloc)),
        Scalar::Bytes => is_done(d.read_bytes(alloc)),
        Scalar::Double => is_done(d.read_double(alloc)),
        Scalar::Float => is_done(d.read_float(alloc)),
        Scalar::Kind => is_done(d.peek_kind(alloc)),
        Scalar::Skip => is_done(d.skip_value(alloc)),
    }
}

/// Where the array stands.
const ARRAY_AT: usize = 5;

// Whether a map's first field is read.
fn reads_field(rt: &impl Abort, alloc: Global) -> bool {
    let mut d = Decoder::new(PAIRS, 0);
    let mut fields = d.begin_map(alloc).expect(rt, "begin_map");
    let field = d.next_field(alloc, &mut fields).expect(rt, "next_field");
    fields.give_up(&mut d);
    field.is_some()
}

// Whether a map's first key is read.
fn reads_key(rt: &impl Abort, alloc: Global) -> bool {
    let mut d = Decoder::new(PAIRS, 0);
    let mut keys = d.begin_map(alloc).expect(rt, "begin_map");
    let key = d.next_key(alloc, &mut keys).expect(rt, "next_key");
    keys.give_up(&mut d);
    key.is_some()
}

// Whether a map's first key is read as bytes.
fn reads_raw_key(rt: &impl Abort, alloc: Global) -> bool {
    let mut d = Decoder::new(PAIRS, 0);
    let mut keys = d.begin_map(alloc).expect(rt, "begin_map");
    let key = d.next_raw_key(alloc, &mut keys).expect(rt, "next_raw_key");
    keys.give_up(&mut d);
    key.is_some()
}

// Whether an array has a first element.
fn reads_item(rt: &impl Abort, alloc: Global) -> bool {
    let mut d = Decoder::new(PAIRS, ARRAY_AT);
    let mut items = d.begin_array(alloc).expect(rt, "begin_array");
    let item = d.next_item(&mut items);
    items.give_up(&mut d);
    item
}

// Whether an array of two elements has both before it.
fn has_two_left(rt: &impl Abort, alloc: Global) -> bool {
    let mut d = Decoder::new(PAIRS, ARRAY_AT);
    let items = d.begin_array_of(alloc, 2).expect(rt, "begin_array_of");
    let left = d.remaining(&items);
    items.give_up(&mut d);
    left == 2
}

fn reads<'de, T: Decode<'de>>(alloc: Global, section: &'de [u8]) -> bool {
    is_done(fuzzing::decode::<T>(alloc, section))
}

/// A type of values.
enum Type {
    Bool,
    U8,
    U16,
    U32,
    U64,
    U128,
    I8,
    I16,
    I32,
    I64,
    Str,
    Text,
    Slice,
    Bytes,
    Double,
    Float,
    Optional,
    List,
    Map,
    Any,
    Raw,
}

/// The types by name, and what each is read from.
#[rattlefmt::skip]
const TYPES: &[(&str, Type, &[u8])] = &[
    ("bool", Type::Bool, b"\x01\x07"),
    ("u8", Type::U8, b"\xA1\x07"),
    ("u16", Type::U16, b"\xA1\x07"),
    ("u32", Type::U32, b"\xC1\x07"),
    ("u64", Type::U64, b"\x01\x02\x07"),
    ("u128", Type::U128, b"\x01\x03\x07"),
    ("i8", Type::I8, b"\xA1\x07"),
    ("i16", Type::I16, b"\xA1\x07"),
    ("i32", Type::I32, b"\x01\x01\x07"),
    ("i64", Type::I64, b"\xA1\x07"),
    ("&str", Type::Str, b"\x41x"),
    ("String", Type::Text, b"\x41x"),
    ("&[u8]", Type::Slice, b"\x81x"),
    ("OwnedBytes", Type::Bytes, b"\x81x"),
    ("Double", Type::Double, DOUBLE),
    ("Float", Type::Float, FLOAT),
    ("Option", Type::Optional, b"\xA1\x07"),
    ("Vec", Type::List, b"\x01\x04\xA1\x05"),
    ("BTreeMap", Type::Map, PAIRS),
    ("Value", Type::Any, PAIRS),
    ("RawValue", Type::Raw, PAIRS),
];

fn reads_type(alloc: Global, wanted: &Type, section: &[u8]) -> bool {
    match wanted {
        Type::Bool => reads::<bool>(alloc, section),
        Type::U8 => reads::<u8>(alloc, section),
        Type::U16 => reads::<u16>(alloc, section),
        Type::U32 => reads::<u32>(alloc, section),
        Type::U64 => reads::<u64>(alloc, section),
        Type::U128 => reads::<u128>(alloc, section),
        Type::I8 => reads::<i8>(alloc, section),
        Type::I16 => reads::<i16>(alloc, section),
        Type::I32 => reads::<i32>(alloc, section),
        Type::I64 => reads::<i64>(alloc, section),
        Type::Str => reads::<&str>(alloc, section),
        Type::Text => reads::<String>(alloc, section),
        Type::Slice => reads::<&[u8]>(alloc, section),
        Type::Bytes => reads::<OwnedBytes>(alloc, section),
        Type::Double => reads::<Double>(alloc, section),
        Type::Float => reads::<Float>(alloc, section),
        Type::Optional => reads::<Option<u16>>(alloc, section),
        Type::List => reads::<Vec<u16>>(alloc, section),
        Type::Map => reads::<BTreeMap<String, u16>>(alloc, section),
        Type::Any => reads::<Value<'_>>(alloc, section),
        Type::Raw => reads::<RawValue<'_>>(alloc, section),
    }
}

/// The calls of a decoder.
pub(crate) fn of_decoders(rt: &impl Abort, alloc: Global) {
    for (call, scalar, section) in SCALARS {
        let is_read = reads_scalar(alloc, scalar, &mut Decoder::new(section, 0));
        assert_holds(rt, is_read, call);
    }
    assert_holds(rt, reads_field(rt, alloc), "next_field");
    assert_holds(rt, reads_key(rt, alloc), "next_key");
    assert_holds(rt, reads_raw_key(rt, alloc), "next_raw_key");
    assert_holds(rt, reads_item(rt, alloc), "next_item");
    assert_holds(rt, has_two_left(rt, alloc), "remaining");
    assert_holds(rt, is_done(empty_container(PAIRS, 0)), "empty_container");
}

/// The types that are read.
pub(crate) fn of_types(rt: &impl Abort, alloc: Global) {
    for (name, wanted, section) in TYPES {
        assert_holds(rt, reads_type(alloc, wanted, section), name);
    }
}
