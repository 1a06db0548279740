//! Values that hold no others, of texts and types.
use crate::error::{InputError, Reason};
use base64::DecodeAllocError;
use base64::engine::general_purpose::STANDARD;
use bumpalo::Bump;
use mmdb_format::kind::Kind;
use mmdb_value::{Double, Float, Value};
use std::alloc::Global;

/// The types that a command line names.
const TYPES: &[(&str, Kind)] = &[
    ("string", Kind::Text),
    ("bytes", Kind::Bytes),
    ("bool", Kind::Bool),
    ("int32", Kind::I32),
    ("uint16", Kind::U16),
    ("uint32", Kind::U32),
    ("uint64", Kind::U64),
    ("uint128", Kind::U128),
    ("double", Kind::Double),
    ("float", Kind::Float),
    ("map", Kind::Map),
    ("array", Kind::Array),
];

/// The name of a type.
pub fn type_name(kind: Kind) -> &'static str {
    for named in TYPES {
        if named.1 == kind {
            return named.0;
        }
    }
    "unknown"
}

/// The type of a name, if it is one of values that hold no others.
pub fn type_of(name: &str) -> Option<Kind> {
    for named in TYPES {
        if named.0 == name && !matches!(named.1, Kind::Map | Kind::Array) {
            return Some(named.1);
        }
    }
    None
}

// The number of double precision that a text spells, if it is finite.
fn double_of(text: &str) -> Option<Double> {
    let x: f64 = fast_float::parse(text).ok()?;
    if x.is_finite() {
        Some(Double { bits: x.to_bits() })
    } else {
        None
    }
}

// The number of single precision that a text spells, if it is finite.
fn float_of(text: &str) -> Option<Float> {
    let x: f32 = fast_float::parse(text).ok()?;
    if x.is_finite() {
        Some(Float { bits: x.to_bits() })
    } else {
        None
    }
}

// The number of a type that a text spells.
fn number_as<'a>(text: &str, kind: Kind) -> Option<Value<'a>> {
    match kind {
        Kind::I32 => Some(Value::I32(text.parse::<i32>().ok()?)),
        Kind::U16 => Some(Value::U16(text.parse::<u16>().ok()?)),
        Kind::U32 => Some(Value::U32(text.parse::<u32>().ok()?)),
        Kind::U64 => Some(Value::U64(text.parse::<u64>().ok()?)),
        Kind::U128 => Some(Value::U128(text.parse::<u128>().ok()?)),
        Kind::Double => Some(Value::Double(double_of(text)?)),
        Kind::Float => Some(Value::Float(float_of(text)?)),
        _ => None,
    }
}

/// The types of a number of which nothing else is known, the first that has it first.
const INTEGERS: &[Kind] = &[Kind::U32, Kind::U64, Kind::U128, Kind::I32];

// Whether a text of a number has a point or an exponent.
fn is_double(text: &str) -> bool {
    text.as_bytes()
        .iter()
        .any(|byte| matches!(*byte, b'.' | b'e' | b'E'))
}

// Whether a text is an integer as one writes it, without a plus or zeros in front.
fn is_integer(text: &str) -> bool {
    let digits = text.strip_prefix('-').unwrap_or(text).as_bytes();
    match digits {
        [] => false,
        [b'0', ..] => text == "0",
        _ => digits.iter().all(|byte| byte.is_ascii_digit()),
    }
}

// Whether values of a type are integers.
fn has_integers(kind: Kind) -> bool {
    matches!(
        kind,
        Kind::I32 | Kind::U16 | Kind::U32 | Kind::U64 | Kind::U128
    )
}

// The integer that a text spells, of the first of the types of integers among these that has it.
fn first_integer<'a>(text: &str, kinds: &[Kind]) -> Option<Value<'a>> {
    if !is_integer(text) {
        return None;
    }
    for kind in kinds {
        if has_integers(*kind) {
            if let Some(value) = number_as(text, *kind) {
                return Some(value);
            }
        }
    }
    None
}

// The number of double precision that the digits spell by which a text is shown again as a number of single precision.
fn shown_again(text: &str) -> Option<f64> {
    let single: f32 = fast_float::parse(text).ok()?;
    let mut buffer = ryu::Buffer::new();
    fast_float::parse(buffer.format(single)).ok()
}

// Whether a text is shown again as the same number, where it is one of single precision.
fn is_single(text: &str) -> bool {
    let wanted: Option<f64> = fast_float::parse(text).ok();
    wanted == shown_again(text)
}

// Whether a value is just what a text spells.
fn is_exact(text: &str, value: &Value<'_>) -> bool {
    match value {
        Value::Float(_) => is_single(text),
        _ => true,
    }
}

// The number that a text spells, of the first of these types that has it just so, else of the first that has it.
fn first_number<'a>(text: &str, kinds: &[Kind]) -> Option<Value<'a>> {
    let mut rounded = None;
    for kind in kinds {
        if let Some(value) = number_as(text, *kind) {
            if is_exact(text, &value) {
                return Some(value);
            }
            if rounded.is_none() {
                rounded = Some(value);
            }
        }
    }
    rounded
}

/// The value of a number as JSON writes it, of the first of these types that has it just so; for an integer types of integers
/// come first. Where there is none, one with a point or an exponent is a double, and any other the least of uint32, uint64,
/// uint128 and int32 that has it.
pub(crate) fn number_value<'a>(text: &str, kinds: &[Kind]) -> Result<Value<'a>, Reason> {
    if let Some(value) = first_integer(text, kinds) {
        return Ok(value);
    }
    let found = match kinds {
        [] if is_double(text) => first_number(text, &[Kind::Double]),
        [] => first_number(text, INTEGERS),
        _ => first_number(text, kinds),
    };
    match (found, kinds) {
        (Some(value), _) => Ok(value),
        (None, []) => Err(Reason::NoNumber),
        (None, [kind, ..]) => Err(Reason::NotOf(*kind)),
    }
}

/// The value of `null`: where a double or a float is wanted the number that is none, which is shown so again.
pub(crate) fn null_value<'a>(kinds: &[Kind]) -> Result<Value<'a>, Reason> {
    for kind in kinds {
        match kind {
            Kind::Double => return Ok(Value::Double(Double { bits: 0x7FF8 << 48 })),
            Kind::Float => return Ok(Value::Float(Float { bits: 0x7FC0 << 16 })),
            _ => {}
        }
    }
    Err(Reason::Null)
}

/// The value of a truth value, unless another type is wanted.
pub(crate) fn bool_value<'a>(truth: bool, kinds: &[Kind]) -> Result<Value<'a>, Reason> {
    match kinds {
        [kind, ..] if !kinds.contains(&Kind::Bool) => Err(Reason::NotOf(*kind)),
        _ => Ok(Value::Bool(truth)),
    }
}

// The bytes that a text spells in base64, if it does.
fn bytes_of<'a>(
    alloc: Global,
    text: &str,
    arena: &'a Bump,
) -> Result<Option<Value<'a>>, InputError> {
    match STANDARD.decode(alloc, text.as_bytes()) {
        Ok(bytes) => Ok(Some(Value::Bytes(arena.try_alloc_slice_copy(&bytes)?))),
        Err(DecodeAllocError::OutOfMemory) => Err(InputError::Memory),
        Err(DecodeAllocError::DecodeError(_)) => Ok(None),
    }
}

/// Where a text is from.
#[derive(Clone, Copy, PartialEq, Eq)]
pub(crate) enum TextSource {
    /// It is a string of JSON.
    Json,
    /// It is a cell, in which all values are texts.
    Cell,
}

// What a text is in a type.
fn text_as<'a>(
    alloc: Global,
    text: &'a str,
    source: TextSource,
    kind: Kind,
    arena: &'a Bump,
) -> Result<Option<Value<'a>>, InputError> {
    match (kind, text) {
        (Kind::Text, _) => Ok(Some(Value::String(text))),
        (Kind::Bytes, _) => bytes_of(alloc, text, arena),
        _ if source == TextSource::Json => Ok(None),
        (Kind::Bool, "true") => Ok(Some(Value::Bool(true))),
        (Kind::Bool, "false") => Ok(Some(Value::Bool(false))),
        _ => Ok(number_as(text, kind)),
    }
}

// What a text is in the first of these types that has it just so, else in the first that has it.
fn first_text<'a>(
    alloc: Global,
    text: &'a str,
    source: TextSource,
    kinds: &[Kind],
    arena: &'a Bump,
) -> Result<Option<Value<'a>>, InputError> {
    let mut rounded = None;
    for kind in kinds {
        if let Some(value) = text_as(alloc, text, source, *kind, arena)? {
            if is_exact(text, &value) {
                return Ok(Some(value));
            }
            if rounded.is_none() {
                rounded = Some(value);
            }
        }
    }
    Ok(rounded)
}

/// The value of a text, of the first of these types that has it just so: bytes are base64. In a cell types of integers come
/// first for an integer. Where there is no type it is a text.
pub(crate) fn text_value<'a>(
    alloc: Global,
    text: &'a str,
    source: TextSource,
    kinds: &[Kind],
    arena: &'a Bump,
) -> Result<Value<'a>, InputError> {
    if source == TextSource::Cell {
        if let Some(value) = first_integer(text, kinds) {
            return Ok(value);
        }
    }
    match (first_text(alloc, text, source, kinds, arena)?, kinds) {
        (Some(value), _) => Ok(value),
        (None, []) => Ok(Value::String(text)),
        (None, [kind, ..]) => Err(InputError::from(Reason::NotOf(*kind))),
    }
}
