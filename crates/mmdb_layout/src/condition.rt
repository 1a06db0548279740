//! Conditions on the value at a path of a record.
ghost use Rattle.std.specs.Prelude.{◌≡◌, ◌<◌, ◌↔◌, ℕ, IsTrue, IfOk, IfErr, MatchOption, map, option_map};
ghost use Rattle.mmdb_format.specs.Error.{MemoryApart};
ghost use Rattle.mmdb_value.specs.Values.{value_tree};
ghost use Rattle.mmdb_layout.specs.Conditions.{SaysOneOf, IsNumberOf, SaysNumberOf, SaysWrittenBy, SaysAmong, HasPart, SaysAnyPart, SaysPart, SaysBeyond, SaysFits, SaysFoundBy, texts_of, text_of as spec_text_of, wants as spec_wants, SaysMetBy, IsUnreadBy, IsSign, SplitsAtSign};
ghost use Rattle.mmdb_layout.specs.Texts.{texts_in};
ghost use Rattle.mmdb_layout.specs.Working.{is_container as spec_is_container, is_whole as spec_is_whole, IsOfDigits};

use crate::number::{Side, are_digits, is_beyond_all, is_f32, is_f64, is_same_number};
use crate::read_along::ReadAlong;
use crate::texts::Texts;
use memchr::memmem;
use mmdb_json::compact;
use mmdb_reader::{MaxMindDbError, PathElement};
use mmdb_value::Value;
use std::alloc::{AllocError, Global};
use std::num::{f32_from_bits_with_nan, f64_from_bits_with_nan};

/// What a condition wants of the value at its path.
#[derive(Clone, Copy, PartialEq, Eq)]
pub enum Requirement {
    /// That it is one of the texts.
    OneOf,
    /// That it is none of them, or that there is no value.
    NoneOf,
    /// That it is a text that has one of the texts in it.
    Part,
    /// That there is one.
    Present,
    /// That it is a number above each of the texts.
    Above,
    /// That it is a number below each of them.
    Below,
}

/// A condition on the value at a path: a text is compared as it is, a number as a number, any other scalar by its JSON,
/// and a map or an array is none of the texts. Only a text has others in it, and only a number is above or below others.
#[derive(Drop)]
pub struct Condition<'a> {
    pub path: Vec<PathElement<'a>>,
    pub texts: Texts<'a>,
    pub wanted: Requirement,
}

// Whether a text is one of the texts.
fn is_one_of(own: &[u8], texts: &[&str]) -> bool
    ensures { SaysOneOf own.now (map (λ t. t.now) texts.now) result }
{
    for text in texts {
        if text.as_bytes() == own {
            return true;
        }
    }
    false
}

// The text that a value is, if it is one.
fn text_of<'t>(value: &'t Value<'_>) -> Option<&'t str>
    ensures { option_map (λ t. t.now) result ≡ spec_text_of (value_tree value.now) }
{
    match value {
        Value::String(own) => Some(*own),
        _ => None,
    }
}

// Whether a value is an array or a map.
fn is_container(value: &Value<'_>) -> bool
    ensures { result ≡ spec_is_container (value_tree value.now) }
{
    match value {
        Value::Array(_) | Value::Map(_) => true,
        _ => false,
    }
}

/// Whether a text is a number of JSON that a value is: of a double or a float one that is read as it, and of an integer
/// that number itself. The value's own JSON is given.
pub fn is_number_of(
    alloc: Global,
    value: &Value<'_>,
    json: &str,
    text: &str,
) -> Result<bool, AllocError>
    ensures { IfOk result (λ b. IsTrue b ↔ IsNumberOf (value_tree value.now) json.now text.now) }
{
    match value {
        Value::Double(double) => Ok(is_f64(f64_from_bits_with_nan(double.bits), text)),
        Value::Float(float) => Ok(is_f32(f32_from_bits_with_nan(float.bits), text)),
        Value::I32(_) => is_same_number(alloc, json, text),
        Value::U16(_) => is_same_number(alloc, json, text),
        Value::U32(_) => is_same_number(alloc, json, text),
        Value::U64(_) => is_same_number(alloc, json, text),
        Value::U128(_) => is_same_number(alloc, json, text),
        Value::String(_) | Value::Bytes(_) | Value::Bool(_) | Value::Array(_) | Value::Map(_) => Ok(
            false,
        ),
    }
}

// Whether one of the texts is a number that a value is.
fn is_number_among(
    alloc: Global,
    value: &Value<'_>,
    json: &str,
    texts: &[&str],
) -> Result<bool, AllocError>
    ensures { IfOk result (SaysNumberOf (value_tree value.now) json.now
        (map (λ t. t.now) texts.now)) }
{
    for text in texts {
        if is_number_of(alloc, value, json, *text)? {
            return Ok(true);
        }
    }
    Ok(false)
}

// Whether a value is a whole number by its type.
fn is_whole(value: &Value<'_>) -> bool
    ensures { result ≡ spec_is_whole (value_tree value.now) }
{
    match value {
        Value::I32(_) | Value::U16(_) | Value::U32(_) | Value::U64(_) | Value::U128(_) => true,
        _ => false,
    }
}

// Whether a value is a whole number by its type, and its JSON is digits alone.
fn is_of_digits(value: &Value<'_>, json: &str) -> bool
    ensures { IsTrue result ↔ IsOfDigits (value_tree value.now) json.now }
{
    is_whole(value) && are_digits(json.as_bytes())
}

// Whether one of the texts is the JSON of a value, or a number that it is.
fn is_written_by(
    alloc: Global,
    value: &Value<'_>,
    json: &str,
    texts: &Texts<'_>,
) -> Result<bool, AllocError>
    ensures { IfOk result (SaysWrittenBy (value_tree value.now) json.now (texts_in texts.now)) }
{
    if is_one_of(json.as_bytes(), texts.all()) {
        return Ok(true);
    }
    // no other digits alone write the same number
    if is_of_digits(value, json) {
        return is_number_among(alloc, value, json, texts.others());
    }
    is_number_among(alloc, value, json, texts.all())
}

// Whether a value is one of the texts.
fn is_among(alloc: Global, value: &Value<'_>, texts: &Texts<'_>) -> Result<bool, AllocError>
    ensures { IfOk result (SaysAmong (value_tree value.now) (texts_in texts.now)) }
{
    if let Some(own) = text_of(value) {
        return Ok(is_one_of(own.as_bytes(), texts.all()));
    }
    if is_container(value) {
        return Ok(false);
    }
    let json = compact(alloc, value)?;
    match str::from_utf8(json.as_slice()) {
        Ok(own) => Ok(is_written_by(alloc, value, own, texts)?),
        Err(_) => Ok(false),
    }
}

// Whether a text is somewhere in another one.
fn has_part(own: &[u8], part: &[u8]) -> bool
    ensures { IsTrue result ↔ HasPart own.now part.now }
{
    match memmem::find(own, part) {
        Some(_) => true,
        None => false,
    }
}

// Whether one of the texts is in a text.
fn has_any_part(own: &[u8], texts: &[&str]) -> bool
    ensures { SaysAnyPart own.now (map (λ t. t.now) texts.now) result }
{
    for text in texts {
        if has_part(own, text.as_bytes()) {
            return true;
        }
    }
    false
}

// Whether a value is a text that has one of the texts in it.
fn has_part_among(value: &Value<'_>, texts: &[&str]) -> bool
    ensures { SaysPart (value_tree value.now) (map (λ t. t.now) texts.now) result }
{
    match text_of(value) {
        Some(own) => has_any_part(own.as_bytes(), texts),
        None => false,
    }
}

// Whether a value is a number on a side of each of the texts.
fn is_number_beyond(
    alloc: Global,
    side: Side,
    value: &Value<'_>,
    bounds: &[&str],
) -> Result<bool, AllocError>
    ensures { IfOk result (SaysBeyond side (value_tree value.now) (map (λ t. t.now) bounds.now)) }
{
    if let Some(_) = text_of(value) {
        return Ok(false);
    }
    if is_container(value) {
        return Ok(false);
    }
    let json = compact(alloc, value)?;
    match str::from_utf8(json.as_slice()) {
        Ok(own) => is_beyond_all(alloc, side, own, bounds),
        Err(_) => Ok(false),
    }
}

impl Requirement {
    // Whether a value is what is asked for, or what is not wanted.
    fn fits(self, alloc: Global, value: &Value<'_>, texts: &Texts<'_>) -> Result<bool, AllocError>
        ensures { IfOk result (SaysFits self (value_tree value.now) (texts_in texts.now)) }
    {
        match self {
            Requirement::OneOf | Requirement::NoneOf => is_among(alloc, value, texts),
            Requirement::Part => Ok(has_part_among(value, texts.all())),
            Requirement::Present => Ok(true),
            Requirement::Above => is_number_beyond(alloc, Side::Above, value, texts.all()),
            Requirement::Below => is_number_beyond(alloc, Side::Below, value, texts.all()),
        }
    }

    // What a condition says where the value is what it asks for or not.
    fn wants(self, is_found: bool) -> bool
        ensures { result ≡ spec_wants self is_found }
    {
        match self {
            Requirement::NoneOf => !is_found,
            Requirement::OneOf
            | Requirement::Part
            | Requirement::Present
            | Requirement::Above
            | Requirement::Below => is_found,
        }
    }
}

impl Condition<'_> {
    // Whether the value at the path is what is asked for.
    fn finds<R: ReadAlong>(&self, alloc: Global, found: &R) -> Result<bool, MaxMindDbError>
        ensures found { IfOk result (SaysFoundBy self.now.wanted self.now.path.items
            (texts_of self.now) (R.outlines found.now)) }
        ensures rejected { IfErr result
            (λ e. MemoryApart e (IsUnreadBy self.now (R.outlines found.now))) }
    {
        match found.outline_along(alloc, self.path.as_slice()) {
            Ok(Some(value)) => Ok(self.wanted.fits(alloc, &value, &self.texts)?),
            Ok(None) => Ok(false),
            Err(error) => Err(error),
        }
    }

    /// Whether the condition is met by a record, or by the first of several that has a value at its path. Fails, unless out of
    /// memory, exactly where the way of the path in the record, or the value at its end, can't be read. What a map or an
    /// array there holds isn't looked at.
    pub fn holds<R: ReadAlong>(&self, alloc: Global, found: &R) -> Result<bool, MaxMindDbError>
        ensures met { IfOk result (SaysMetBy self.now (R.outlines found.now)) }
        ensures rejected { IfErr result
            (λ e. MemoryApart e (IsUnreadBy self.now (R.outlines found.now))) }
    {
        let is_found = self.finds(alloc, found)?;
        Ok(self.wanted.wants(is_found))
    }
}

// The place of the first equals sign that is not in quotes.
fn place_of_equals(text: &[u8]) -> Option<usize>
    ensures { MatchOption result ((place : ℕ) → ¬ IsSign text.now place)
        (λ place. IsSign text.now place × ((i : ℕ) → i < place → ¬ IsSign text.now i)) }
{
    let mut is_quoted = false;
    for place in 0..text.len() {
        let byte = text[place];
        if byte == b'=' && !is_quoted {
            return Some(place);
        }
        is_quoted = is_quoted != (byte == b'"');
    }
    None
}

/// The path and the value of a text `PATH=VALUE`: what comes before and after its first equals sign that is not in
/// quotes. None where there is no such sign.
pub fn split_condition(text: &str) -> Option<(&str, &str)>
    ensures { SplitsAtSign text.now result }
{
    let place = place_of_equals(text.as_bytes())?;
    let path = text.get(..place)?;
    let value = text.get(place + 1..)?;
    Some((path, value))
}
