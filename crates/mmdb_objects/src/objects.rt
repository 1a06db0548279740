//! Lines that are objects of JSON.
ghost use Rattle.std.specs.Prelude.{◌≡◌, ◌≤◌, ℕ, true, false, IfOk, MatchOption, length, option_map, IfSome, Some};
ghost use Rattle.json.specs.Find.{BeginsWith, Finds};
ghost use Rattle.json.specs.Json.{Json, Members, object, document};
ghost use Rattle.mmdb_objects.specs.Objects.{EndsWithBrace, ReadsLine, step_in as spec_step_in, text_along as spec_text_along};
ghost use Rattle.mmdb_objects.specs.Working.{ReadsValue};
ghost use Rattle.mmdb_addresses.specs.Addresses.{ReadsAddress};

use crate::lexemes::is_space;
use crate::one_pass::followed_object;
use crate::step::PathStep;
use json::{Element, Error, Scratch, Tape};
use mmdb_addresses::{Reading, address_in, address_of};
use std::alloc::{AllocError, Global};
use std::net::IpAddr;

/// A line that is an object.
#[derive(Clone, Copy)]
pub struct Line {
    /// The address to which the path leads, if it leads to one.
    pub address: Option<IpAddr>,
    /// How many bytes there are from the last brace on.
    pub behind: usize,
    /// Whether the object has no member.
    pub is_empty: bool,
    /// Whether it has one of the name that is asked about.
    pub is_taken: bool,
}

/// What a line is.
#[derive(Clone, Copy)]
pub enum ReadLine {
    NoObject,
    Object(Line),
}

// How many bytes there are from the last brace on, where there is only white space after it.
fn last_brace(text: &[u8]) -> Option<usize>
    ensures { MatchOption result ((behind : ℕ) → ¬ EndsWithBrace text.now behind)
        (EndsWithBrace text.now) }
{
    let len = text.len();
    for behind in 1..len + 1 {
        let byte = text[len - behind];
        if byte == b'}' {
            return Some(behind);
        }
        if !is_space(byte) {
            return None;
        }
    }
    None
}

// The value one step on.
fn step_in<'t, 'a>(value: &Element<'t, 'a>, step: &PathStep<'_>) -> Option<Element<'t, 'a>>
    ensures { (j : Json) → BeginsWith value.now j → Finds result (spec_step_in step.now j) }
{
    match step {
        PathStep::Key(name) => value.get(name),
        PathStep::Index(index) => value.at(*index),
    }
}

// The text at the end of a path.
fn text_along<'a>(value: &Element<'_, 'a>, path: &[PathStep<'_>]) -> Option<&'a str>
    ensures { (j : Json) → BeginsWith value.now j
        → option_map (λ s. s.now) result ≡ spec_text_along path.now j }
{
    if path.is_empty() {
        return value.as_str();
    }
    match step_in(value, &path[0]) {
        Some(next) => text_along(&next, &path[1..]),
        None => None,
    }
}

// The address that a path leads to.
fn address_along(reading: Reading, value: &Element<'_, '_>, path: &[PathStep<'_>]) -> Option<IpAddr>
    ensures { (j : Json) → BeginsWith value.now j
        → ReadsAddress reading (spec_text_along path.now j) result }
{
    match text_along(value, path) {
        Some(text) => address_in(reading, text.as_bytes()),
        None => None,
    }
}

// What a value is of which `behind` bytes are from the last brace on.
fn line_of(
    reading: Reading,
    value: &Element<'_, '_>,
    path: &[PathStep<'_>],
    name: &str,
    behind: usize,
) -> ReadLine
    ensures { (j : Json) → BeginsWith value.now j
        → ReadsValue reading j behind path.now name.now result }
{
    let Some(mut members) = value.members() else {
        return ReadLine::NoObject;
    };
    let is_empty = members.next().is_none();
    ReadLine::Object(Line {
        address: address_along(reading, value, path),
        behind,
        is_empty,
        is_taken: value.get(name).is_some(),
    })
}

// What a text is of which `behind` bytes are from the last brace on; none where one pass over it
// does not say that.
#[inline(always)]
fn read_in_one_pass(
    reading: Reading,
    text: &[u8],
    path: &[PathStep<'_>],
    name: &str,
    behind: usize,
) -> Option<ReadLine>
    ensures { IfSome result (λ line. (j : Json) × (document text.now ≡ Some j)
        × ReadsValue reading j behind path.now name.now line) }
{
    let object = followed_object(text, path, name)?;
    Some(ReadLine::Object(Line {
        address: address_of(reading, object.text),
        behind,
        is_empty: object.is_empty,
        is_taken: object.is_taken,
    }))
}

// What a text is of which `behind` bytes are from the last brace on, by the reader of the crate `json`.
#[inline(never)]
fn read_tape(
    alloc: Global,
    reading: Reading,
    text: &str,
    path: &[PathStep<'_>],
    name: &str,
    behind: usize,
    scratch: &mut Scratch,
) -> Result<ReadLine, AllocError>
    requires { EndsWithBrace text.now behind }
    ensures { IfOk result (ReadsLine reading text.now false path.now name.now) }
{
    match Tape::parse(text, scratch, Vec::new(alloc)) {
        Ok(tape) => Ok(line_of(reading, &tape.root(), path, name, behind)),
        Err(Error::Invalid) => Ok(ReadLine::NoObject),
        Err(_) => Err(AllocError),
    }
}

// What a text is of which `behind` bytes are from the last brace on.
#[inline(always)]
fn read_text(
    alloc: Global,
    reading: Reading,
    text: &[u8],
    path: &[PathStep<'_>],
    name: &str,
    behind: usize,
    scratch: &mut Scratch,
) -> Result<ReadLine, AllocError>
    requires { EndsWithBrace text.now behind }
    ensures { IfOk result (ReadsLine reading text.now false path.now name.now) }
{
    let Ok(text) = str::from_utf8(text) else {
        return Ok(ReadLine::NoObject);
    };
    if let Some(line) = read_in_one_pass(reading, text.as_bytes(), path, name, behind) {
        return Ok(line);
    }
    read_tape(alloc, reading, text, path, name, behind, scratch)
}

/// What a line is: an object, with the address to which a path leads and whether a member has a name, or none.
#[inline(always)]
pub fn read_line(
    alloc: Global,
    reading: Reading,
    text: &[u8],
    goes_on: bool,
    path: &[PathStep<'_>],
    name: &str,
    scratch: &mut Scratch,
) -> Result<ReadLine, AllocError>
    ensures { IfOk result (ReadsLine reading text.now goes_on path.now name.now) }
{
    if goes_on {
        return Ok(ReadLine::NoObject);
    }
    match last_brace(text) {
        Some(behind) => read_text(alloc, reading, text, path, name, behind, scratch),
        None => Ok(ReadLine::NoObject),
    }
}
