//! Reads where memory runs out.
use crate::numbers::Numbers;
use crate::probe::Probe;
use mmdb_value::{
    Decode, DecodeResult, Decoder, Entries, MaxMindDbError, OwnedBytes, RawValue, Value, fuzzing,
};
use mmdb_vectors::failures::Failures;
use mmdb_vectors::hoard::{Outcome, fail_in_turn};
use std::alloc::Global;
use std::collections::BTreeMap;

/// A map of k to an array of the numbers 5 and 6.
const PAIR: &[u8] = b"\xE1\x41k\x02\x04\xA1\x05\xA1\x06";

fn kind_met(error: &MaxMindDbError) -> Outcome {
    match error {
        MaxMindDbError::Memory => Outcome::Memory,
        _ => Outcome::Error,
    }
}

fn error_met(error: MaxMindDbError) -> Outcome {
    kind_met(&error)
}

fn answer_met<T: Drop>(answer: DecodeResult<T>) -> Outcome {
    match answer {
        Ok(_) => Outcome::Value,
        Err(error) => error_met(error),
    }
}

fn read_met<'de, T: Decode<'de>>(alloc: Global, section: &'de [u8]) -> Outcome {
    answer_met(fuzzing::decode::<T>(alloc, section))
}

// Notes where a read does not run out of memory, with more of it each time, before it meets the answer that it
// has with enough, or where it meets another; a read that takes none meets it at once.
fn expect_turns<'de, T: Decode<'de>>(
    failures: &mut Failures,
    alloc: Global,
    section: &'de [u8],
    takes_memory: bool,
    last: Outcome,
) {
    let (rejected, then) = fail_in_turn(alloc, 16, || read_met::<T>(alloc, section));
    let is_met = then == last && (rejected > 0) == takes_memory;
    failures.expect(&(section, rejected, then), is_met);
}

#[test]
fn reads_that_take_no_memory(rt: HostRuntime) -> Result<(), Failures> {
    let (alloc, mut failures) = (rt.alloc(), Failures::new(rt.alloc()));
    let it = &mut failures;
    expect_turns::<u16>(it, alloc, b"\xA1\x07", false, Outcome::Value);
    expect_turns::<Option<u8>>(it, alloc, b"\xA1\x07", false, Outcome::Value);
    expect_turns::<&str>(it, alloc, b"\x41x", false, Outcome::Value);
    expect_turns::<Probe<'_>>(
        it,
        alloc,
        b"\xE2\x41a\xA1\x07\x41k\x41x",
        false,
        Outcome::Value,
    );
    expect_turns::<Option<&[u8]>>(it, alloc, b"\x81x", false, Outcome::Value);
    // An error with a fixed text takes none either; one that names a number does.
    expect_turns::<u16>(it, alloc, b"", false, Outcome::Error);
    expect_turns::<u16>(it, alloc, b"\x41x", true, Outcome::Error);
    failures.verdict()
}

#[test]
fn reads_fail_in_turn(rt: HostRuntime) -> Result<(), Failures> {
    let (alloc, mut failures) = (rt.alloc(), Failures::new(rt.alloc()));
    let it = &mut failures;
    expect_turns::<String>(it, alloc, b"\x41x", true, Outcome::Value);
    expect_turns::<OwnedBytes>(it, alloc, b"\x81x", true, Outcome::Value);
    expect_turns::<Vec<u16>>(it, alloc, b"\x01\x04\xA1\x05", true, Outcome::Value);
    expect_turns::<Numbers>(it, alloc, b"\x01\x04\xA1\x05", true, Outcome::Value);
    expect_turns::<BTreeMap<String, u16>>(it, alloc, b"\xE1\x41k\xA1\x05", true, Outcome::Value);
    expect_turns::<Value<'_>>(it, alloc, PAIR, true, Outcome::Value);
    expect_turns::<RawValue<'_>>(it, alloc, PAIR, true, Outcome::Value);
    expect_turns::<String>(it, alloc, b"\xA1\x07", true, Outcome::Error);
    expect_turns::<OwnedBytes>(it, alloc, b"\xA1\x07", true, Outcome::Error);
    expect_turns::<Vec<u16>>(it, alloc, b"\xA1\x07", true, Outcome::Error);
    expect_turns::<Numbers>(it, alloc, b"\xE0", true, Outcome::Error);
    expect_turns::<BTreeMap<String, u16>>(it, alloc, b"\xA1\x07", true, Outcome::Error);
    expect_turns::<Value<'_>>(it, alloc, b"\x00\x06", true, Outcome::Error);
    expect_turns::<RawValue<'_>>(it, alloc, b"\x00\x06", true, Outcome::Error);
    expect_turns::<Probe<'_>>(it, alloc, b"\xE1\x41a\x41x", true, Outcome::Error);
    failures.verdict()
}

/// A step of a decoder.
#[derive(Clone, Copy, Debug)]
enum Step {
    BeginMap,
    BeginArray,
    /// Of two elements.
    BeginArrayOf,
    NextField,
    NextRawKey,
    NextKey,
    ReadKey,
    PeekKind,
    SkipValue,
    U16,
    U32,
    U64,
    U128,
    I32,
    Small,
    Bool,
    Double,
    Float,
    Bytes,
    Str,
}

// What comes of the step into a map, which is given up.
fn map_met(alloc: Global, d: &mut Decoder<'_>) -> Outcome {
    match d.begin_map(alloc) {
        Ok(entries) => {
            entries.give_up(d);
            Outcome::Value
        }
        Err(error) => error_met(error),
    }
}

// What comes of the step into an array, of so many elements if a number is given, which is given up.
fn array_met(alloc: Global, d: &mut Decoder<'_>, len: Option<usize>) -> Outcome {
    let begun = match len {
        Some(len) => d.begin_array_of(alloc, len),
        None => d.begin_array(alloc),
    };
    match begun {
        Ok(items) => {
            items.give_up(d);
            Outcome::Value
        }
        Err(error) => error_met(error),
    }
}

// What comes of the step to the next key of a map.
fn next_met(alloc: Global, step: Step, d: &mut Decoder<'_>, entries: &mut Entries) -> Outcome {
    match step {
        Step::NextField => answer_met(d.next_field(alloc, entries)),
        Step::NextRawKey => answer_met(d.next_raw_key(alloc, entries)),
        _ => answer_met(d.next_key(alloc, entries)),
    }
}

// The same of a map that is entered first.
fn key_met(alloc: Global, step: Step, d: &mut Decoder<'_>) -> Outcome {
    match d.begin_map(alloc) {
        Ok(mut entries) => {
            let met = next_met(alloc, step, d, &mut entries);
            entries.give_up(d);
            met
        }
        Err(error) => {
            drop(error);
            Outcome::Other
        }
    }
}

// What comes of the read of a scalar.
fn scalar_met(alloc: Global, step: Step, d: &mut Decoder<'_>) -> Outcome {
    match step {
        Step::U16 => answer_met(d.read_u16(alloc)),
        Step::U32 => answer_met(d.read_u32(alloc)),
        Step::U64 => answer_met(d.read_u64(alloc)),
        Step::U128 => answer_met(d.read_u128(alloc)),
        Step::I32 => answer_met(d.read_i32(alloc)),
        Step::Small => answer_met(d.read_small(alloc)),
        Step::Bool => answer_met(d.read_bool(alloc)),
        Step::Double => answer_met(d.read_double(alloc)),
        Step::Float => answer_met(d.read_float(alloc)),
        Step::Bytes => answer_met(d.read_bytes(alloc)),
        _ => answer_met(d.read_str(alloc)),
    }
}

// What comes of a step at the beginning of a section.
fn step_met(alloc: Global, step: Step, section: &[u8]) -> Outcome {
    let mut d = Decoder::new(section, 0);
    match step {
        Step::BeginMap => map_met(alloc, &mut d),
        Step::BeginArray => array_met(alloc, &mut d, None),
        Step::BeginArrayOf => array_met(alloc, &mut d, Some(2)),
        Step::NextField | Step::NextRawKey | Step::NextKey => key_met(alloc, step, &mut d),
        Step::ReadKey => answer_met(d.read_key(alloc)),
        Step::PeekKind => answer_met(d.peek_kind(alloc)),
        Step::SkipValue => answer_met(d.skip_value(alloc)),
        _ => scalar_met(alloc, step, &mut d),
    }
}

/// Steps, a section where each succeeds, which takes no memory, and one where each fails: with a text that names a number, for
/// which memory runs out in turn, or with a fixed one.
#[rattlefmt::skip]
const STEPS: &[(Step, &[u8], &[u8], bool)] = &[
    (Step::BeginMap, b"\xE1\x41k\xA1\x07", b"\x41x", true),
    (Step::BeginArray, b"\x01\x04\xA1\x07", b"\x41x", true),
    (Step::BeginArrayOf, b"\x02\x04\xA1\x07\xA1\x08", b"\x01\x04\xA1\x07", true),
    (Step::NextField, b"\xE1\x41k\xA1\x07", b"\xE1\xA1\x07\xA1\x08", true),
    (Step::NextRawKey, b"\xE1\x41k\xA1\x07", b"\xE1\xA1\x07\xA1\x08", true),
    (Step::NextKey, b"\xE1\x41k\xA1\x07", b"\xE1\xA1\x07\xA1\x08", true),
    (Step::NextKey, b"\xE0", b"\xE1\x41\xFF\xA1\x08", false),
    (Step::ReadKey, b"\x41k", b"\xA1\x07", true),
    (Step::PeekKind, b"\xA1\x07", b"", false),
    (Step::SkipValue, b"\xE1\x41k\xA1\x07", b"\x00\x06", true),
    (Step::SkipValue, b"\x20\x00", b"", false),
    (Step::U16, b"\xA1\x07", b"\x41x", true),
    (Step::U32, b"\xC1\x07", b"\x41x", true),
    (Step::U64, b"\x01\x02\x07", b"\x41x", true),
    (Step::U128, b"\x01\x03\x07", b"\x41x", true),
    (Step::I32, b"\x01\x01\x07", b"\x41x", true),
    (Step::Small, b"\xA1\x07", b"\x41x", false),
    (Step::Bool, b"\x01\x07", b"\x41x", true),
    (Step::Double, b"\x68\x3F\xF0\0\0\0\0\0\0", b"\x41x", true),
    (Step::Float, b"\x04\x08\x3F\x80\0\0", b"\x41x", true),
    (Step::Bytes, b"\x81x", b"\x41x", true),
    (Step::Str, b"\x41x", b"\xA1\x07", true),
    (Step::Str, b"\x40", b"\x41\xFF", false),
];

// Notes where a step runs out of memory more often than it takes some, or meets another answer than is wanted.
fn expect_step(
    failures: &mut Failures,
    alloc: Global,
    step: Step,
    section: &[u8],
    takes_memory: bool,
    last: Outcome,
) {
    let (rejected, then) = fail_in_turn(alloc, 16, || step_met(alloc, step, section));
    let is_met = then == last && (rejected > 0) == takes_memory;
    failures.expect(&(step, section, rejected, then), is_met);
}

#[test]
fn steps_fail_in_turn(rt: HostRuntime) -> Result<(), Failures> {
    let (alloc, mut failures) = (rt.alloc(), Failures::new(rt.alloc()));
    for (step, read, rejected, takes_memory) in STEPS {
        let it = &mut failures;
        expect_step(it, alloc, *step, read, false, Outcome::Value);
        expect_step(it, alloc, *step, rejected, *takes_memory, Outcome::Error);
    }
    failures.verdict()
}
