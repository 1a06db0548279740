//! Paths where memory runs out.
use super::vectors::{RECORD, file_of};
use maxminddb::PathElement::{Index, IndexFromEnd, Key};
use maxminddb::{LookupResult, MaxMindDbError, PathElement, Reader, Value, render_path};
use mmdb_vectors::base::{high, low};
use mmdb_vectors::failures::Failures;
use mmdb_vectors::hoard::{Hoard, Outcome, fail_in_turn};
use std::alloc::Global;

/// A call that takes memory.
#[derive(Clone, Copy, Debug)]
enum Call {
    /// A list at the end of a path.
    ReadList,
    /// A step that fails at a value of another type.
    RejectedStep,
    /// A value at the end of a path that is of another type.
    RejectedValue,
    RenderPath,
}

// What an error says of a call.
fn kind_met(error: &MaxMindDbError) -> Outcome {
    match error {
        MaxMindDbError::Memory => Outcome::Memory,
        MaxMindDbError::Decoding { path: Some(_), .. } => Outcome::Error,
        _ => Outcome::Other,
    }
}

fn error_met(error: MaxMindDbError) -> Outcome {
    let met = kind_met(&error);
    drop(error);
    met
}

fn outcome<T: Drop>(reported: Result<T, MaxMindDbError>) -> Outcome {
    match reported {
        Ok(_) => Outcome::Value,
        Err(error) => error_met(error),
    }
}

fn call_met(alloc: Global, call: Call, found: LookupResult<'_, &[u8]>) -> Outcome {
    match call {
        Call::ReadList => outcome(found.decode_path::<Vec<u16>>(alloc, &[Key("a")])),
        Call::RejectedStep => outcome(found.decode_path::<u16>(alloc, &[Key("a"), Key("x")])),
        Call::RejectedValue => outcome(found.decode_path::<&str>(alloc, &[Key("a"), Index(0)])),
        Call::RenderPath => outcome(render_path(alloc, &[Key("a"), IndexFromEnd(1)])),
    }
}

/// A call, what it meets once no allocation fails, and how many growths it has at least.
const CALLS: [(Call, Outcome, u32); 4] = [
    (Call::ReadList, Outcome::Value, 1),
    (Call::RejectedStep, Outcome::Error, 2),
    (Call::RejectedValue, Outcome::Error, 2),
    (Call::RenderPath, Outcome::Value, 1),
];

// Notes the calls on a record that meet something else in turn.
fn expect_calls(failures: &mut Failures, alloc: Global, found: LookupResult<'_, &[u8]>) {
    for (call, last, least) in CALLS {
        let (rejected, met) = fail_in_turn(alloc, 16, || call_met(alloc, call, found));
        failures.expect(&(call, rejected, met), met == last && rejected >= least);
    }
}

// The same of an answer that may be an error.
fn expect_found(
    failures: &mut Failures,
    alloc: Global,
    found: Result<LookupResult<'_, &[u8]>, MaxMindDbError>,
) {
    match found {
        Ok(found) => expect_calls(failures, alloc, found),
        Err(error) => failures.note(&"lookup", &error),
    }
}

// The calls on the record of a file, or the error of the file.
fn expect_turns(
    failures: &mut Failures,
    alloc: Global,
    opened: Result<Reader<&[u8]>, MaxMindDbError>,
) {
    match opened {
        Ok(reader) => expect_found(failures, alloc, reader.lookup(high())),
        Err(error) => failures.note(&"reader", &error),
    }
}

#[test]
fn growths_fail_in_turn(rt: HostRuntime) -> Result<(), Failures> {
    let (alloc, mut failures) = (rt.alloc(), Failures::new(rt.alloc()));
    let file = file_of(alloc, RECORD);
    expect_turns(
        &mut failures,
        alloc,
        Reader::from_source(alloc, file.as_slice()),
    );
    failures.verdict()
}

/// What is asked for where every allocation fails, and the answer.
#[derive(Clone, Copy)]
enum Wanted {
    Number(Option<u16>),
    Text(&'static str),
    /// A number, whose read runs out of memory.
    RejectedNumber,
    /// Any value, whose read runs out of memory.
    RejectedValue,
    /// The path itself as a text, which runs out of memory.
    RejectedPath,
}

fn is_wanted(
    alloc: Global,
    found: LookupResult<'_, &[u8]>,
    path: &[PathElement<'_>],
    wanted: Wanted,
) -> bool {
    match wanted {
        Wanted::Number(number) => { found.decode_path::<u16>(alloc, path).ok() == Some(number) }
        Wanted::Text(text) => { found.decode_path::<&str>(alloc, path).ok() == Some(Some(text)) }
        Wanted::RejectedNumber => outcome(found.decode_path::<u16>(alloc, path)) == Outcome::Memory,
        Wanted::RejectedValue => outcome(found.decode_path::<Value<'_>>(alloc, path))
            == Outcome::Memory,
        Wanted::RejectedPath => outcome(render_path(alloc, path)) == Outcome::Memory,
    }
}

// The same of an answer that may be an error.
fn is_found(
    alloc: Global,
    found: Option<LookupResult<'_, &[u8]>>,
    path: &[PathElement<'_>],
    wanted: Wanted,
) -> bool {
    match found {
        Some(found) => is_wanted(alloc, found, path, wanted),
        None => false,
    }
}

// Whether a row has its answer where every allocation fails.
fn holds_without_memory(alloc: Global, reader: &Reader<&[u8]>, row: &Row) -> bool {
    let (has_data, path, wanted) = row;
    let address = if *has_data { high() } else { low() };
    let large = Hoard::of_large_blocks(alloc);
    let small = Hoard::of_all_left(alloc);
    let holds = is_found(alloc, reader.lookup(address).ok(), path, *wanted);
    drop(small);
    drop(large);
    holds
}

/// Whether the address has data, a path, and what is asked for at its end.
type Row = (bool, &'static [PathElement<'static>], Wanted);

const ROWS: &[Row] = &[
    (true, &[Key("a"), IndexFromEnd(0)], Wanted::Number(Some(6))),
    (true, &[Key("b"), Key("c")], Wanted::Text("x")),
    (true, &[Key("a"), Index(2)], Wanted::Number(None)),
    (false, &[Key("a")], Wanted::Number(None)),
    (true, &[Key("b"), Index(0)], Wanted::RejectedNumber),
    (true, &[Key("b"), Key("c")], Wanted::RejectedNumber),
    (true, &[Key("b")], Wanted::RejectedValue),
    (true, &[Key("a")], Wanted::RejectedPath),
];

// Notes the rows that have another answer where every allocation fails, or the error of the file.
fn expect_rows(
    failures: &mut Failures,
    alloc: Global,
    opened: Result<Reader<&[u8]>, MaxMindDbError>,
) {
    match opened {
        Ok(reader) => {
            for row in ROWS {
                failures.expect(&row.1, holds_without_memory(alloc, &reader, row));
            }
        }
        Err(error) => failures.note(&"reader", &error),
    }
}

#[test]
fn every_growth_fails(rt: HostRuntime) -> Result<(), Failures> {
    let (alloc, mut failures) = (rt.alloc(), Failures::new(rt.alloc()));
    let file = file_of(alloc, RECORD);
    expect_rows(
        &mut failures,
        alloc,
        Reader::from_source(alloc, file.as_slice()),
    );
    failures.verdict()
}
