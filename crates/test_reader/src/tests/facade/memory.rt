//! Calls where memory runs out.
ghost use Rattle.std.specs.Prelude.{◌<◌};

use super::answers::{assert_row, assert_text, opened, reported, to_error};
use maxminddb::{IpNetwork, LookupResult, MaxMindDbError, Metadata, Reader, fuzzing};
use mmdb_vectors::base::BASE_FILE;
use mmdb_vectors::builder::{
    BASE_DATA, BASE_NODE, Field, base_file, changed_file, file_with_alias, file_without_subtree,
};
use mmdb_vectors::hoard::Hoard;
use std::alloc::{AllocError, Global};
use std::net::IpAddr;
use std::process::Abort;

/// Where the metadata of the base file begin.
const METADATA_AT: usize = 38;

/// Less than a table of a reader takes, and much more than its metadata.
const NO_TABLE: usize = 65_536;

/// A call that takes memory.
enum Call {
    ReadMetadata,
    CloneOfMetadata,
    /// A read of metadata that lack a field, whose error names the field.
    RejectedMetadata,
}

/// What came of a call.
#[derive(Clone, Copy, PartialEq, Eq)]
enum Outcome {
    Error,
    Answer,
    Wrong,
}

fn answer_met(is_right: bool) -> Outcome {
    if is_right {
        Outcome::Answer
    } else {
        Outcome::Wrong
    }
}

// What an error says, where one of decoding is this.
fn kind_met(error: &MaxMindDbError, of_decoding: Outcome) -> Outcome {
    match error {
        MaxMindDbError::Memory => Outcome::Error,
        MaxMindDbError::Decoding { .. } => of_decoding,
        _ => Outcome::Wrong,
    }
}

fn error_met(error: MaxMindDbError, of_decoding: Outcome) -> Outcome {
    let met = kind_met(&error, of_decoding);
    drop(error);
    met
}

fn metadata_met(alloc: Global) -> Outcome {
    let Some(bytes) = BASE_FILE.get(METADATA_AT..) else {
        return Outcome::Wrong;
    };
    match fuzzing::decode::<Metadata>(alloc, bytes) {
        Ok(metadata) => answer_met(metadata.node_count == 1),
        Err(error) => error_met(error, Outcome::Wrong),
    }
}

fn clone_met(metadata: &Metadata) -> Outcome {
    match metadata.clone() {
        Ok(cloned) => answer_met(cloned == *metadata),
        Err(_error) => Outcome::Error,
    }
}

fn rejected_met(alloc: Global) -> Outcome {
    match fuzzing::decode::<Metadata>(alloc, b"\xE0") {
        Ok(_) => Outcome::Wrong,
        Err(error) => error_met(error, Outcome::Answer),
    }
}

// What comes of a call where about so many bytes are left.
fn met_within(alloc: Global, call: &Call, metadata: &Metadata, budget: usize) -> Outcome
    requires { budget < 1000000 }
{
    let small = Hoard::of_all_but(alloc, budget);
    let met = match call {
        Call::ReadMetadata => metadata_met(alloc),
        Call::CloneOfMetadata => clone_met(metadata),
        Call::RejectedMetadata => rejected_met(alloc),
    };
    drop(small);
    met
}

// How many runs met an error before the first that met none, and what that one met.
fn fail_in_turn(alloc: Global, call: &Call, metadata: &Metadata) -> (u32, Outcome) {
    let large = Hoard::of_large_blocks(alloc);
    let mut rejected = 0u32;
    let mut met = Outcome::Error;
    for step in 0..256usize {
        met = met_within(alloc, call, metadata, step * 16);
        if met != Outcome::Error {
            break;
        }
        rejected = rejected.saturating_add(1);
    }
    drop(large);
    (rejected, met)
}

/// The calls by name, and how many runs of each meet an error at least.
#[rattlefmt::skip]
const CALLS: &[(&str, Call, u32)] = &[
    ("reading metadata", Call::ReadMetadata, 4),
    ("a clone of metadata", Call::CloneOfMetadata, 4),
    ("metadata that are rejected", Call::RejectedMetadata, 1),
];

#[test]
fn growths_fail_in_turn(rt: HostRuntime) {
    let base = opened(&rt, rt.alloc(), base_file(rt.alloc()));
    for (name, call, least) in CALLS {
        let (rejected, met) = fail_in_turn(rt.alloc(), call, base.metadata());
        let is_right = met == Outcome::Answer && rejected >= *least;
        assert_row(&rt, is_right, &(name, rejected));
    }
}

/// Whether there is data, where it is, and for which network.
type Parts = (bool, Option<usize>, IpNetwork);

fn parts(found: LookupResult<'_, Vec<u8>>) -> Result<Parts, MaxMindDbError> {
    match found.network() {
        Ok(network) => Ok((found.has_data(), found.offset(), network)),
        Err(error) => Err(error),
    }
}

// What is answered for an address where every allocation fails.
fn found_without_memory(
    alloc: Global,
    reader: &Reader<Vec<u8>>,
    address: IpAddr,
) -> Result<Parts, MaxMindDbError> {
    let large = Hoard::of_large_blocks(alloc);
    let small = Hoard::of_all_left(alloc);
    let found = reader.lookup(address).and_then(parts);
    drop(small);
    drop(large);
    found
}

// The address that a text spells.
fn address_of(rt: &impl Abort, text: &str) -> IpAddr {
    text.parse().expect(rt, text)
}

// The same as text.
fn found_text(alloc: Global, found: Result<Parts, MaxMindDbError>) -> Result<String, AllocError> {
    match found {
        Ok((has_data, offset, network)) => format!(in alloc; "{has_data} {offset:?} {network}"),
        Err(error) => to_error(alloc, error),
    }
}

/// Addresses, and what is answered for each.
#[rattlefmt::skip]
const FOUND: &[(&str, &str)] = &[
    ("1.1.1.1", "false None 0.0.0.0/1"),
    ("200.0.0.1", "true Some(0) 128.0.0.0/1"),
    (
        "::1",
        "invalid input: cannot look up IPv6 address in IPv4-only database",
    ),
];

#[test]
fn lookups_without_memory(rt: HostRuntime) {
    let alloc = rt.alloc();
    let reader = opened(&rt, alloc, base_file(alloc));
    for (address, text) in FOUND {
        let found = found_without_memory(alloc, &reader, address_of(&rt, address));
        assert_text(&rt, found_text(alloc, found), text);
    }
}

/// What is read where every allocation fails.
#[derive(Clone, Copy, PartialEq, Eq)]
enum Read {
    LetterX,
    Nothing,
    Memory,
    Wrong,
}

fn text_read(text: Option<&str>) -> Read {
    match text {
        Some("x") => Read::LetterX,
        Some(_) => Read::Wrong,
        None => Read::Nothing,
    }
}

fn error_read(error: MaxMindDbError) -> Read {
    match error_met(error, Outcome::Wrong) {
        Outcome::Error => Read::Memory,
        _ => Read::Wrong,
    }
}

fn text_or_error(read: Result<Option<&str>, MaxMindDbError>) -> Read {
    match read {
        Ok(text) => text_read(text),
        Err(error) => error_read(error),
    }
}

fn number_or_error(read: Result<Option<u16>, MaxMindDbError>) -> Read {
    match read {
        Ok(_) => Read::Wrong,
        Err(error) => error_read(error),
    }
}

fn read_of(alloc: Global, found: LookupResult<'_, Vec<u8>>, is_number: bool) -> Read {
    if is_number {
        number_or_error(found.decode(alloc))
    } else {
        text_or_error(found.decode(alloc))
    }
}

// The same of an answer that may be an error.
fn read_or_rejected(
    alloc: Global,
    found: Result<LookupResult<'_, Vec<u8>>, MaxMindDbError>,
    is_number: bool,
) -> Read {
    match found {
        Ok(found) => read_of(alloc, found, is_number),
        Err(error) => wrong(error),
    }
}

fn wrong<E: Drop>(_error: E) -> Read {
    Read::Wrong
}

fn read_without_memory(
    alloc: Global,
    reader: &Reader<Vec<u8>>,
    address: IpAddr,
    is_number: bool,
) -> Read {
    let large = Hoard::of_large_blocks(alloc);
    let small = Hoard::of_all_left(alloc);
    let read = read_or_rejected(alloc, reader.lookup(address), is_number);
    drop(small);
    drop(large);
    read
}

/// What is read of an address, as a number or as a text, and what comes of it.
#[rattlefmt::skip]
const READS: &[(&str, bool, Read)] = &[
    ("200.0.0.1", false, Read::LetterX),
    ("1.1.1.1", false, Read::Nothing),
    ("200.0.0.1", true, Read::Memory),
];

#[test]
fn reads_without_memory(rt: HostRuntime) {
    let alloc = rt.alloc();
    let reader = opened(&rt, alloc, base_file(alloc));
    for (text, is_number, wanted) in READS {
        let read = read_without_memory(alloc, &reader, address_of(&rt, text), *is_number);
        assert_row(&rt, read == *wanted, &(text, "as a number", is_number));
    }
}

// What is answered of a file where about so many bytes are left, or the text of its error.
fn verdict_within(alloc: Global, file: &[u8], budget: usize) -> Result<String, AllocError>
    requires { budget < 1000000 }
{
    let large = Hoard::of_large_blocks(alloc);
    let small = Hoard::of_all_but(alloc, budget);
    let opened = Reader::from_source(alloc, file);
    drop(small);
    drop(large);
    reported(alloc, opened, "accepted")
}

// Asserts the same of the base file with this record size.
fn assert_verdict(rt: &impl Abort, alloc: Global, size: &[u8], budget: usize, text: &str)
    requires { budget < 1000000 }
{
    let changes = [(Field::RecordSize, size)];
    let file = changed_file(alloc, BASE_NODE, BASE_DATA, &changes).expect(rt, "a file");
    assert_text(rt, verdict_within(alloc, file.as_slice(), budget), text);
}

#[test]
fn table_fails(rt: HostRuntime) {
    let alloc = rt.alloc();
    let wrong_size = "invalid database: record_size - Expected: 24, 28, or 32 Actual: 16";
    // What else rejects a file does so before the table is reserved.
    assert_verdict(&rt, alloc, b"\xA1\x18", NO_TABLE, "out of memory");
    assert_verdict(&rt, alloc, b"\xA1\x18", 0, "out of memory");
    assert_verdict(&rt, alloc, b"\xA1\x10", NO_TABLE, wrong_size);
    for page in 0..16usize {
        assert_verdict(&rt, alloc, b"\xA1\x18", page * 4_096, "out of memory");
    }
}

/// Where budgets of a reader begin, by how many bytes they differ, and how many there are.
const FIRST: usize = 65_536;

const PIECE: usize = 131_072;

const PIECES: usize = 24;

// Of so many budgets, how often a file runs out of memory, and how often it is accepted.
fn budgets_of(alloc: Global, file: &[u8]) -> (u32, u32) {
    let (mut rejected, mut accepted) = (0u32, 0u32);
    for piece in 0..PIECES {
        let hoard = Hoard::around(alloc, FIRST + piece * PIECE);
        let opened = Reader::from_source(alloc, file);
        drop(hoard);
        match opened {
            Ok(_) => accepted = accepted.saturating_add(1),
            Err(error) => match error_met(error, Outcome::Wrong) {
                Outcome::Error => rejected = rejected.saturating_add(1),
                _ => return (0, 0),
            },
        }
    }
    (rejected, accepted)
}

// The base file; one of IPv6, which has a table for each kind of addresses; or one of IPv6 without IPv4.
fn file_with_tables(alloc: Global, tables: &str) -> Result<Vec<u8>, AllocError> {
    match tables {
        "both" => file_with_alias(alloc),
        "IPv6" => file_without_subtree(alloc),
        _ => base_file(alloc),
    }
}

/// Which tables a file has, and how many budgets are smaller than these: a table takes 320 KiB.
const TABLES: &[(&str, u32)] = &[("IPv4", 2), ("both", 5), ("IPv6", 2)];

#[test]
fn tables_fail_in_turn(rt: HostRuntime) {
    let alloc = rt.alloc();
    for (tables, least) in TABLES {
        let file = file_with_tables(alloc, tables).expect(&rt, "a file");
        let (rejected, accepted) = budgets_of(alloc, file.as_slice());
        let is_right = rejected >= *least && accepted > 0;
        assert_row(&rt, is_right, &(tables, rejected, accepted));
    }
}

// What is answered of a file where every allocation fails.
fn verdict_without_memory(alloc: Global, file: &[u8]) -> Result<String, AllocError> {
    let large = Hoard::of_large_blocks(alloc);
    let small = Hoard::of_all_left(alloc);
    let opened = Reader::from_source(alloc, file);
    drop(small);
    drop(large);
    reported(alloc, opened, "accepted")
}

#[test]
fn files_without_memory(rt: HostRuntime) {
    let alloc = rt.alloc();
    assert_text(
        &rt,
        verdict_without_memory(alloc, BASE_FILE),
        "out of memory",
    );
    let opened = Reader::from_source(alloc, BASE_FILE);
    assert_text(&rt, reported(alloc, opened, "accepted"), "accepted");
}
