//! Calls with more memory in turn, until no allocation fails.
ghost use Rattle.std.specs.Prelude.{◌<◌};

use super::asserts::{assert_holds, opened};
use super::constructors::{Constructor, made};
use super::sink::{End, OneByte, one_byte};
use mmdb_reader::{IpNetwork, MaxMindDbError, Reader, WithinOptions};
use mmdb_report::{ReportError, report_on};
use mmdb_tool::{ListError, list_to, lookup_line};
use mmdb_value::Checked;
use mmdb_vectors::base::{BASE_FILE, high};
use mmdb_vectors::builder::{BASE_DATA, BASE_NODE, Field, changed_file, push_node_24};
use mmdb_vectors::hoard::Hoard;
use std::alloc::{AllocError, Global};
use std::net::{IpAddr, Ipv6Addr};
use std::process::Abort;

/// The line of an address of the base file that has data, which is the list of the file too.
pub(crate) const LEAF: &str = "128.0.0.0/1 0\n";

/// An address that no IPv4 file has.
const IPV6: IpAddr = IpAddr::V6(Ipv6Addr::LOCALHOST);

/// A call.
pub(crate) enum Call {
    Within,
    WithinOfIpv6,
    Networks,
    Line,
    LineOfIpv6,
    List,
    ListOfIpv6,
    Report,
    ReportOfIpv6,
    /// A file whose error names a number.
    RejectedSource,
    FullText,
    NewChecked,
    Made(&'static Constructor),
}

/// What came of a call.
#[derive(Clone, Copy, PartialEq, Eq)]
pub(crate) enum Outcome {
    Memory,
    Answer,
    Error,
    Wrong,
}

fn kind_met(error: &MaxMindDbError) -> Outcome {
    match error {
        MaxMindDbError::Memory => Outcome::Memory,
        _ => Outcome::Error,
    }
}

/// What an error says of a call.
pub(crate) fn error_met(error: MaxMindDbError) -> Outcome {
    kind_met(&error)
}

fn answer_met(is_right: bool) -> Outcome {
    if is_right {
        Outcome::Answer
    } else {
        Outcome::Wrong
    }
}

/// What an answer says of a call.
pub(crate) fn outcome_of<T: Drop>(answer: Result<T, MaxMindDbError>) -> Outcome {
    match answer {
        Ok(_) => Outcome::Answer,
        Err(error) => error_met(error),
    }
}

/// What the calls are made on.
#[derive(Drop)]
struct Given {
    base: Reader<&'static [u8]>,
    offsets: Reader<Vec<u8>>,
    rejected: Vec<u8>,
    ipv4: IpNetwork,
    ipv6: IpNetwork,
}

// An IPv4 file of twenty nodes: each leads to the next on the left, the last one to no data, and each to an
// offset of its own on the right.
fn file_of_twenty_offsets(alloc: Global) -> Result<Vec<u8>, AllocError> {
    let mut nodes = Vec::new(alloc);
    for node in 0..20u32 {
        push_node_24(&mut nodes, node + 1, node + 36)?;
    }
    changed_file(
        alloc,
        nodes.as_slice(),
        &[0x40; 20],
        &[(Field::NodeCount, b"\xC1\x14".as_slice())],
    )
}

// A file with records of 16 bits.
fn rejected_file(alloc: Global) -> Result<Vec<u8>, AllocError> {
    let record_size = [(Field::RecordSize, b"\xA1\x10".as_slice())];
    changed_file(alloc, BASE_NODE, BASE_DATA, &record_size)
}

// A reader of a file of twenty offsets.
fn reader_of_twenty_offsets(rt: &impl Abort, alloc: Global) -> Reader<Vec<u8>> {
    let file = file_of_twenty_offsets(alloc).expect(rt, "a file");
    Reader::from_source(alloc, file).expect(rt, "a file that is accepted")
}

impl Given {
    /// The readers, files and ranges.
    fn new(rt: &impl Abort, alloc: Global) -> Given {
        Given {
            base: opened(rt, alloc, BASE_FILE),
            offsets: reader_of_twenty_offsets(rt, alloc),
            rejected: rejected_file(alloc).expect(rt, "a file"),
            ipv4: "0.0.0.0/0".parse().expect(rt, "a range"),
            ipv6: "::/0".parse().expect(rt, "a range"),
        }
    }
}

fn line_met(alloc: Global, given: &Given, address: IpAddr) -> Outcome {
    match lookup_line(alloc, &given.base, address) {
        Ok(line) => answer_met(line.as_str() == LEAF),
        Err(error) => error_met(error),
    }
}

fn list_error_met(error: ListError) -> Outcome {
    match error {
        ListError::Database(error) => error_met(error),
        _ => Outcome::Wrong,
    }
}

fn list_met(alloc: Global, given: &Given, range: IpNetwork, sink: &mut OneByte) -> Outcome {
    match list_to(alloc, &given.base, range, WithinOptions::default(), sink) {
        Ok(()) => Outcome::Answer,
        Err(error) => list_error_met(error),
    }
}

fn report_error_met(error: ReportError) -> Outcome {
    match error {
        ReportError::Database(error) => error_met(error),
        ReportError::TooMany => Outcome::Wrong,
    }
}

fn report_met(alloc: Global, given: &Given, range: IpNetwork) -> Outcome {
    match report_on(alloc, &given.offsets, range, WithinOptions::default()) {
        Ok(report) => answer_met(report.distinct_offsets == 20),
        Err(error) => report_error_met(error),
    }
}

fn text_met(alloc: Global, network: IpNetwork) -> Outcome {
    match network.full_text(alloc) {
        Ok(_) => Outcome::Answer,
        Err(_) => Outcome::Memory,
    }
}

// What comes of a call.
fn met_by(alloc: Global, call: &Call, given: &Given, sink: &mut OneByte) -> Outcome {
    let options = WithinOptions::default();
    match call {
        Call::Within => outcome_of(given.base.within(alloc, given.ipv4, options)),
        Call::WithinOfIpv6 => outcome_of(given.base.within(alloc, given.ipv6, options)),
        Call::Networks => outcome_of(given.base.networks(alloc, options)),
        Call::Line => line_met(alloc, given, high()),
        Call::LineOfIpv6 => line_met(alloc, given, IPV6),
        Call::List => list_met(alloc, given, given.ipv4, sink),
        Call::ListOfIpv6 => list_met(alloc, given, given.ipv6, sink),
        Call::Report => report_met(alloc, given, given.ipv4),
        Call::ReportOfIpv6 => report_met(alloc, given, given.ipv6),
        Call::RejectedSource => outcome_of(Reader::from_source(alloc, given.rejected.as_slice())),
        Call::FullText => text_met(alloc, given.ipv4),
        Call::NewChecked => outcome_of(Checked::new(alloc, BASE_DATA)),
        Call::Made(constructor) => error_met(made(alloc, constructor)),
    }
}

// How much memory a call is left with: steps of 16 bytes. Of these the positions of a list take some; its lines
// take 32 KiB, and it goes on in steps of 2 KiB.
fn budget_of(call: &Call, step: usize) -> usize
    requires { step < 512 }
    ensures { result < 1000000 }
{
    match call {
        Call::List if step >= 128 => (step - 127) * 2048,
        _ => step * 16,
    }
}

// What comes of a call where about so many bytes are left. Only a list writes something, and all of it or nothing.
fn met_within(rt: &impl Abort, alloc: Global, call: &Call, given: &Given, budget: usize) -> Outcome
    requires { budget < 1000000 }
{
    let mut sink = one_byte(rt, alloc, 100, End::Fails);
    let small = Hoard::of_all_but(alloc, budget);
    let met = met_by(alloc, call, given, &mut sink);
    drop(small);
    let wrote = match call {
        Call::List if met == Outcome::Answer => LEAF,
        _ => "",
    };
    assert_holds(rt, sink.bytes() == wrote.as_bytes(), "what a list wrote");
    met
}

// How often a call fails for lack of memory, and what comes of it then.
fn rejections(rt: &impl Abort, alloc: Global, call: &Call, given: &Given) -> (u32, Outcome) {
    let large = Hoard::of_large_blocks(alloc);
    let mut rejected = 0u32;
    let mut met = Outcome::Memory;
    for step in 0..512usize {
        met = met_within(rt, alloc, call, given, budget_of(call, step));
        if met != Outcome::Memory {
            break;
        }
        rejected = rejected.saturating_add(1);
    }
    drop(large);
    (rejected, met)
}

/// A call by name, what it meets with enough memory, and how often it fails for it before, at least and at
/// most.
pub(crate) type Row = (&'static str, Call, Outcome, u32, u32);

// Asserts what a call meets.
fn assert_met(rt: &impl Abort, alloc: Global, given: &Given, row: &Row) {
    let (name, call, last, least, most) = row;
    let (rejected, met) = rejections(rt, alloc, call, given);
    let is_right = met == *last && rejected >= *least && rejected <= *most;
    assert!(rt; is_right, "{name}: {rejected} rejections");
}

/// Asserts what calls meet.
pub(crate) fn assert_all_met(rt: &impl Abort, alloc: Global, rows: &[Row]) {
    let given = Given::new(rt, alloc);
    for row in rows {
        assert_met(rt, alloc, &given, row);
    }
}

/// The calls; one that takes no memory never fails for it.
#[rattlefmt::skip]
const CALLS: &[Row] = &[
    ("within", Call::Within, Outcome::Answer, 1, 511),
    ("within of IPv6", Call::WithinOfIpv6, Outcome::Error, 0, 0),
    ("networks", Call::Networks, Outcome::Answer, 1, 511),
    ("lookup_line of IPv6", Call::LineOfIpv6, Outcome::Error, 0, 0),
    ("list_to of IPv6", Call::ListOfIpv6, Outcome::Error, 0, 0),
    ("report_on of IPv6", Call::ReportOfIpv6, Outcome::Error, 0, 0),
    ("from_source", Call::RejectedSource, Outcome::Error, 1, 511),
    ("full_text", Call::FullText, Outcome::Answer, 1, 511),
    ("Checked::new", Call::NewChecked, Outcome::Answer, 1, 511),
    ("invalid_database", Call::Made(&Constructor::InvalidDatabase), Outcome::Error, 1, 511),
    ("invalid_database_at", Call::Made(&Constructor::InvalidDatabaseAt), Outcome::Error, 1, 511),
    ("decoding", Call::Made(&Constructor::Decoding), Outcome::Error, 1, 511),
    ("decoding_at", Call::Made(&Constructor::DecodingAt), Outcome::Error, 1, 511),
    ("decoding_at_path", Call::Made(&Constructor::DecodingAtPath), Outcome::Error, 1, 511),
    ("resource_limit_at", Call::Made(&Constructor::ResourceLimitAt), Outcome::Error, 1, 511),
    ("invalid_input", Call::Made(&Constructor::InvalidInput), Outcome::Error, 1, 511),
];

#[test]
fn growths_fail_in_turn(rt: HostRuntime) {
    assert_all_met(&rt, rt.alloc(), CALLS);
}
