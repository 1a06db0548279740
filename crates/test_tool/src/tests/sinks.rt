//! Sinks that take one byte a call, and then no more.
use super::asserts::{
    OF_RANGE, assert_holds, assert_printed, assert_taken, assert_written, opened, run_on_base,
};
use super::sink::{End, one_byte};
use mmdb_reader::{IpNetwork, WithinOptions};
use mmdb_tool::{Fault, ListError, Out, list_to};
use mmdb_vectors::base::BASE_FILE;
use mmdb_vectors::equality::equality;
use std::alloc::Global;
use std::io;
use std::process::Abort;

const FOUND: [&str; 3] = ["lookup", "here.mmdb", "200.0.0.1"];

/// Words, the call that a sink ends at and how, what it wrote till then, its fault, and the status.
type Run = (&'static [&'static str], u32, End, &'static str, Fault, u8);

#[rattlefmt::skip]
const RUNS: &[Run] = &[
    (&FOUND, 100, End::Fails, "128.0.0.0/1 0\n", Fault::Free, 0),
    (&FOUND, 6, End::Fails, "128.0", Fault::Failed, 1),
    (&FOUND, 6, End::TakesNone, "128.0", Fault::Stalled, 1),
    (&[], 7, End::Fails, "usage:", Fault::Failed, 1),
    (&[], 7, End::TakesNone, "usage:", Fault::Stalled, 1),
];

// Asserts what a run writes, and what it reports of a sink that fails.
fn assert_run(rt: &impl Abort, alloc: Global, run: &Run, rejected: &str) {
    let (texts, ends_at, end, wrote, fault, status) = run;
    let mut out = one_byte(rt, alloc, *ends_at, *end);
    let mut err = Out::new(Vec::new(alloc));
    run_on_base(rt, alloc, texts, &mut out, &mut err, *status);
    assert_taken(rt, &out, wrote, *fault);
    let text = match fault {
        Fault::Free => "",
        Fault::Failed => rejected,
        Fault::Stalled => "write stopped\n",
    };
    assert_written(rt, err, text, texts);
}

#[test]
fn sinks_that_fail(rt: HostRuntime) {
    let alloc = rt.alloc();
    let rejected = io::Error::from(io::ErrorKind::InvalidData);
    let rejected = format!(in alloc; "write error: {rejected}\n").expect(&rt, "a text");
    for run in RUNS {
        assert_run(&rt, alloc, run, rejected.as_str());
    }
}

/// Words, the call that the sink of errors ends at, what it wrote till then, and the status.
type FaultOfErr = (&'static [&'static str], u32, &'static str, u8);

#[rattlefmt::skip]
const FAULTS_OF_ERR: &[FaultOfErr] = &[
    (&["frob"], 1, "", 2),
    (&["frob"], 3, "us", 2),
    (&["lookup", "here.mmdb", "::1"], 1, "", 1),
    (&["lookup", "here.mmdb", "::1"], 3, "in", 1),
];

// Asserts what a run does whose sink of errors ends so.
fn assert_fault_of_err(rt: &impl Abort, alloc: Global, row: &FaultOfErr, end: End, fault: Fault) {
    let (texts, ends_at, wrote, status) = row;
    let mut out = Out::new(Vec::new(alloc));
    let mut err = one_byte(rt, alloc, *ends_at, end);
    run_on_base(rt, alloc, texts, &mut out, &mut err, *status);
    assert_taken(rt, &err, wrote, fault);
    assert_written(rt, out, "", texts);
}

#[test]
fn faults_of_err(rt: HostRuntime) {
    for row in FAULTS_OF_ERR {
        assert_fault_of_err(&rt, rt.alloc(), row, End::Fails, Fault::Failed);
        assert_fault_of_err(&rt, rt.alloc(), row, End::TakesNone, Fault::Stalled);
    }
}

const FAULTS: [Fault; 3] = [Fault::Free, Fault::Failed, Fault::Stalled];

#[test]
fn faults_that_are_equal(rt: HostRuntime) {
    for (i, a) in FAULTS.iter().enumerate() {
        for (j, b) in FAULTS.iter().enumerate() {
            assert!(rt; equality(a, b) == Some(i == j), "{i} and {j}");
        }
    }
}

// The fault for which a list failed; none where the database failed.
fn fault_of(error: ListError) -> Option<Fault> {
    match error {
        ListError::Write(_) => Some(Fault::Failed),
        ListError::Stopped => Some(Fault::Stalled),
        ListError::Database(_) => None,
    }
}

// The fault that a list met.
fn fault_met(done: Result<(), ListError>) -> Option<Fault> {
    match done {
        Ok(()) => Some(Fault::Free),
        Err(error) => fault_of(error),
    }
}

// Asserts what a list of the base file writes to a sink that ends so.
fn assert_list(rt: &impl Abort, alloc: Global, ends_at: u32, end: End, wrote: &str, fault: Fault) {
    let reader = opened(rt, alloc, BASE_FILE);
    let range: IpNetwork = "0.0.0.0/0".parse().expect(rt, "a range");
    let mut sink = one_byte(rt, alloc, ends_at, end);
    let done = list_to(alloc, &reader, range, WithinOptions::default(), &mut sink);
    assert_holds(rt, fault_met(done) == Some(fault), wrote);
    assert_taken(rt, &sink, wrote, fault);
}

#[test]
fn lists_to_sinks_that_end(rt: HostRuntime) {
    let alloc = rt.alloc();
    assert_list(&rt, alloc, 100, End::Fails, "128.0.0.0/1 0\n", Fault::Free);
    assert_list(&rt, alloc, 6, End::Fails, "128.0", Fault::Failed);
    assert_list(&rt, alloc, 6, End::TakesNone, "128.0", Fault::Stalled);
}

#[test]
fn list_of_a_range_of_another_kind(rt: HostRuntime) {
    let alloc = rt.alloc();
    let reader = opened(&rt, alloc, BASE_FILE);
    let range: IpNetwork = "::/0".parse().expect(&rt, "a range");
    let mut sink = one_byte(&rt, alloc, 100, End::Fails);
    let done = list_to(alloc, &reader, range, WithinOptions::default(), &mut sink);
    assert_printed(&rt, alloc, done.expect_err(&rt, "a to_error"), OF_RANGE);
    assert_taken(&rt, &sink, "", Fault::Free);
}
