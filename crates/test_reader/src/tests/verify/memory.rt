//! Verifications where memory runs out.
ghost use Rattle.std.specs.Prelude.{◌<◌};

use super::files::{ladder, opened};
use mmdb_reader::{MaxMindDbError, Reader, Steps};
use mmdb_vectors::builder::base_file;
use mmdb_vectors::hoard::Hoard;
use std::alloc::{AllocError, Global};
use std::process::Abort;

/// What came of a verification.
#[derive(Clone, Copy, PartialEq, Eq)]
enum Outcome {
    Memory,
    Whole,
    Error,
}

fn kind_met(error: &MaxMindDbError) -> Outcome {
    match error {
        MaxMindDbError::Memory => Outcome::Memory,
        _ => Outcome::Error,
    }
}

fn outcome_of(answer: Result<(), MaxMindDbError>) -> Outcome {
    match answer {
        Ok(()) => Outcome::Whole,
        Err(error) => kind_met(&error),
    }
}

// The verdict on a small file, by the call that counts positions or by the other one.
fn verdict_on(
    alloc: Global,
    reader: &Reader<Vec<u8>>,
    is_counted: bool,
) -> Result<(), MaxMindDbError> {
    if is_counted && reader.metadata().node_count <= 1000 {
        let mut steps = Steps::new();
        return reader.verify_counted(alloc, &mut steps);
    }
    reader.verify(alloc)
}

// What came of the verification of a file where about so many bytes are left.
fn met_within(alloc: Global, reader: &Reader<Vec<u8>>, is_counted: bool, budget: usize) -> Outcome
    requires { budget < 1000000 }
{
    let small = Hoard::of_all_but(alloc, budget);
    let answer = verdict_on(alloc, reader, is_counted);
    drop(small);
    outcome_of(answer)
}

// How often a verification fails for lack of memory, and what comes of it then.
fn fail_in_turn(alloc: Global, reader: &Reader<Vec<u8>>, is_counted: bool) -> (u32, Outcome) {
    let large = Hoard::of_large_blocks(alloc);
    let mut rejected = 0u32;
    let mut met = Outcome::Memory;
    for step in 0..256usize {
        met = met_within(alloc, reader, is_counted, step * 16);
        if met != Outcome::Memory {
            break;
        }
        rejected = rejected.saturating_add(1);
    }
    drop(large);
    (rejected, met)
}

// Asserts that each verification of a file runs out of memory at first, and what comes of it then.
fn assert_in_turn(
    rt: &impl Abort,
    alloc: Global,
    file: Result<Vec<u8>, AllocError>,
    last: Outcome,
    case: &str,
) {
    let reader = opened(rt, alloc, file);
    for is_counted in [false, true] {
        let (rejected, met) = fail_in_turn(alloc, &reader, is_counted);
        assert!(rt; met == last && rejected > 2, "{case}: {rejected}");
    }
}

#[test]
fn growths_fail_in_turn(rt: HostRuntime) {
    let alloc = rt.alloc();
    // The base file takes the marks of the metadata, the points and the offsets of the walk, and the marks of the
    // data; the other is rejected with a text that takes memory.
    assert_in_turn(
        &rt,
        alloc,
        base_file(alloc),
        Outcome::Whole,
        "the base file",
    );
    assert_in_turn(&rt, alloc, ladder(alloc, 4), Outcome::Error, "a ladder");
}
