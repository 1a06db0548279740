//! Checks where memory runs out.
use mmdb_value::fuzzing::verify;
use mmdb_value::{Checked, MaxMindDbError, check_value};
use mmdb_vectors::answer::reported;
use mmdb_vectors::failures::Failures;
use mmdb_vectors::hoard::{Hoard, Outcome, fail_in_turn};
use std::alloc::{AllocError, Global};

/// A pointer to a pointer to a text.
const POINTERS: &[u8] = b"\x20\x02\x20\x04\x41x";

/// A value of no type, whose error names a number.
const OF_NO_TYPE: &[u8] = b"\x00\x06";

fn outcome(answer: Result<(), MaxMindDbError>) -> Outcome {
    match answer {
        Ok(()) => Outcome::Value,
        Err(MaxMindDbError::Memory) => Outcome::Memory,
        Err(_) => Outcome::Error,
    }
}

#[test]
fn growths_fail_in_turn(rt: HostRuntime) -> Result<(), Failures> {
    let (alloc, mut failures) = (rt.alloc(), Failures::new(rt.alloc()));
    for (section, last) in [(POINTERS, Outcome::Value), (OF_NO_TYPE, Outcome::Error)] {
        let (rejected, then) = fail_in_turn(alloc, 16, || outcome(verify(alloc, section)));
        failures.expect(&(section, rejected, then), then == last && rejected > 0);
    }
    failures.verdict()
}

// What a check of a section's first value meets where every allocation fails, and what is reported by the same
// check once more.
fn checked_twice(alloc: Global, section: &[u8]) -> (Outcome, Result<String, AllocError>) {
    let Ok(mut checked) = Checked::new(alloc, section) else {
        return (Outcome::Error, Err(AllocError));
    };
    let large = Hoard::of_large_blocks(alloc);
    let small = Hoard::of_all_left(alloc);
    let met = outcome(check_value(alloc, &mut checked, 0));
    drop(small);
    drop(large);
    (met, reported(alloc, check_value(alloc, &mut checked, 0)))
}

#[test]
fn check_takes_no_memory(rt: HostRuntime) -> Result<(), Failures> {
    let mut failures = Failures::new(rt.alloc());
    let (met, text) = checked_twice(rt.alloc(), POINTERS);
    failures.expect(&met, met == Outcome::Value);
    failures.expect_text(&"again", text, "ok");
    // Running out of memory is an error as any other.
    let (met, text) = checked_twice(rt.alloc(), OF_NO_TYPE);
    failures.expect(&met, met == Outcome::Memory);
    failures.expect_text(
        &"again",
        text,
        "invalid input: this check has already failed",
    );
    failures.verdict()
}
