//! Faults of the input, the output and memory in the middle.
ghost use Rattle.std.specs.Prelude.{◌<◌};

use super::streams::{Chopped, Narrow, assert_at, assert_holds, filtered};
use mmdb_filter::{Counts, Rows};
use mmdb_vectors::hoard::Hoard;
use mmdb_vectors::section::section_of;
use std::alloc::Global;
use std::io::{self, ErrorKind};
use std::process::Abort;

/// How long the long row is.
const LONG: usize = 140_000;

/// Rows, one of which is long.
const ROWS: &[(&[u8], usize)] = &[(b"ab\n", 1), (b"x", LONG), (b"\r\ncd", 1)];

/// What is written of them.
const WRITTEN: &[(&[u8], usize)] = &[
    (b"ab|00002\n", 1),
    (b"x", LONG),
    (b"|65536+\r\ncd|00002", 1),
];

// The kind of what rows failed for.
fn kind_of(done: io::Result<Counts>) -> Option<ErrorKind> {
    match done {
        Ok(_) => None,
        Err(error) => Some(error.kind()),
    }
}

// Whether all that is wanted was written, or where rows failed a beginning of it, and they failed for this reason.
fn is_right(failed: Option<ErrorKind>, out: &[u8], want: &[u8], reason: ErrorKind) -> bool {
    match failed {
        None => out == want,
        Some(kind) => kind == reason && want.starts_with(out),
    }
}

// Whether rows fail where a read does.
fn fails_at_read(rt: &impl Abort, alloc: Global, input: &[u8], want: &[u8], read: u32) -> bool {
    let mut out: Vec<u8> = Vec::new(alloc);
    let input = Chopped::new(input, 9000, read);
    let failed = kind_of(filtered(
        alloc,
        Rows::Lines { delimiter: b'\t' },
        input,
        8192,
        &mut out,
    ));
    let is_right = is_right(failed, out.as_slice(), want, ErrorKind::InvalidData);
    assert_at(rt, is_right, read as usize);
    failed.is_some()
}

#[test]
fn reads_that_fail(rt: HostRuntime) {
    let input = section_of(rt.alloc(), ROWS);
    let want = section_of(rt.alloc(), WRITTEN);
    let mut rejected = 0usize;
    for read in 0..40u32 {
        if fails_at_read(&rt, rt.alloc(), input.as_slice(), want.as_slice(), read) {
            rejected = rejected.saturating_add(1);
        }
    }
    assert_at(&rt, rejected > 20 && rejected < 40, rejected);
}

#[rattlefmt::skip]
const ROOMS: &[usize] = &[
    0,
    1,
    2,
    3,
    8,
    9,
    10,
    65_540,
    65_546,
    65_547,
    131_085,
    LONG + 9,
    LONG + 16,
    LONG + 18,
    LONG + 25,
    LONG + 26,
];

// Asserts that what has room is written, and that the rows fail unless all has.
fn assert_room(rt: &impl Abort, alloc: Global, input: &[u8], want: &[u8], room: usize) {
    let mut out = Narrow {
        bytes: Vec::new(alloc),
        room,
        step: 1000,
        writes: 0,
    };
    let input = Chopped::new(input, 70_000, u32::MAX);
    let is_done = filtered(
        alloc,
        Rows::Lines { delimiter: b'\t' },
        input,
        65_536,
        &mut out,
    )
    .is_ok();
    let is_right = is_done == (room == want.len())
        && out.bytes.as_slice() == &want[..room.min(want.len())];
    assert_at(rt, is_right, room);
}

#[test]
fn writes_that_fail_or_are_interrupted(rt: HostRuntime) {
    let input = section_of(rt.alloc(), ROWS);
    let want = section_of(rt.alloc(), WRITTEN);
    assert_holds(&rt, want.len() == LONG + 26, "what is written");
    for room in ROOMS {
        assert_room(&rt, rt.alloc(), input.as_slice(), want.as_slice(), *room);
    }
}

// What the rows fail for with so much memory. What is written has memory of its own.
fn with_budget(alloc: Global, input: &[u8], out: &mut Narrow, budget: usize) -> Option<ErrorKind>
    requires { budget < 1000000 }
{
    let large = Hoard::of_large_blocks(alloc);
    let small = Hoard::of_all_but(alloc, budget);
    let input = Chopped::new(input, 70_000, u32::MAX);
    let failed = kind_of(filtered(alloc, Rows::Lines { delimiter: b'\t' }, input, 4096, out));
    drop(small);
    drop(large);
    failed
}

// Whether rows fail with so much memory.
fn fails_with(rt: &impl Abort, alloc: Global, input: &[u8], want: &[u8], budget: usize) -> bool
    requires { budget < 1000000 }
{
    let room = want.len();
    let mut out = Narrow {
        bytes: Vec::with_capacity(alloc, room).unwrap_or(Vec::new(alloc)),
        room,
        step: room,
        writes: 0,
    };
    let failed = with_budget(alloc, input, &mut out, budget);
    let is_right = is_right(failed, out.bytes.as_slice(), want, ErrorKind::OutOfMemory);
    assert_at(rt, is_right, budget);
    failed.is_some()
}

#[test]
fn rows_without_memory(rt: HostRuntime) {
    let input = section_of(rt.alloc(), ROWS);
    let want = section_of(rt.alloc(), WRITTEN);
    let mut rejected = 0usize;
    for step in 0..30usize {
        let budget = step * 32_768;
        if fails_with(&rt, rt.alloc(), input.as_slice(), want.as_slice(), budget) {
            rejected = rejected.saturating_add(1);
        }
    }
    assert_at(&rt, rejected > 0 && rejected < 30, rejected);
}
