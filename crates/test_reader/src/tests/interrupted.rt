//! A file whose reads are interrupted: each is asked for again, and no byte is lost or read twice.
use super::answers::value_by;
use mmdb_reader::Reader;
use mmdb_vectors::base::BASE_FILE;
use mmdb_vectors::failures::Failures;
use mmdb_vectors::file::TestFiles;
use std::alloc::{AllocError, Global};

/// How many bytes a read hands out, and how many interrupted ones come before each.
#[rattlefmt::skip]
const ROWS: &[(usize, u32)] = &[
    (1, 0),
    (1, 1),
    (20, 1),
    (20, 3),
    (4_096, 1),
    (4_096, 100),
];

// The value of an address of the base file, which is read so.
fn value_of(alloc: Global, step: usize, interrupts: u32) -> Result<String, AllocError> {
    let files = TestFiles {
        bytes: BASE_FILE,
        newer: b"",
        step,
        fails_at: u32::MAX,
        interrupts,
    };
    value_by(alloc, Reader::open_readfile(&files, alloc, "here.mmdb"))
}

#[test]
fn interrupted_reads(rt: HostRuntime) -> Result<(), Failures> {
    let (alloc, mut failures) = (rt.alloc(), Failures::new(rt.alloc()));
    for row in ROWS {
        failures.expect_text(row, value_of(alloc, row.0, row.1), "Some(\"x\")");
    }
    failures.verdict()
}
