//! Files of many bytes, as they come from a file that hands out so many a read.
use super::answers::value_by;
use mmdb_reader::Reader;
use mmdb_vectors::builder::{BASE, file};
use mmdb_vectors::failures::Failures;
use mmdb_vectors::file::TestFiles;
use mmdb_vectors::section::section_of;
use std::alloc::{AllocError, Global};

/// How many bytes of a file are no data: those of the node, the separator, the marker and the metadata.
const AROUND: u32 = 197;

/// How many bytes a file has, and how many a read hands out.
#[rattlefmt::skip]
const ROWS: &[(u32, usize)] = &[
    (8_193, 8_192),
    (65_536, 65_536),
    (65_537, 65_536),
    (131_073, 65_536),
    (1_048_576, 1 << 20),
    (1_048_577, 1 << 20),
    (1_500_000, 4_096),
    (3_000_001, 1 << 24),
];

// The bytes of a file of so many. The upper half of the addresses leads to the text at the end of the data.
fn file_of(alloc: Global, length: u32) -> Result<Vec<u8>, AllocError> {
    let filler = length.saturating_sub(AROUND + 2);
    let [_, a, b, c] = filler.saturating_add(17).to_be_bytes();
    let data = section_of(alloc, &[(b"\xE0", filler as usize), (b"\x41x", 1)]);
    file(alloc, &[0, 0, 1, a, b, c], data.as_slice(), BASE)
}

// The text at the end of the data of a file of these bytes.
fn value_of(alloc: Global, bytes: &[u8], step: usize) -> Result<String, AllocError> {
    let files = TestFiles {
        bytes,
        newer: b"",
        step,
        fails_at: u32::MAX,
        interrupts: 0,
    };
    value_by(alloc, Reader::open_readfile(&files, alloc, "here.mmdb"))
}

// Notes a file that is not of so many bytes, or whose text is not read.
fn expect_read(
    failures: &mut Failures,
    alloc: Global,
    made: Result<Vec<u8>, AllocError>,
    row: &(u32, usize),
) {
    let bytes = made.unwrap_or(Vec::new(alloc));
    failures.expect(row, bytes.len() == row.0 as usize);
    let value = value_of(alloc, bytes.as_slice(), row.1);
    failures.expect_text(row, value, "Some(\"x\")");
}

#[test]
fn files_of_many_bytes(rt: HostRuntime) -> Result<(), Failures> {
    let (alloc, mut failures) = (rt.alloc(), Failures::new(rt.alloc()));
    for row in ROWS {
        expect_read(&mut failures, alloc, file_of(alloc, row.0), row);
    }
    failures.verdict()
}
