//! Files that are opened unless they have the bytes of another one.
use super::answers::value_by;
use mmdb_reader::{MaxMindDbError, Reader};
use mmdb_vectors::base::BASE_FILE;
use mmdb_vectors::failures::Failures;
use mmdb_vectors::file::TestFiles;
use std::alloc::{AllocError, Global};

const SAME: &str = "the same bytes";

const UNREAD: &str = "i/o error";

const NO_MARKER: &str = "invalid database: could not find MaxMind DB metadata in file";

/// Of how many bytes a file is, the base file's first ones and zeros behind them; which one is another, and what it is;
/// and what the file answers: the text at an address, or why there is none.
#[rattlefmt::skip]
const ROWS: &[(usize, usize, u8, &str)] = &[
    (199, 0, 0, SAME),
    (199, 23, b'y', "Some(\"y\")"),
    (199, 22, 0x40, "Some(\"\")"),
    (199, 128, b'U', "Some(\"x\")"),
    (199, 146, b'e', "Some(\"x\")"),
    (200, 0, 0, "Some(\"x\")"),
    (300, 0, 0, "Some(\"x\")"),
    (37, 0, 0, NO_MARKER),
    (1, 0, 0, NO_MARKER),
    (0, 0, 0, NO_MARKER),
];

/// How many bytes a read hands out, and how many interrupted ones come before each.
const READS: &[(usize, u32)] = &[
    (1, 0),
    (20, 0),
    (64, 2),
    (198, 0),
    (199, 1),
    (200, 0),
    (4_096, 0),
];

/// The read that fails, of 20 bytes each, and what a file of the same bytes answers then.
const FAULTS: &[(u32, &str)] = &[
    (0, UNREAD),
    (1, UNREAD),
    (9, UNREAD),
    (10, UNREAD),
    (11, SAME),
];

// The bytes of a row's file.
fn bytes_of(alloc: Global, row: &(usize, usize, u8, &str)) -> Result<Vec<u8>, AllocError> {
    let (length, place, byte, _) = *row;
    let mut bytes = Vec::from_slice(alloc, BASE_FILE)?;
    bytes.resize(length, 0)?;
    if let Some(changed) = bytes.get_mut(place) {
        *changed = byte;
    }
    Ok(bytes)
}

// What a file answers that was opened, or why there is none.
fn text_of(
    alloc: Global,
    opened: Result<Option<Reader<Vec<u8>>>, MaxMindDbError>,
) -> Result<String, AllocError> {
    match opened {
        Ok(Some(reader)) => value_by(alloc, Ok(reader)),
        Ok(None) => String::from_str(alloc, SAME),
        Err(MaxMindDbError::Io(_)) => String::from_str(alloc, UNREAD),
        Err(error) => value_by(alloc, Err(error)),
    }
}

// What a file answers that is opened unless it has the bytes of the base file.
fn answer_of(alloc: Global, files: &TestFiles<'_>, path: &str) -> Result<String, AllocError> {
    let Ok(other) = Reader::from_source(alloc, Vec::from_slice(alloc, BASE_FILE)?) else {
        return Err(AllocError);
    };
    let opened = Reader::open_unless_same(files, alloc, path, &other);
    let text = text_of(alloc, opened);
    drop(other);
    text
}

// Notes what a row's file answers otherwise, read so.
fn expect_row(
    failures: &mut Failures,
    alloc: Global,
    row: &(usize, usize, u8, &str),
    read: &(usize, u32),
) {
    let bytes = bytes_of(alloc, row).unwrap_or(Vec::new(alloc));
    failures.expect(row, bytes.len() == row.0);
    let files = TestFiles {
        bytes: b"",
        newer: bytes.as_slice(),
        step: read.0,
        fails_at: u32::MAX,
        interrupts: read.1,
    };
    failures.expect_text(
        &(row.0, row.1, read),
        answer_of(alloc, &files, "new.mmdb"),
        row.3,
    );
}

#[test]
fn files_unless_same(rt: HostRuntime) -> Result<(), Failures> {
    let (alloc, mut failures) = (rt.alloc(), Failures::new(rt.alloc()));
    for row in ROWS {
        for read in READS {
            expect_row(&mut failures, alloc, row, read);
        }
    }
    failures.verdict()
}

#[test]
fn same_files_that_fail(rt: HostRuntime) -> Result<(), Failures> {
    let (alloc, mut failures) = (rt.alloc(), Failures::new(rt.alloc()));
    for (fails_at, wanted) in FAULTS {
        let files = TestFiles {
            bytes: b"",
            newer: BASE_FILE,
            step: 20,
            fails_at: *fails_at,
            interrupts: 0,
        };
        failures.expect_text(fails_at, answer_of(alloc, &files, "new.mmdb"), wanted);
    }
    let gone = TestFiles::new(BASE_FILE, u32::MAX);
    failures.expect_text(&"gone", answer_of(alloc, &gone, "gone.mmdb"), UNREAD);
    failures.verdict()
}
