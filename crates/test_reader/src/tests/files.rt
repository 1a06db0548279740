//! Files that can't be read, and files on disk.
use super::answers::answer_by;
use mmdb_reader::{MaxMindDbError, Reader};
use mmdb_vectors::answer::is_ok;
use mmdb_vectors::base::BASE_FILE;
use mmdb_vectors::failures::Failures;
use mmdb_vectors::file::TestFiles;
use std::alloc::{AllocError, Global};
use std::fs;
use std::rt::Files;

const FOUND: &str = "128.0.0.0/1 true Some(0)";

const ABSENT: &str = "0.0.0.0/1 false None";

const UNREAD: &str = "i/o error";

const NO_MARKER: &str = "invalid database: could not find MaxMind DB metadata in file";

fn is_unread(opened: &Result<Reader<Vec<u8>>, MaxMindDbError>) -> bool {
    matches!(opened, Err(MaxMindDbError::Io(_)))
}

// The kind of error of a file that can't be read, which is let go.
fn unread<T: Drop>(alloc: Global, _opened: T) -> Result<String, AllocError> {
    String::from_str(alloc, UNREAD)
}

// What a file answers: what is answered for an address, the kind of error of a file that can't be read, or another
// error.
fn text_of(
    alloc: Global,
    opened: Result<Reader<Vec<u8>>, MaxMindDbError>,
    address: &str,
) -> Result<String, AllocError> {
    match is_unread(&opened) {
        true => unread(alloc, opened),
        false => answer_by(alloc, opened, address),
    }
}

// What a file at a path answers for an address.
fn answer_at<R: Files>(
    rt: &R,
    alloc: Global,
    path: &str,
    address: &str,
) -> Result<String, AllocError> {
    text_of(alloc, Reader::open_readfile(rt, alloc, path), address)
}

/// A name, a path, the bytes of `here.mmdb`, its read that fails, and what the file answers. Of the base file there
/// are ten reads, and those that find the end.
#[rattlefmt::skip]
const READS: &[(&str, &str, &[u8], u32, &str)] = &[
    ("no read fails", "here.mmdb", BASE_FILE, 1000, FOUND),
    ("the first read fails", "here.mmdb", BASE_FILE, 0, UNREAD),
    ("read 1 fails", "here.mmdb", BASE_FILE, 1, UNREAD),
    ("read 5 fails", "here.mmdb", BASE_FILE, 5, UNREAD),
    ("the last read fails", "here.mmdb", BASE_FILE, 10, UNREAD),
    ("a read after the end", "here.mmdb", BASE_FILE, 20, FOUND),
    ("another path", "gone.mmdb", BASE_FILE, 1000, UNREAD),
    ("an empty file", "here.mmdb", b"", 1000, NO_MARKER),
];

#[test]
fn reads_that_fail(rt: HostRuntime) -> Result<(), Failures> {
    let (alloc, mut failures) = (rt.alloc(), Failures::new(rt.alloc()));
    for (case, path, bytes, fails_at, wanted) in READS {
        let files = TestFiles {
            bytes,
            newer: b"",
            step: 20,
            fails_at: *fails_at,
            interrupts: 0,
        };
        failures.expect_text(case, answer_at(&files, alloc, path, "200.0.0.1"), wanted);
    }
    failures.verdict()
}

/// Paths, addresses, and what the files answer.
#[rattlefmt::skip]
const ON_DISK: &[(&str, &str, &str)] = &[
    ("written.mmdb", "200.0.0.1", FOUND),
    ("written.mmdb", "1.1.1.1", ABSENT),
    ("empty.mmdb", "1.1.1.1", NO_MARKER),
    (".", "1.1.1.1", UNREAD),
    ("gone.mmdb", "1.1.1.1", UNREAD),
];

/// Files, and what they are written with.
const WRITTEN: &[(&str, &[u8])] = &[("written.mmdb", BASE_FILE), ("empty.mmdb", b"")];

// Writes the files, notes those that are not written, and what files answer otherwise.
fn expect_on_disk<R: Files>(failures: &mut Failures, rt: &R, alloc: Global) {
    for (path, bytes) in WRITTEN {
        failures.expect(path, is_ok(fs::write(rt, path, *bytes)));
    }
    for (path, address, text) in ON_DISK {
        failures.expect_text(&(path, address), answer_at(rt, alloc, path, address), text);
    }
}

// Removes the files, and notes those that are not removed.
fn expect_removed<R: Files>(failures: &mut Failures, rt: &R) {
    for (path, _) in WRITTEN {
        failures.expect(path, is_ok(fs::remove_file(rt, path)));
    }
}

#[test]
fn files_on_disk(rt: HostRuntime) -> Result<(), Failures> {
    let (alloc, mut failures) = (rt.alloc(), Failures::new(rt.alloc()));
    expect_on_disk(&mut failures, &rt, alloc);
    expect_removed(&mut failures, &rt);
    failures.verdict()
}
