//! Runs of the program.
use super::asserts::assert_written;
use mmdb_tool::{Out, run, run_bytes};
use mmdb_vectors::file::TestFiles;
use mmdb_vectors::words::words_of;
use std::alloc::{AllocError, Global};
use std::process::Abort;
use std::rt::Files;

/// What a run ends with: its status, and what it wrote on standard output and on standard error.
pub type Done<'a> = (u8, &'a str, &'a str);

// Asserts a status.
fn assert_status(rt: &impl Abort, status: u8, wanted: u8, case: &[&str]) {
    assert!(rt; status == wanted, "at {case:?}: {status}");
}

/// Asserts what the program does with its arguments over files.
pub fn assert_done<R: Files>(
    rt: &impl Abort,
    alloc: Global,
    files: &R,
    texts: &[&str],
    done: Done<'_>,
) {
    let words = words_of(alloc, texts).expect(rt, "words");
    let mut out = Out::new(Vec::new(alloc));
    let mut err = Out::new(Vec::new(alloc));
    let status = run(files, alloc, words.as_slice(), &mut out, &mut err);
    assert_status(rt, status, done.0, texts);
    assert_written(rt, out, done.1, texts);
    assert_written(rt, err, done.2, texts);
}

/// Asserts what the program does with its arguments over the bytes of a file.
pub fn assert_done_with(
    rt: &impl Abort,
    alloc: Global,
    bytes: &[u8],
    texts: &[&str],
    done: Done<'_>,
) {
    let words = words_of(alloc, texts).expect(rt, "words");
    let mut out = Out::new(Vec::new(alloc));
    let mut err = Out::new(Vec::new(alloc));
    let status = run_bytes(alloc, bytes, words.as_slice(), &mut out, &mut err);
    assert_status(rt, status, done.0, texts);
    assert_written(rt, out, done.1, texts);
    assert_written(rt, err, done.2, texts);
}

/// Asserts what the program does with its arguments over a file of these bytes, whose read number `fails_at` is
/// rejected, and over the bytes alone.
pub fn assert_done_both(
    rt: &impl Abort,
    alloc: Global,
    bytes: &[u8],
    fails_at: u32,
    texts: &[&str],
    done: Done<'_>,
) {
    let files = TestFiles::new(bytes, fails_at);
    assert_done(rt, alloc, &files, texts, done);
    assert_done_with(rt, alloc, bytes, texts, done);
}

/// Words that the program runs over a file, and what it writes.
pub type Row<'a> = (&'a [&'a str], &'a str);

/// Asserts what the program writes for each row.
pub fn assert_rows(
    rt: &impl Abort,
    alloc: Global,
    file: Result<Vec<u8>, AllocError>,
    rows: &[Row<'_>],
) {
    let file = file.expect(rt, "a file");
    for (texts, text) in rows {
        assert_done_with(rt, alloc, file.as_slice(), texts, (0, *text, ""));
    }
}
