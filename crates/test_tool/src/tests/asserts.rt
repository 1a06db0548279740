//! What several tests assert.
use super::sink::OneByte;
use mmdb_reader::Reader;
use mmdb_tool::{Fault, Out, Sink, run_bytes};
use mmdb_vectors::base::BASE_FILE;
use mmdb_vectors::words::words_of;
use std::alloc::Global;
use std::fmt::Display;
use std::process::Abort;

/// The error of a range of IPv6 in an IPv4 file.
pub(crate) const OF_RANGE: &str =
    "invalid input: cannot iterate IPv6 network in IPv4-only database";

/// Asserts what holds of a case.
pub(crate) fn assert_holds(rt: &impl Abort, holds: bool, case: &str) {
    assert!(rt; holds, "{case}");
}

/// A reader of a file that is accepted.
pub(crate) fn opened<'a>(rt: &impl Abort, alloc: Global, file: &'a [u8]) -> Reader<&'a [u8]> {
    Reader::from_source(alloc, file).expect(rt, "a file that is accepted")
}

/// Runs the program with these words over the base file, and asserts its status.
pub(crate) fn run_on_base<O: Sink, E: Sink>(
    rt: &impl Abort,
    alloc: Global,
    texts: &[&str],
    out: &mut O,
    err: &mut E,
    status: u8,
) {
    let words = words_of(alloc, texts).expect(rt, "words");
    let ended = run_bytes(alloc, BASE_FILE, words.as_slice(), out, err);
    assert!(rt; ended == status, "{texts:?}: {ended}");
}

/// Asserts what was written.
pub(crate) fn assert_written(rt: &impl Abort, sink: Out<Vec<u8>>, text: &str, case: &[&str]) {
    let bytes = sink.into_inner();
    assert!(rt;
        bytes.as_slice() == text.as_bytes(),
        "at {case:?}: {bytes:?}"
    );
}

/// Asserts what a sink took, and what fault it met.
pub(crate) fn assert_taken(rt: &impl Abort, sink: &OneByte, text: &str, fault: Fault) {
    let is_right = sink.bytes() == text.as_bytes() && sink.fault() == fault;
    assert_holds(rt, is_right, text);
}

/// Asserts what an error prints.
pub(crate) fn assert_printed<E: Display + Drop>(
    rt: &impl Abort,
    alloc: Global,
    error: E,
    text: &str,
) {
    let printed = format!(in alloc; "{error}").expect(rt, text);
    assert!(rt; printed.as_str() == text, "{printed}");
}
