//! What answers are, as text.
use maxminddb::{IpNetwork, MaxMindDbError, Reader};
use std::alloc::{AllocError, Global};
use std::fmt::Debug;
use std::process::Abort;

/// Asserts what holds of a case.
pub(crate) fn assert_holds(rt: &impl Abort, holds: bool, case: &str) {
    assert!(rt; holds, "{case}");
}

/// Asserts what holds of a row.
pub(crate) fn assert_row(rt: &impl Abort, holds: bool, row: &impl Debug) {
    assert!(rt; holds, "{row:?}");
}

/// Asserts a text.
pub(crate) fn assert_text(rt: &impl Abort, text: Result<String, AllocError>, wanted: &str) {
    let text = text.expect(rt, wanted);
    assert!(rt; text.as_str() == wanted, "{text}, not {wanted}");
}

/// The text of an error, or what is said of an answer.
pub(crate) fn reported<T: Drop>(
    alloc: Global,
    answer: Result<T, MaxMindDbError>,
    of_answer: &str,
) -> Result<String, AllocError> {
    match answer {
        Ok(_) => String::from_str(alloc, of_answer),
        Err(error) => format!(in alloc; "{error}"),
    }
}

/// What is reported of an error.
pub(crate) fn to_error(alloc: Global, error: MaxMindDbError) -> Result<String, AllocError> {
    format!(in alloc; "{error}")
}

/// A reader of a file, or its error.
pub(crate) fn reader_of(
    alloc: Global,
    file: Result<Vec<u8>, AllocError>,
) -> Result<Reader<Vec<u8>>, MaxMindDbError> {
    match file {
        Ok(file) => Reader::from_source(alloc, file),
        Err(_) => Err(MaxMindDbError::Memory),
    }
}

/// A range that a text spells.
pub(crate) fn range_of(rt: &impl Abort, text: &str) -> IpNetwork {
    text.parse().expect(rt, text)
}

/// A reader of a file that is accepted.
pub(crate) fn opened(
    rt: &impl Abort,
    alloc: Global,
    file: Result<Vec<u8>, AllocError>,
) -> Reader<Vec<u8>> {
    reader_of(alloc, file).expect(rt, "a file that is accepted")
}
