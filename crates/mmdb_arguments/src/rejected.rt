//! Arguments that make no request.
use crate::shown::shown_text;
use clap::Error;
use clap::error::ErrorKind;
use std::alloc::{AllocError, AllocFailed, Global};

/// A text in the place of a request: help, or what is wrong with the arguments.
#[derive(Drop)]
pub struct ArgumentMessage {
    pub text: String,
    pub is_error: bool,
}

/// Why there is no request.
#[derive(Drop)]
pub enum NoRequest {
    /// There is something to say in its place.
    Message(ArgumentMessage),
    /// Out of memory.
    Memory,
}

impl From<AllocError> for NoRequest {
    fn from(_error: AllocError) -> NoRequest {
        NoRequest::Memory
    }
}

impl<T: Drop> From<AllocFailed<T>> for NoRequest {
    fn from(_error: AllocFailed<T>) -> NoRequest {
        NoRequest::Memory
    }
}

// A message of this text, if there was memory for it.
fn with_text(text: Result<String, AllocError>, is_error: bool) -> NoRequest {
    match text {
        Ok(text) => NoRequest::Message(ArgumentMessage { text, is_error }),
        Err(_) => NoRequest::Memory,
    }
}

// The line on an argument that is not what is wanted in its place.
fn bad_line(alloc: Global, argument: &str, wanted: &str) -> Result<String, AllocError> {
    let argument = shown_text(alloc, argument)?;
    format!(in alloc; "mmdb: {argument}: {wanted}\n")
}

impl NoRequest {
    /// An argument that is not what is wanted in its place.
    pub fn bad_argument(alloc: Global, argument: &str, wanted: &str) -> NoRequest {
        with_text(bad_line(alloc, argument, wanted), true)
    }

    /// What clap answers, unless it is out of memory.
    pub(crate) fn from_clap(alloc: Global, error: &Error) -> NoRequest {
        if error.kind() == ErrorKind::OutOfMemory {
            return NoRequest::Memory;
        }
        with_text(format!(in alloc; "{error}"), error.use_stderr())
    }
}
