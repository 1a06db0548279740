//! Answers as texts.
use std::alloc::{AllocError, Global};
use std::fmt::{Debug, Display};

/// What an answer says that is no error.
pub const OK: &str = "ok";

/// The text of an error, or `ok`.
pub fn reported<T: Drop, E: Display + Drop>(
    alloc: Global,
    answer: Result<T, E>,
) -> Result<String, AllocError> {
    match answer {
        Ok(_) => String::from_str(alloc, OK),
        Err(error) => format!(in alloc; "{error}"),
    }
}

/// Whether an answer is a value; what it has is let go here.
pub fn is_ok<T: Drop, E: Drop>(answer: Result<T, E>) -> bool {
    answer.is_ok()
}

/// Whether a text was made, and is this one.
pub fn is_text(text: Result<String, AllocError>, wanted: &str) -> bool {
    match text {
        Ok(text) => text.as_str() == wanted,
        Err(_) => false,
    }
}

/// A value as `Debug` has it, or the text of an error.
pub fn shown<T: Debug + Drop, E: Display + Drop>(
    alloc: Global,
    answer: Result<T, E>,
) -> Result<String, AllocError> {
    match answer {
        Ok(value) => format!(in alloc; "{value:?}"),
        Err(error) => format!(in alloc; "{error}"),
    }
}
