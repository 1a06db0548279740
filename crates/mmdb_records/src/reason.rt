//! Why a database is not whole, or a record of it can't be read, in words.
use mmdb_format::message::{Message, Text};
use mmdb_reader::MaxMindDbError;
use std::alloc::{AllocError, Global};

/// Why a database is not whole, or a record of it can't be read. A value that is nested deeper than a verification follows may
/// be right, so it is not called damaged.
pub fn reason_of(alloc: Global, error: &MaxMindDbError) -> Result<String, AllocError> {
    match error {
        MaxMindDbError::InvalidDatabase {
            message: Message::Fixed(Text::TooDeep),
            offset: Some(offset),
        } => format!(in alloc;
            "a value at offset {offset} is nested more than 128 levels, which verify takes at most"
        ),
        _ => format!(in alloc; "{error}"),
    }
}
