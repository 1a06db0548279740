//! The constructors of errors.
use mmdb_value::{
    MaxMindDbError, decoding, decoding_at, decoding_at_path, invalid_database, invalid_database_at,
    invalid_input, resource_limit_at,
};
use std::alloc::Global;

/// A constructor.
pub(crate) enum Constructor {
    InvalidDatabase,
    InvalidDatabaseAt,
    Decoding,
    DecodingAt,
    DecodingAtPath,
    ResourceLimitAt,
    InvalidInput,
}

/// The constructors by name.
pub(crate) const CONSTRUCTORS: &[(&str, Constructor)] = &[
    ("invalid_database", Constructor::InvalidDatabase),
    ("invalid_database_at", Constructor::InvalidDatabaseAt),
    ("decoding", Constructor::Decoding),
    ("decoding_at", Constructor::DecodingAt),
    ("decoding_at_path", Constructor::DecodingAtPath),
    ("resource_limit_at", Constructor::ResourceLimitAt),
    ("invalid_input", Constructor::InvalidInput),
];

/// The error that is made, which is one of memory where there is none for its text.
pub(crate) fn made(alloc: Global, constructor: &Constructor) -> MaxMindDbError {
    match constructor {
        Constructor::InvalidDatabase => invalid_database(alloc, "text"),
        Constructor::InvalidDatabaseAt => invalid_database_at(alloc, "text", 1),
        Constructor::Decoding => decoding(alloc, "text"),
        Constructor::DecodingAt => decoding_at(alloc, "text", 1),
        Constructor::DecodingAtPath => decoding_at_path(alloc, "text", 1, "/path"),
        Constructor::ResourceLimitAt => resource_limit_at(alloc, "text", 1),
        Constructor::InvalidInput => invalid_input(alloc, "text"),
    }
}
