//! Sections with fields that no record knows.
use mmdb_vectors::section::section_of;
use std::alloc::Global;

/// Fields that no record has, one of each type that the format has, and a pointer that leads to no value.
/// They are thirteen.
const UNKNOWN: &[u8] = b"\x41A\x41x\
    \x41B\x68\0\0\0\0\0\0\0\0\
    \x41C\x81x\
    \x41D\xA1\x07\
    \x41E\xC1\x07\
    \x41F\xE1\x42en\x41x\
    \x41G\x01\x01\x07\
    \x41H\x01\x02\x07\
    \x41I\x01\x03\x07\
    \x41J\x01\x04\xE0\
    \x41K\x01\x07\
    \x41L\x04\x08\0\0\0\0\
    \x41M\x20\xFF";

/// A map's header and its fields before and after the unknown ones, and the record that it is.
#[derive(Clone, Copy)]
pub struct Row<'a> {
    pub before: &'a [u8],
    pub after: &'a [u8],
    pub shown: &'a str,
}

/// The map of a row's fields, between which the unknown ones stand.
pub fn with_unknown(alloc: Global, row: &Row<'_>) -> Vec<u8> {
    section_of(alloc, &[(row.before, 1), (UNKNOWN, 1), (row.after, 1)])
}
