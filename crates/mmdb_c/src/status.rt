//! Status codes, by the numbers of libmaxminddb's header, and the errors of the reader that they stand for.
ghost use Rattle.std.specs.Prelude.{◌≡◌, ◌≢◌, ◌<◌};
ghost use Rattle.mmdb_c.specs.declared.status.Cause.TheVariants as spec_cause;
ghost use Rattle.mmdb_format.specs.Error.{OfMemory, kind_of};

use memchr::memmem;
use mmdb_format::error::DecodeResult;
use mmdb_format::message::{Message, Text};
use mmdb_reader::{MaxMindDbError, Metadata};
use mmdb_record::first_value;
use std::alloc::Global;

/// What comes before the metadata.
const MARKER: &[u8] = b"\xAB\xCD\xEFMaxMind.com";

/// `MMDB_SUCCESS`.
pub(crate) const FOUND: u32 = 0;

/// A lookup's status where the database has no data for an address.
pub(crate) const NO_DATA: u32 = 1;

/// `MMDB_CORRUPT_SEARCH_TREE_ERROR`.
pub(crate) const CORRUPT_TREE: u32 = 2;

/// `MMDB_INVALID_METADATA_ERROR`.
const INVALID_METADATA: u32 = 3;

/// `MMDB_OUT_OF_MEMORY_ERROR`.
pub(crate) const OUT_OF_MEMORY: u32 = 5;

/// `MMDB_UNKNOWN_DATABASE_FORMAT_ERROR`.
const UNKNOWN_FORMAT: u32 = 6;

/// `MMDB_INVALID_DATA_ERROR`.
pub(crate) const INVALID_DATA: u32 = 7;

/// `MMDB_INVALID_LOOKUP_PATH_ERROR`.
pub(crate) const INVALID_PATH: u32 = 8;

/// `MMDB_LOOKUP_PATH_DOES_NOT_MATCH_DATA_ERROR`.
pub(crate) const NOT_THERE: u32 = 9;

/// `MMDB_IPV6_LOOKUP_IN_IPV4_DATABASE_ERROR`.
pub(crate) const IPV6_IN_IPV4: u32 = 11;

/// What is wrong with a file. It does not depend on the text of an error.
#[derive(Clone, Copy)]
enum Cause {
    /// Memory ran out.
    Memory,
    /// The version of the format or the size of records is none that is read.
    Format,
    /// The metadata are missing, damaged or not supported: also where a text of theirs is not UTF-8.
    Metadata,
    /// The search tree is damaged.
    Tree,
    /// Other bytes are.
    Data,
}

impl Cause {
    // The code for it.
    fn code(self) -> u32
        ensures some { 0 < result }
        ensures memory { self ≡ spec_cause.Memory → result ≡ 5 }
    {
        match self {
            Cause::Memory => OUT_OF_MEMORY,
            Cause::Format => UNKNOWN_FORMAT,
            Cause::Metadata => INVALID_METADATA,
            Cause::Tree => CORRUPT_TREE,
            Cause::Data => INVALID_DATA,
        }
    }

    // The cause of an error that has a fixed text and no offset: of metadata that are missing or not supported, or of a tree.
    fn of_text(text: Text) -> Cause {
        match text {
            Text::InvalidLocation | Text::TreeTooDeep => Cause::Tree,
            Text::ByteInSeparator => Cause::Data,
            _ => Cause::Metadata,
        }
    }

    // The cause of an error whose text holds a number and that has no offset: the first of these numbers that is not
    // supported, or else the number of leaves of the tree.
    fn of_numbers(metadata: &Metadata) -> Cause {
        if metadata.binary_format_major_version != 2 {
            Cause::Format
        } else if metadata.ip_version != 4 && metadata.ip_version != 6 {
            Cause::Metadata
        } else if metadata.build_epoch >= 1 << 63 {
            Cause::Metadata
        } else if !matches!(metadata.record_size, 24 | 28 | 32) {
            Cause::Format
        } else {
            Cause::Tree
        }
    }

    // The cause of such an error by the metadata of the file.
    fn of_file(alloc: Global, file: &[u8]) -> Cause {
        match metadata_of(alloc, file) {
            Ok(metadata) => {
                let cause = Cause::of_numbers(&metadata);
                drop(metadata);
                cause
            }
            Err(MaxMindDbError::Memory) => Cause::Memory,
            Err(error) => {
                drop(error);
                Cause::Metadata
            }
        }
    }

    // The cause of an error of a file.
    fn of(alloc: Global, file: &[u8], error: &MaxMindDbError) -> Cause
        ensures { kind_of error.now ≡ OfMemory → result ≡ spec_cause.Memory }
    {
        match error {
            MaxMindDbError::Memory => Cause::Memory,
            MaxMindDbError::InvalidDatabase {
                message: Message::Fixed(text),
                offset: None,
            } => Cause::of_text(*text),
            MaxMindDbError::InvalidDatabase {
                message: Message::Made(_),
                offset: None,
            } => Cause::of_file(alloc, file),
            MaxMindDbError::InvalidDatabase {
                offset: Some(offset),
                ..
            } if is_behind_marker(file, *offset) => Cause::Metadata,
            MaxMindDbError::Decoding { .. } => Cause::Metadata,
            _ => Cause::Data,
        }
    }
}

// Whether an offset of a file is behind its last marker: one of the metadata.
fn is_behind_marker(file: &[u8], offset: usize) -> bool {
    match memmem::rfind(file, MARKER) {
        Some(at) => offset > at,
        None => false,
    }
}

// The metadata after the last marker of a file.
fn metadata_of(alloc: Global, file: &[u8]) -> DecodeResult<Metadata> {
    let at = memmem::rfind(file, MARKER).unwrap_or(file.len());
    let section = file.get(at..).unwrap_or(&[]).get(MARKER.len()..);
    first_value::decode(alloc, section.unwrap_or(&[]))
}

/// The code for an error of the reader about the bytes of a file. It is not 5 unless memory ran out.
pub(crate) fn code_of(alloc: Global, file: &[u8], error: &MaxMindDbError) -> u32
    ensures some { 0 < result }
    ensures memory { result ≢ 5 → kind_of error.now ≢ OfMemory }
{
    Cause::of(alloc, file, error).code()
}
