//! What the tests of paths share.
use maxminddb::{LookupResult, MaxMindDbError, PathElement, Reader};
use mmdb_vectors::answer::{reported, shown};
use mmdb_vectors::base::high;
use mmdb_vectors::builder::{BASE, BASE_NODE, file};
use std::alloc::{AllocError, Global};

/// A map of a to an array of the numbers 5 and 6, and of b to a map of c to the text x.
pub const RECORD: &[u8] = b"\xE2\x41a\x02\x04\xA1\x05\xA1\x06\x41b\xE1\x41c\x41x";

/// The base file with these data. Where memory is lacking it is empty.
pub fn file_of(alloc: Global, data: &[u8]) -> Vec<u8> {
    file(alloc, BASE_NODE, data, BASE).unwrap_or(Vec::new(alloc))
}

/// What is asked for at a path's end.
#[derive(Clone, Copy)]
pub enum Wanted {
    U16,
    SmallNumber,
    Bool,
    Text,
    List,
    Bools,
}

fn answer(
    alloc: Global,
    found: LookupResult<'_, &[u8]>,
    path: &[PathElement<'_>],
    wanted: Wanted,
) -> Result<String, AllocError> {
    match wanted {
        Wanted::U16 => shown(alloc, found.decode_path::<u16>(alloc, path)),
        Wanted::SmallNumber => shown(alloc, found.decode_path::<u8>(alloc, path)),
        Wanted::Bool => shown(alloc, found.decode_path::<bool>(alloc, path)),
        Wanted::Text => shown(alloc, found.decode_path::<&str>(alloc, path)),
        Wanted::List => shown(alloc, found.decode_path::<Vec<u16>>(alloc, path)),
        Wanted::Bools => shown(alloc, found.decode_path::<Vec<bool>>(alloc, path)),
    }
}

fn reported_by(
    alloc: Global,
    found: Result<LookupResult<'_, &[u8]>, MaxMindDbError>,
    path: &[PathElement<'_>],
    wanted: Wanted,
) -> Result<String, AllocError> {
    match found {
        Ok(found) => answer(alloc, found, path, wanted),
        Err(error) => reported(alloc, Err::<(), _>(error)),
    }
}

fn reported_of(
    alloc: Global,
    opened: Result<Reader<&[u8]>, MaxMindDbError>,
    path: &[PathElement<'_>],
    wanted: Wanted,
) -> Result<String, AllocError> {
    match opened {
        Ok(reader) => reported_by(alloc, reader.lookup(high()), path, wanted),
        Err(error) => reported(alloc, Err::<(), _>(error)),
    }
}

/// What is reported of a path into these data.
pub fn reported_at(
    alloc: Global,
    data: &[u8],
    path: &[PathElement<'_>],
    wanted: Wanted,
) -> Result<String, AllocError> {
    let file = file_of(alloc, data);
    reported_of(
        alloc,
        Reader::from_source(alloc, file.as_slice()),
        path,
        wanted,
    )
}

/// Whether a path into these data meets a value of another type; none where that was not answered.
pub fn is_other_met(alloc: Global, data: &[u8], path: &[PathElement<'_>]) -> Option<bool> {
    let file = file_of(alloc, data);
    let reader = Reader::from_source(alloc, file.as_slice()).ok()?;
    let found = reader.lookup(high()).ok()?;
    Some(found.meets_other_type(path))
}
