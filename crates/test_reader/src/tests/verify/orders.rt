//! Which of two faults is named: those of the metadata come before those of the tree, then the separator's, then those
//! of the values.
use mmdb_reader::{MaxMindDbError, Reader};
use mmdb_vectors::builder::{BASE_DATA, BASE_NODE, Changes, Field, changed_file};
use std::alloc::Global;

/// Where a byte of the separator stands.
const SEPARATOR_AT: usize = 10;

/// A node that leads into the separator.
const BAD_NODE: &[u8] = b"\x00\x00\x10\x00\x00\x11";

/// A text that is not UTF-8.
const BAD_DATA: &[u8] = b"\x41\xFF";

const UNNAMED: Changes<'static> = &[(Field::DatabaseType, b"\x40")];

const OF_METADATA: &str =
    "invalid database: database_type - Expected: non-empty string Actual: \"\"";

const OF_TREE: &str =
    "invalid database: the MaxMind DB file's data pointer resolves to an invalid location";

const OF_SEPARATOR: &str = "invalid database: unexpected byte in data separator";

const OF_VALUES: &str = "invalid database at offset 22: invalid UTF-8 in string";

/// Changes of the metadata, the node, a byte of the separator, the data, and which fault is named.
type Row = (
    Changes<'static>,
    &'static [u8],
    u8,
    &'static [u8],
    &'static str,
);

#[rattlefmt::skip]
const ROWS: &[Row] = &[
    (UNNAMED, BASE_NODE, 0, BASE_DATA, OF_METADATA),
    (&[], BAD_NODE, 0, BASE_DATA, OF_TREE),
    (&[], BASE_NODE, 1, BASE_DATA, OF_SEPARATOR),
    (&[], BASE_NODE, 0, BAD_DATA, OF_VALUES),
    (UNNAMED, BAD_NODE, 0, BASE_DATA, OF_METADATA),
    (UNNAMED, BASE_NODE, 1, BASE_DATA, OF_METADATA),
    (UNNAMED, BASE_NODE, 0, BAD_DATA, OF_METADATA),
    (&[], BAD_NODE, 1, BASE_DATA, OF_TREE),
    (&[], BAD_NODE, 0, BAD_DATA, OF_TREE),
    (&[], BASE_NODE, 1, BAD_DATA, OF_SEPARATOR),
];

// Whether the fault that is named of a file is the row's.
fn is_named(alloc: Global, row: &Row) -> Result<bool, MaxMindDbError> {
    let (changes, node, byte, data, wanted) = row;
    let mut file = changed_file(alloc, node, data, changes)?;
    if let Some(place) = file.get_mut(SEPARATOR_AT) {
        *place = *byte;
    }
    let reader = Reader::from_source(alloc, file)?;
    match reader.verify(alloc) {
        Ok(()) => Ok(false),
        Err(error) => {
            let named = format!(in alloc; "{error}")?;
            Ok(named.as_str() == *wanted)
        }
    }
}

#[test]
fn first_of_two_faults(rt: HostRuntime) {
    let alloc = rt.alloc();
    for row in ROWS {
        let named = is_named(alloc, row).unwrap_or(false);
        assert!(rt; named, "{}, with another fault", row.4);
    }
}
