//! Which files are accepted, and what their metadata say.
use super::answers::{BASE, File, answer, reader_of};
use mmdb_reader::{MaxMindDbError, Metadata, Reader};
use mmdb_vectors::answer::{reported, shown};
use mmdb_vectors::base::BASE_FILE;
use mmdb_vectors::builder::{BASE_DATA, BASE_NODE, Changes, Field, changed_file};
use mmdb_vectors::failures::Failures;
use std::alloc::{AllocError, Global};

const NO_MARKER: &str = "invalid database: could not find MaxMind DB metadata in file";

const NO_ROOM: &str =
    "invalid database: the MaxMind DB file's search tree extends beyond the metadata section";

const TOO_LATE: &str =
    "invalid database: build_epoch - Unix timestamp is too large to represent as SystemTime: 9223372036854775808";

const NO_LOCATION: &str =
    "invalid database: the MaxMind DB file's data pointer resolves to an invalid location";

/// Changes of metadata, and the error.
type Rejections = &'static [(Changes<'static>, &'static str)];

const WITHOUT: &str = "0.0.0.0/1 false None";

const BEHIND: &str = "128.0.0.0/1 true Some(0)";

/// A file, and what its lower and its upper half are answered.
#[rattlefmt::skip]
const CASES: &[(&str, File, &str, &str)] = &[
    ("the base file", BASE, WITHOUT, BEHIND),
    (
        "one more byte",
        File::Of(BASE_NODE, BASE_DATA, &[(Field::More, b"\x00")]),
        WITHOUT,
        BEHIND,
    ),
    (
        "another minor version",
        File::Of(BASE_NODE, BASE_DATA, &[(Field::MinorVersion, b"\xA1\x09")]),
        WITHOUT,
        BEHIND,
    ),
    (
        "a marker in the data",
        File::Of(BASE_NODE, b"\x41x\x8E\xAB\xCD\xEFMaxMind.com", &[]),
        WITHOUT,
        BEHIND,
    ),
    (
        "no data",
        File::Of(b"\x00\x00\x01\x00\x00\x01", b"", &[]),
        WITHOUT,
        "128.0.0.0/1 false None",
    ),
    ("an offset without data", File::Of(BASE_NODE, b"", &[]), WITHOUT, NO_LOCATION),
    (
        "no room",
        File::Of(BASE_NODE, BASE_DATA, &[(Field::NodeCount, b"\xC1\x02")]),
        NO_ROOM,
        NO_ROOM,
    ),
];

#[test]
fn accepted_and_refused(rt: HostRuntime) -> Result<(), Failures> {
    let (alloc, mut failures) = (rt.alloc(), Failures::new(rt.alloc()));
    for (case, file, lower, upper) in CASES {
        failures.expect_text(case, answer(alloc, file, "1.1.1.1"), lower);
        failures.expect_text(case, answer(alloc, file, "200.0.0.1"), upper);
    }
    failures.verdict()
}

// How many bytes the tree, the data section and the metadata section have.
fn sizes_of(reader: &Reader<Vec<u8>>) -> (usize, usize, usize) {
    let sections = reader.sections();
    (
        sections.tree_bytes,
        sections.data_bytes,
        sections.metadata_bytes,
    )
}

// The base file has 199 bytes, of which 16 stand behind the tree and 14 before the metadata.
#[test]
fn sections_of_the_base_file(rt: HostRuntime) -> Result<(), Failures> {
    let mut failures = Failures::new(rt.alloc());
    let sizes = reader_of(rt.alloc(), &BASE).map(|reader| sizes_of(&reader));
    failures.expect(&"the base file", sizes.ok() == Some((6, 2, 161)));
    let is_data = match reader_of(rt.alloc(), &BASE) {
        Ok(reader) => reader.data_section() == BASE_DATA,
        Err(_) => false,
    };
    failures.expect(&"its data section", is_data);
    failures.verdict()
}

/// The first bytes of the base file, and the error. The marker ends at 38, and the metadata begin there:
/// what stands in them has its place in the file.
#[rattlefmt::skip]
const BEGINNINGS: &[(usize, &str)] = &[
    (0, NO_MARKER),
    (37, NO_MARKER),
    (38, "invalid database at offset 38: unexpected end of buffer"),
    (39, "invalid database at offset 39: unexpected end of buffer"),
    (40, "invalid database at offset 39: string length exceeds buffer"),
    (67, "invalid database at offset 67: unexpected end of buffer"),
    (68, "invalid database at offset 67: u16 of size 1"),
    (128, "invalid database at offset 127: string of size 1"),
    (198, "invalid database at offset 197: u16 of size 1"),
];

// What is reported of the first bytes of the base file.
fn reported_of_first(alloc: Global, len: usize) -> Result<String, AllocError> {
    let beginning = BASE_FILE.get(..len).unwrap_or(BASE_FILE);
    reported(alloc, Reader::from_source(alloc, beginning))
}

// Whether an error names the format.
fn is_of_database(to_error: Result<String, AllocError>) -> bool {
    match to_error {
        Ok(to_error) => to_error.starts_with("invalid database"),
        Err(_) => false,
    }
}

#[test]
fn beginnings_rejected(rt: HostRuntime) -> Result<(), Failures> {
    let (alloc, mut failures) = (rt.alloc(), Failures::new(rt.alloc()));
    for len in 0..BASE_FILE.len() {
        failures.expect(&len, is_of_database(reported_of_first(alloc, len)));
    }
    for (len, text) in BEGINNINGS {
        failures.expect_text(len, reported_of_first(alloc, *len), text);
    }
    failures.verdict()
}

const LATE: (Field, &[u8]) = (Field::BuildEpoch, b"\x08\x02\x80\0\0\0\0\0\0\0");

const ROOM: (Field, &[u8]) = (Field::NodeCount, b"\xC1\x02");

const SIZE: (Field, &[u8]) = (Field::RecordSize, b"\xA1\x10");

const COUNT: (Field, &[u8]) = (Field::NodeCount, b"\xC0");

const IP: (Field, &[u8]) = (Field::IpVersion, b"\xA1\x05");

const MAJOR: (Field, &[u8]) = (Field::MajorVersion, b"\xA1\x03");

const TYPE: (Field, &[u8]) = (Field::DatabaseType, b"\xA1\x07");

const WRONG_SIZE: &str = "invalid database: record_size - Expected: 24, 28, or 32 Actual: 16";

const NO_NODE: &str = "invalid database: node_count - Expected: positive integer Actual: 0";

const WRONG_IP: &str = "invalid database: ip_version - Expected: 4 or 6 Actual: 5";

const WRONG_MAJOR: &str = "invalid database: binary_format_major_version - Expected: 2 Actual: 3";

/// Files with one fault and with all that are named later, where the fault of the node count stands in the
/// place of that of room. A longer `build_epoch` moves the fields after it by 7 bytes.
#[rattlefmt::skip]
const FAULTS: Rejections = &[
    (&[ROOM], NO_ROOM),
    (&[SIZE], WRONG_SIZE),
    (&[SIZE, ROOM], WRONG_SIZE),
    (&[LATE], TOO_LATE),
    (&[LATE, SIZE, ROOM], TOO_LATE),
    (&[COUNT], NO_NODE),
    (&[COUNT, LATE, SIZE], NO_NODE),
    (&[IP], WRONG_IP),
    (&[IP, COUNT, LATE, SIZE], WRONG_IP),
    (&[MAJOR], WRONG_MAJOR),
    (&[MAJOR, IP, COUNT, LATE, SIZE], WRONG_MAJOR),
    (&[TYPE], "decoding error at offset 89: expected string, got type 5"),
    (
        &[TYPE, MAJOR, IP, COUNT, LATE, SIZE],
        "decoding error at offset 96: expected string, got type 5",
    ),
];

/// Metadata whose values are not read, and the error. `InvalidDatabase` counts from the start of the
/// file, the others from that of the metadata: these begin at 36 and the length of the data.
#[rattlefmt::skip]
const UNREAD: Rejections = &[
    (
        &[(Field::RecordSize, b"\xA2\x18")],
        "invalid database at offset 197: u16 of size 2",
    ),
    (
        &[(Field::DatabaseType, b"\x20\xFF")],
        "invalid database at offset 127: unexpected end of buffer",
    ),
    (
        &[(Field::Map, b"\xEA"), (Field::More, b"\x41z\x00\x05")],
        "invalid database at offset 201: unknown data type: 12",
    ),
    (
        &[(Field::Map, b"\xE8")],
        "decoding error at offset 147: missing field `record_size`",
    ),
    (
        &[(Field::Map, b"\xEA"), (Field::More, b"\x4Aip_version\xA1\x04")],
        "decoding error at offset 172: duplicate field `ip_version`",
    ),
    (
        &[(Field::Map, b"\xEA"), (Field::More, b"\x41z\x1E\x04\xFE\xE3")],
        "resource limit exceeded at offset 163: exceeded maximum number of data structure values",
    ),
];

/// The same behind seven bytes of data more.
#[rattlefmt::skip]
const UNREAD_LATER: Rejections = &[
    (
        &[(Field::RecordSize, b"\xA2\x18")],
        "invalid database at offset 204: u16 of size 2",
    ),
    (
        &[(Field::Map, b"\xE8")],
        "decoding error at offset 147: missing field `record_size`",
    ),
];

// The error of a file of these data and changed metadata, or `ok`.
fn to_error(alloc: Global, data: &[u8], changes: Changes<'_>) -> Result<String, AllocError> {
    let file = changed_file(alloc, BASE_NODE, data, changes)?;
    reported(alloc, Reader::from_source(alloc, file))
}

// Notes what is reported otherwise of files of these data.
fn expect_rejections(failures: &mut Failures, alloc: Global, data: &[u8], rows: Rejections) {
    for (changes, text) in rows {
        failures.expect_text(text, to_error(alloc, data, changes), text);
    }
}

#[test]
fn metadata_rejected(rt: HostRuntime) -> Result<(), Failures> {
    let (alloc, mut failures) = (rt.alloc(), Failures::new(rt.alloc()));
    expect_rejections(&mut failures, alloc, BASE_DATA, FAULTS);
    expect_rejections(&mut failures, alloc, BASE_DATA, UNREAD);
    expect_rejections(&mut failures, alloc, b"\x48abcdefgh", UNREAD_LATER);
    failures.verdict()
}

/// What the base file says of itself.
const OF_BASE: &str =
    "Metadata { binary_format_major_version: 2, binary_format_minor_version: 0, build_epoch: 1, database_type: \"T\", description: {\"en\": \"d\"}, ip_version: 4, languages: [], node_count: 1, record_size: 24 }";

/// What a file says of itself whose last time is 63 bits long.
const OF_LARGEST: &str =
    "Metadata { binary_format_major_version: 2, binary_format_minor_version: 0, build_epoch: 9223372036854775807, database_type: \"T\", description: {\"en\": \"d\"}, ip_version: 4, languages: [], node_count: 1, record_size: 24 }";

/// A file whose metadata are read, what they say, and the time of its build.
#[rattlefmt::skip]
const READ: &[(File, &str, &str)] = &[
    (BASE, OF_BASE, "1"),
    // a type behind a pointer
    (
        File::Of(BASE_NODE, BASE_DATA, &[(Field::DatabaseType, b"\x20\xA1"), (Field::More, b"\x41T")]),
        OF_BASE,
        "1",
    ),
    // an unknown field whose pointer leads nowhere
    (
        File::Of(BASE_NODE, BASE_DATA, &[(Field::Map, b"\xEA"), (Field::More, b"\x41z\x20\xFF")]),
        OF_BASE,
        "1",
    ),
    (
        File::Of(
            BASE_NODE,
            BASE_DATA,
            &[(Field::BuildEpoch, b"\x08\x02\x7F\xFF\xFF\xFF\xFF\xFF\xFF\xFF")],
        ),
        OF_LARGEST,
        "9223372036854775807",
    ),
];

// Notes what is reported otherwise by metadata, by their time, and by the first time that is too large.
fn expect_metadata(
    failures: &mut Failures,
    alloc: Global,
    metadata: &mut Metadata,
    wanted: &str,
    time: &str,
) {
    failures.expect_text(&time, format!(in alloc; "{metadata:?}"), wanted);
    failures.expect_text(&time, shown(alloc, metadata.build_time(alloc)), time);
    metadata.build_epoch = 9_223_372_036_854_775_808;
    failures.expect_text(&time, shown(alloc, metadata.build_time(alloc)), TOO_LATE);
}

// The same of a clone of a file's metadata.
fn expect_clone(
    failures: &mut Failures,
    alloc: Global,
    metadata: Result<Metadata, AllocError>,
    wanted: &str,
    time: &str,
) {
    match metadata {
        Ok(mut metadata) => expect_metadata(failures, alloc, &mut metadata, wanted, time),
        Err(_) => failures.expect(&"a clone", false),
    }
}

// The same of a file that may be rejected.
fn expect_read(
    failures: &mut Failures,
    alloc: Global,
    opened: Result<Reader<Vec<u8>>, MaxMindDbError>,
    wanted: &str,
    time: &str,
) {
    match opened {
        Ok(reader) => expect_clone(failures, alloc, reader.metadata().clone(), wanted, time),
        Err(error) => failures.expect_text(&time, reported(alloc, Err::<(), _>(error)), wanted),
    }
}

#[test]
fn metadata_read(rt: HostRuntime) -> Result<(), Failures> {
    let (alloc, mut failures) = (rt.alloc(), Failures::new(rt.alloc()));
    for (file, wanted, time) in READ {
        expect_read(&mut failures, alloc, reader_of(alloc, file), wanted, time);
    }
    failures.verdict()
}
