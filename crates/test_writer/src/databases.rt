//! What no clause says: that files are written where there is memory, and which bytes they have. Each public call runs once.
use mmdb_net::IpNetwork;
use mmdb_reader::Reader;
use mmdb_value::Value;
use mmdb_vectors::hoard::Hoard;
use mmdb_writer::{
    IpVersion, Options, OptionsError, RecordSize, Row, RowError, ValueError, WriteError, Writer,
    write_database,
};
use std::alloc::{AllocError, Global};
use std::collections::BTreeMap;
use std::net::IpAddr;

/// Networks, each with the index of its value, and addresses, each with the index of the value that it has, if it has one.
struct Case {
    name: &'static str,
    version: IpVersion,
    rows: &'static [(&'static str, Option<usize>)],
    addresses: &'static [(&'static str, Option<usize>)],
}

const CASES: &[Case] = &[
    Case {
        name: "no rows",
        version: IpVersion::V4,
        rows: &[],
        addresses: &[("0.0.0.0", None), ("255.255.255.255", None)],
    },
    Case {
        name: "one address",
        version: IpVersion::V4,
        rows: &[("192.0.2.1/32", Some(0))],
        addresses: &[
            ("192.0.2.0", None),
            ("192.0.2.1", Some(0)),
            ("192.0.2.2", None),
        ],
    },
    Case {
        name: "all addresses",
        version: IpVersion::V6,
        rows: &[("::/0", Some(3))],
        addresses: &[("::", Some(3)), ("10.0.0.1", Some(3)), ("ffff::1", Some(3))],
    },
    Case {
        name: "the longest prefix counts, whatever the order",
        version: IpVersion::V4,
        rows: &[
            ("10.1.2.0/24", Some(2)),
            ("10.0.0.0/8", Some(0)),
            ("10.1.0.0/16", Some(1)),
            ("10.1.2.3/32", Some(3)),
        ],
        addresses: &[
            ("9.255.255.255", None),
            ("10.0.0.0", Some(0)),
            ("10.0.255.255", Some(0)),
            ("10.1.0.0", Some(1)),
            ("10.1.1.255", Some(1)),
            ("10.1.2.2", Some(2)),
            ("10.1.2.3", Some(3)),
            ("10.1.2.4", Some(2)),
            ("10.1.3.0", Some(1)),
            ("10.2.0.0", Some(0)),
            ("11.0.0.0", None),
        ],
    },
    Case {
        name: "of equal networks the last counts",
        version: IpVersion::V4,
        rows: &[
            ("10.0.0.0/8", Some(1)),
            ("10.0.0.0/9", Some(4)),
            ("10.0.0.0/8", Some(2)),
            ("10.0.0.0/8", Some(0)),
            ("10.0.0.0/9", Some(3)),
        ],
        addresses: &[("10.127.0.0", Some(3)), ("10.128.0.0", Some(0))],
    },
    Case {
        name: "a network is given by any of its addresses",
        version: IpVersion::V4,
        rows: &[("10.1.2.3/8", Some(0))],
        addresses: &[("10.255.0.0", Some(0)), ("11.0.0.0", None)],
    },
    Case {
        name: "a row without a value takes addresses out",
        version: IpVersion::V4,
        rows: &[
            ("10.1.0.0/16", None),
            ("10.0.0.0/8", Some(0)),
            ("10.1.2.0/24", Some(1)),
            ("192.0.2.0/24", Some(1)),
            ("192.0.2.0/24", None),
        ],
        addresses: &[
            ("10.0.255.255", Some(0)),
            ("10.1.0.0", None),
            ("10.1.2.0", Some(1)),
            ("10.1.3.0", None),
            ("10.2.0.0", Some(0)),
            ("192.0.2.1", None),
        ],
    },
    Case {
        name: "IPv4 and IPv6 in one file",
        version: IpVersion::V6,
        rows: &[
            ("2001:db8::/32", Some(0)),
            ("10.0.0.0/8", Some(1)),
            ("2001:db8:1::/48", Some(2)),
        ],
        addresses: &[
            ("10.0.0.1", Some(1)),
            ("11.0.0.1", None),
            ("::a00:1", Some(1)),
            ("2001:db8::1", Some(0)),
            ("2001:db8:1::1", Some(2)),
            ("2001:db9::", None),
        ],
    },
    Case {
        name: "an IPv4 network in one of IPv6, written with 96 zeros too",
        version: IpVersion::V6,
        rows: &[
            ("::/64", Some(0)),
            ("::10.0.0.0/104", Some(1)),
            ("10.0.0.0/8", Some(2)),
        ],
        addresses: &[
            ("10.1.1.1", Some(2)),
            ("::9.1.1.1", Some(0)),
            ("11.1.1.1", Some(0)),
        ],
    },
];

// Five values, one of each kind.
fn values(alloc: Global) -> Result<Vec<Value<'static>>, AllocError> {
    let names = vec![in alloc;
        ("de", Value::String("Wien")),
        ("en", Value::String("Vienna")),
    ]?;
    let numbers = vec![in alloc; Value::U16(5), Value::I32(-5), Value::Bool(true)]?;
    let record = vec![in alloc;
        ("names", Value::Map(names)),
        ("numbers", Value::Array(numbers)),
        ("bytes", Value::Bytes(&[0, 1])),
    ]?;
    let values = vec![in alloc;
        Value::String("a"),
        Value::Map(record),
        Value::U32(7),
        Value::Array(Vec::new(alloc)),
        Value::String(""),
    ]?;
    Ok(values)
}

fn options(
    alloc: Global,
    ip_version: IpVersion,
    record_size: Option<RecordSize>,
) -> Result<Options, AllocError> {
    let mut description = BTreeMap::new(alloc);
    let (language, text) = (
        String::from_str(alloc, "en")?,
        String::from_str(alloc, "Rows")?,
    );
    description.insert(language, text)?;
    let language = String::from_str(alloc, "en")?;
    Ok(Options {
        database_type: String::from_str(alloc, "Test")?,
        description,
        languages: vec![in alloc; language]?,
        build_epoch: 258,
        ip_version,
        record_size,
    })
}

// The rows of networks that can be read.
fn rows_of(alloc: Global, texts: &[(&str, Option<usize>)]) -> Result<Vec<Row>, AllocError> {
    let mut rows = Vec::new(alloc);
    for (text, value) in texts {
        let network: Result<IpNetwork, _> = text.parse();
        if let Ok(network) = network {
            rows.push(Row {
                network,
                value: *value,
            })?;
        }
    }
    Ok(rows)
}

fn file_of(
    alloc: Global,
    version: IpVersion,
    record_size: Option<RecordSize>,
    texts: &[(&str, Option<usize>)],
) -> Result<Vec<u8>, WriteError> {
    let values = values(alloc)?;
    let rows = rows_of(alloc, texts)?;
    write_database(alloc, &values, &rows, options(alloc, version, record_size)?)
}

// A value as a text, or that there is none.
fn text_of(alloc: Global, value: Option<&Value<'_>>) -> Result<String, AllocError> {
    match value {
        Some(value) => format!(in alloc; "{value:?}"),
        None => String::from_str(alloc, "none"),
    }
}

// What a lookup of the address finds, as a text.
fn found_at(alloc: Global, reader: &Reader<&[u8]>, address: &str) -> Result<String, AllocError> {
    let Ok(address) = address.parse::<IpAddr>() else {
        return String::from_str(alloc, "no address");
    };
    let Ok(found) = reader.lookup(address) else {
        return String::from_str(alloc, "no answer");
    };
    match found.decode::<Value<'_>>(alloc) {
        Ok(value) => text_of(alloc, value.as_ref()),
        Err(_) => String::from_str(alloc, "no value"),
    }
}

// Whether a lookup of the address finds the value of that index, or none.
fn finds(
    alloc: Global,
    reader: &Reader<&[u8]>,
    values: &[Value<'_>],
    address: &str,
    index: Option<usize>,
) -> Result<bool, AllocError> {
    let wanted = match index {
        Some(index) => values.get(index),
        None => None,
    };
    Ok(found_at(alloc, reader, address)? == text_of(alloc, wanted)?)
}

// The first address of a case that is not found as it should be.
fn missed(alloc: Global, case: &Case) -> Result<Option<&'static str>, WriteError> {
    let file = file_of(alloc, case.version, None, case.rows)?;
    let values = values(alloc)?;
    let Ok(reader) = Reader::from_source(alloc, file.as_slice()) else {
        return Ok(Some("the file"));
    };
    for (address, index) in case.addresses {
        if !finds(alloc, &reader, &values, address, *index)? {
            return Ok(Some(*address));
        }
    }
    Ok(None)
}

#[test]
fn calls_succeed(rt: HostRuntime) {
    for case in CASES {
        let missed = missed(rt.alloc(), case);
        assert!(rt; missed == Ok(None), "{}: {missed:?}", case.name);
    }
}

/// The search tree of one network, `128.0.0.0/1`, whose value begins the data section: node 0 leads the bit 0 to no data,
/// number 1, and the bit 1 to number 1 + 16.
const NODES: &[(RecordSize, &[u8])] = &[
    (RecordSize::Bits24, &[0, 0, 1, 0, 0, 17]),
    (RecordSize::Bits28, &[0, 0, 1, 0, 0, 0, 17]),
    (RecordSize::Bits32, &[0, 0, 0, 1, 0, 0, 0, 17]),
];

/// What stands behind the nodes in a file of the value `a` alone: the separator, the value, the marker, and the metadata as far
/// as they do not depend on the size of records.
const BEHIND_NODES: &[u8] = b"\0\0\0\0\0\0\0\0\0\0\0\0\0\0\0\0\x41a\xAB\xCD\xEFMaxMind.com\xE9\
\x5Bbinary_format_major_version\xA1\x02\x5Bbinary_format_minor_version\xA0\
\x4Bbuild_epoch\x02\x02\x01\x02\x4Ddatabase_type\x44Test\x4Bdescription\xE1\x42en\x44Rows\
\x4Aip_version\xA1\x04\x49languages\x01\x04\x42en\x4Anode_count\xC1\x01\x4Brecord_size\xA1";

// Whether a file of one value has these bytes.
fn has_bytes(alloc: Global, size: RecordSize, nodes: &[u8]) -> Result<bool, WriteError> {
    let values = vec![in alloc; Value::String("a")]?;
    let rows = rows_of(alloc, &[("128.0.0.0/1", Some(0))])?;
    let options = options(alloc, IpVersion::V4, Some(size))?;
    let file = write_database(alloc, &values, &rows, options)?;
    let Some(behind) = file.as_slice().strip_prefix(nodes) else {
        return Ok(false);
    };
    Ok(behind.strip_prefix(BEHIND_NODES) == Some(&[size.bits() as u8]))
}

#[test]
fn bytes_of_files(rt: HostRuntime) {
    for (size, nodes) in NODES {
        let holds = has_bytes(rt.alloc(), *size, nodes);
        assert!(rt; holds == Ok(true), "{size:?}: {holds:?}");
    }
}

/// The bytes of a map with a key, under which is an array of a text and a number, none of which occurs elsewhere.
const IN_LINE: &[u8] = b"\xE1\x41k\x02\x04\x42in\xA1\x05";

// Whether the data section of a file of that map alone is just the map.
fn is_in_line(alloc: Global) -> Result<bool, WriteError> {
    let parts = vec![in alloc; Value::String("in"), Value::U16(5)]?;
    let pairs = vec![in alloc; ("k", Value::Array(parts))]?;
    let values = vec![in alloc; Value::Map(pairs)]?;
    let rows = rows_of(alloc, &[("128.0.0.0/1", Some(0))])?;
    let options = options(alloc, IpVersion::V4, Some(RecordSize::Bits24))?;
    let file = write_database(alloc, &values, &rows, options)?;
    let section = file.get(6 + 16..).unwrap_or(&[]);
    let Some(behind) = section.strip_prefix(IN_LINE) else {
        return Ok(false);
    };
    Ok(behind.starts_with(b"\xAB\xCD\xEFMaxMind.com"))
}

#[test]
fn values_used_once_are_in_line(rt: HostRuntime) {
    let holds = is_in_line(rt.alloc());
    assert!(rt; holds == Ok(true), "{holds:?}");
}

/// Networks that are not written, and why.
const REJECTED: &[(IpVersion, &[(&str, Option<usize>)], WriteError)] = &[
    (
        IpVersion::V4,
        &[("10.0.0.0/8", Some(0)), ("2001:db8::/32", Some(1))],
        WriteError::Row {
            index: 1,
            error: RowError::Ipv6,
        },
    ),
    (
        IpVersion::V6,
        &[("10.0.0.0/8", Some(5))],
        WriteError::Row {
            index: 0,
            error: RowError::NoValue,
        },
    ),
];

#[test]
fn rejected_rows(rt: HostRuntime) {
    for (version, rows, error) in REJECTED {
        let file = file_of(rt.alloc(), *version, None, rows);
        assert!(rt; file.err() == Some(*error), "{error:?}");
    }
}

// An array in an array, and so on, with so many of them.
fn nested(alloc: Global, levels: usize) -> Result<Value<'static>, AllocError> {
    let mut value = Value::U16(0);
    for _ in 0..levels {
        value = Value::Array(vec![in alloc; value]?);
    }
    Ok(value)
}

// An array of so many truth values.
fn wide(alloc: Global, len: usize) -> Result<Value<'static>, AllocError> {
    let mut values = Vec::new(alloc);
    for _ in 0..len {
        values.push(Value::Bool(true))?;
    }
    Ok(Value::Array(values))
}

// The error of a file of one value, if it is not written.
fn error_of(alloc: Global, value: Value<'_>) -> Result<Option<WriteError>, WriteError> {
    let values = vec![in alloc; value]?;
    let rows = rows_of(alloc, &[("::/0", Some(0))])?;
    let options = options(alloc, IpVersion::V6, None)?;
    Ok(write_database(alloc, &values, &rows, options).err())
}

// So many zeros.
fn zeros(alloc: Global, len: usize) -> Result<Vec<u8>, AllocError> {
    vec![in alloc; 0; len]
}

/// Arrays in one another, an array of truth values, or a string of bytes.
#[derive(Clone, Copy, Debug)]
enum Shape {
    Nested,
    Wide,
    Bytes,
}

/// Values of so many arrays, truth values or bytes, and why they are not written.
const LIMITS: &[(Shape, usize, Option<ValueError>)] = &[
    (Shape::Nested, 64, None),
    (Shape::Nested, 65, Some(ValueError::TooDeep)),
    (Shape::Wide, 65_535, None),
    (Shape::Wide, 65_536, Some(ValueError::TooManyValues)),
    (Shape::Bytes, 2_097_152, None),
    (Shape::Bytes, 2_097_153, Some(ValueError::TooManyBytes)),
];

// The error of a file of a value of that shape, if it is not written.
fn error_of_shape(
    alloc: Global,
    shape: Shape,
    count: usize,
) -> Result<Option<WriteError>, WriteError> {
    match shape {
        Shape::Nested => error_of(alloc, nested(alloc, count)?),
        Shape::Wide => error_of(alloc, wide(alloc, count)?),
        Shape::Bytes => {
            let bytes = zeros(alloc, count)?;
            error_of(alloc, Value::Bytes(&bytes))
        }
    }
}

#[test]
fn values_at_the_limits(rt: HostRuntime) {
    for (shape, count, error) in LIMITS {
        let met = error_of_shape(rt.alloc(), *shape, *count);
        let wanted = error.map(|error| WriteError::Value { index: 0, error });
        assert!(rt; met == Ok(wanted), "{shape:?} {count}: {met:?}");
    }
}

/// Maps with these keys, and why they are not written.
const KEYS: &[(&[&str], Option<ValueError>)] = &[
    (&[], None),
    (&["a", "b", "", "ab"], None),
    (&["a", "b", "a"], Some(ValueError::KeyTwice)),
    (&["", ""], Some(ValueError::KeyTwice)),
];

// A map with these keys, in an array in a map.
fn map_of(alloc: Global, keys: &[&'static str]) -> Result<Value<'static>, AllocError> {
    let mut pairs = Vec::new(alloc);
    for key in keys {
        pairs.push((*key, Value::Bool(true)))?;
    }
    let values = vec![in alloc; Value::Map(pairs)]?;
    Ok(Value::Map(vec![in alloc; ("a", Value::Array(values))]?))
}

#[test]
fn keys_that_stand_twice(rt: HostRuntime) {
    for (keys, error) in KEYS {
        let met = match map_of(rt.alloc(), keys) {
            Ok(value) => error_of(rt.alloc(), value),
            Err(error) => Err(WriteError::from(error)),
        };
        let wanted = error.map(|error| WriteError::Value { index: 0, error });
        assert!(rt; met == Ok(wanted), "{keys:?}: {met:?}");
    }
}

/// What is added to a writer in turn, and whether it is accepted: a value that can be read, one that can't, a row of a network
/// and the index of its value.
#[derive(Clone, Copy, Debug)]
enum Step {
    Value(&'static str),
    TwiceKeyed,
    Row(&'static str, Option<usize>),
}

/// Steps, each with the error that it gives.
const STEPS: &[(Step, Option<WriteError>)] = &[
    (
        Step::Row("10.0.0.0/8", Some(0)),
        Some(WriteError::Row {
            index: 0,
            error: RowError::NoValue,
        }),
    ),
    (Step::Value("a"), None),
    (Step::Row("10.0.0.0/8", Some(0)), None),
    (
        Step::TwiceKeyed,
        Some(WriteError::Value {
            index: 1,
            error: ValueError::KeyTwice,
        }),
    ),
    (
        Step::Row("10.1.0.0/16", Some(1)),
        Some(WriteError::Row {
            index: 1,
            error: RowError::NoValue,
        }),
    ),
    (Step::Value("b"), None),
    (Step::Row("10.1.0.0/16", Some(1)), None),
    (Step::Value("a"), None),
    (Step::Row("10.1.1.0/24", Some(2)), None),
    (Step::Row("10.1.1.1/32", None), None),
];

/// Addresses of the file that those steps make, and what is found.
const FOUND: &[(&str, &str)] = &[
    ("9.255.255.255", "none"),
    ("10.0.0.0", "String(\"a\")"),
    ("10.1.0.0", "String(\"b\")"),
    ("10.1.1.0", "String(\"a\")"),
    ("10.1.1.1", "none"),
    ("10.1.1.2", "String(\"a\")"),
];

fn add(alloc: Global, writer: &mut Writer, step: Step) -> Result<(), WriteError> {
    match step {
        Step::Value(text) => {
            writer.add_value(alloc, &Value::String(text))?;
        }
        Step::TwiceKeyed => {
            writer.add_value(alloc, &map_of(alloc, &["a", "a"])?)?;
        }
        Step::Row(network, value) => {
            for row in rows_of(alloc, &[(network, value)])? {
                writer.add_row(row)?;
            }
        }
    }
    Ok(())
}

// The first step or address that does not come out as it should.
fn missed_in_turn(alloc: Global) -> Result<Option<String>, WriteError> {
    let mut writer = Writer::new(alloc, options(alloc, IpVersion::V4, None)?)?;
    for (step, error) in STEPS {
        if add(alloc, &mut writer, *step).err() != *error {
            return Ok(Some(format!(in alloc; "{step:?}")?));
        }
    }
    let file = writer.write(alloc)?;
    let Ok(reader) = Reader::from_source(alloc, file.as_slice()) else {
        return Ok(Some(String::from_str(alloc, "the file")?));
    };
    for (address, wanted) in FOUND {
        if found_at(alloc, &reader, address)?.as_str() != *wanted {
            return Ok(Some(String::from_str(alloc, address)?));
        }
    }
    Ok(None)
}

#[test]
fn calls_in_turn(rt: HostRuntime) {
    let missed = missed_in_turn(rt.alloc());
    assert!(rt; missed == Ok(None), "{missed:?}");
}

/// Metadata that are not accepted: the type, the description and the time.
const UNACCEPTED: &[(&str, Option<&str>, u64, OptionsError)] = &[
    ("", Some("en"), 0, OptionsError::NoType),
    ("Test", None, 0, OptionsError::NoDescription),
    ("Test", Some("en"), 1 << 63, OptionsError::TooLate),
];

// The error of a file with such metadata, if it is not written.
fn error_of_metadata(
    alloc: Global,
    database_type: &str,
    language: Option<&str>,
    build_epoch: u64,
) -> Result<Option<WriteError>, WriteError> {
    let mut options = options(alloc, IpVersion::V4, None)?;
    options.database_type = String::from_str(alloc, database_type)?;
    options.build_epoch = build_epoch;
    if language.is_none() {
        options.description = BTreeMap::new(alloc);
    }
    Ok(write_database(alloc, &[], &[], options).err())
}

#[test]
fn metadata_that_are_not_accepted(rt: HostRuntime) {
    for (database_type, language, build_epoch, error) in UNACCEPTED {
        let met = error_of_metadata(rt.alloc(), *database_type, *language, *build_epoch);
        assert!(rt;
            met == Ok(Some(WriteError::Options(*error))),
            "{error:?}: {met:?}"
        );
    }
}

/// Where budgets begin, by how many bytes they differ, and how many there are: a reader's table takes 320 KiB.
const FIRST: usize = 65_536;

const PIECE: usize = 65_536;

const PIECES: usize = 32;

// How many budgets of memory are too small for a file, and with how many it is written.
fn budgets(alloc: Global) -> (u32, u32) {
    let (mut rejected, mut accepted) = (0u32, 0u32);
    for piece in 0..PIECES {
        let hoard = Hoard::around(alloc, FIRST + piece * PIECE);
        let file = file_of(alloc, IpVersion::V6, None, &[("10.0.0.0/8", Some(1))]);
        drop(hoard);
        match file {
            Ok(_) => accepted = accepted.saturating_add(1),
            Err(WriteError::Memory) => rejected = rejected.saturating_add(1),
            Err(_) => return (0, 0),
        }
    }
    (rejected, accepted)
}

// How many of the first budgets, in steps of 32 bytes, are too small for a file.
fn small_budgets(alloc: Global) -> u32 {
    let large = Hoard::of_large_blocks(alloc);
    let mut rejected = 0u32;
    for turn in 0..200usize {
        let small = Hoard::of_all_but(alloc, turn * 32);
        let file = file_of(alloc, IpVersion::V6, None, &[("10.0.0.0/8", Some(1))]);
        drop(small);
        if file.err() == Some(WriteError::Memory) {
            rejected = rejected.saturating_add(1);
        }
    }
    drop(large);
    rejected
}

#[test]
fn growths_fail_in_turn(rt: HostRuntime) {
    let (rejected, accepted) = budgets(rt.alloc());
    assert!(rt; rejected > 0 && accepted > 0, "{rejected}: {accepted}");
    let small = small_budgets(rt.alloc());
    assert!(rt; small == 200, "{small}");
}
