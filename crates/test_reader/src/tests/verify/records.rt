//! Whole files whose records can be read, or can't: each has one record, at the beginning of its data.
use super::files::{of_three_leaves, opened, with_data};
use mmdb_reader::laws::records_are_decoded;
use mmdb_reader::{MaxMindDbError, Reader};
use mmdb_value::Value;
use mmdb_vectors::section::section_of;
use std::alloc::Global;
use std::net::{IpAddr, Ipv4Addr};
use std::process::Abort;

/// What a row is, the parts of its data, each so often, and whether its record can be read.
type Row = (&'static str, &'static [(&'static [u8], usize)], bool);

/// Arrays of two pointers to the next, which are six bytes each: sixteen levels of them would be 131,071 values.
const FAN: &[u8] = b"\x02\x04\x20\x06\x20\x06\
    \x02\x04\x20\x0C\x20\x0C\
    \x02\x04\x20\x12\x20\x12\
    \x02\x04\x20\x18\x20\x18\
    \x02\x04\x20\x1E\x20\x1E\
    \x02\x04\x20\x24\x20\x24\
    \x02\x04\x20\x2A\x20\x2A\
    \x02\x04\x20\x30\x20\x30\
    \x02\x04\x20\x36\x20\x36\
    \x02\x04\x20\x3C\x20\x3C\
    \x02\x04\x20\x42\x20\x42\
    \x02\x04\x20\x48\x20\x48\
    \x02\x04\x20\x4E\x20\x4E\
    \x02\x04\x20\x54\x20\x54\
    \x02\x04\x20\x5A\x20\x5A";

#[rattlefmt::skip]
const ROWS: &[Row] = &[
    ("a text", &[(b"\x41x", 1)], true),
    ("a pointer to a pointer", &[(b"\x20\x02\x20\x04\x41x", 1)], true),
    ("a key that is a text", &[(b"\xE1\x41k\x00\x07", 1)], true),
    ("a key behind a pointer", &[(b"\xE1\x20\x05\x00\x07\x41k", 1)], true),
    ("a key behind two pointers", &[(b"\xE1\x20\x05\x00\x07\x20\x07\x41k", 1)], false),
    ("a key that is a number", &[(b"\xE1\xA1\x07\x00\x07", 1)], false),
    ("a key that is a map", &[(b"\xE1\xE0\x00\x07", 1)], false),
    ("a key that is a string of bytes", &[(b"\xE1\x81k\x00\x07", 1)], false),
    ("a wrong key in a value", &[(b"\x01\x04\xE1\x41k\xE1\xA1\x07\x00\x07", 1)], false),
    ("a wrong key behind a pointer", &[(b"\x01\x04\x20\x04\xE1\xA1\x07\x00\x07", 1)], false),
    ("65,536 values", &[(b"\x1E\x04\xFE\xE2", 1), (b"\x00\x07", 65_535)], true),
    ("65,537 values", &[(b"\x1E\x04\xFE\xE3", 1), (b"\x00\x07", 65_536)], false),
    // An array of 255 pointers to an array of 255 values, and of 255 values; the same with one value more.
    ("65,536 values by pointers", &[(b"\x1E\x04\x00\xE1", 1), (b"\x24\x00", 255), (b"\x00\x07", 255), (b"\x1D\x04\xE2", 1), (b"\x00\x07", 255)], true),
    ("65,537 values by pointers", &[(b"\x1E\x04\x00\xE2", 1), (b"\x24\x02", 255), (b"\x00\x07", 256), (b"\x1D\x04\xE2", 1), (b"\x00\x07", 255)], false),
    ("a map of 32,767 pairs", &[(b"\xFE\x7E\xE2", 1), (b"\x41k\x40", 32_767)], true),
    ("a map of 32,768 pairs", &[(b"\xFE\x7E\xE3", 1), (b"\x41k\x40", 32_768)], false),
    ("2,097,152 bytes", &[(b"\x9F\x1E\xFE\xE3", 1), (b"\x00", 2_097_152)], true),
    ("2,097,153 bytes", &[(b"\x9F\x1E\xFE\xE4", 1), (b"\x00", 2_097_153)], false),
    ("2,097,152 bytes of two texts in one place", &[(b"\x02\x04\x20\x06\x20\x06\x5F\x0E\xFE\xE3", 1), (b"x", 1_048_576)], true),
    ("a byte more", &[(b"\x03\x04\x20\x09\x20\x09\x41x\x00\x5F\x0E\xFE\xE3", 1), (b"x", 1_048_576)], false),
    ("bytes of keys", &[(b"\xE2\x20\x07\x40\x20\x07\x40\x5F\x0E\xFE\xE3", 1), (b"x", 1_048_576)], true),
    ("a byte of a key more", &[(b"\xE3\x20\x0A\x40\x20\x0A\x40\x41x\x40\x5F\x0E\xFE\xE3", 1), (b"x", 1_048_576)], false),
    ("128 levels", &[(b"\x01\x04", 128), (b"\x00\x07", 1)], true),
    ("65,535 values of fifteen arrays", &[(FAN, 1), (b"\x00\x07", 1)], true),
    ("131,071 values of sixteen arrays", &[(FAN, 1), (b"\x02\x04\x20\x60\x20\x60\x00\x07", 1)], false),
];

// The text of an error, and none of a success.
fn text_of(alloc: Global, answer: &Result<(), MaxMindDbError>) -> Result<String, MaxMindDbError> {
    match answer {
        Ok(()) => Ok(String::new(alloc)),
        Err(error) => Ok(format!(in alloc; "{error}")?),
    }
}

// What reading the record of an address as a value says.
fn read_at(
    alloc: Global,
    reader: &Reader<Vec<u8>>,
    address: Ipv4Addr,
) -> Result<(), MaxMindDbError> {
    let found = reader.lookup(IpAddr::V4(address))?;
    let value: Option<Value<'_>> = found.decode(alloc)?;
    drop(value);
    Ok(())
}

// Asserts that a whole file is said to have a record that can't be read exactly where that of an address can't be, and
// with the same error.
fn assert_said(
    rt: &impl Abort,
    alloc: Global,
    reader: &Reader<Vec<u8>>,
    address: Ipv4Addr,
    is_read: bool,
    case: &str,
) {
    assert!(rt; reader.verify(alloc).is_ok(), "{case}: whole");
    let read = read_at(alloc, reader, address);
    let said = reader.verify_records(alloc);
    assert!(rt; read.is_ok() == is_read, "{case}: read");
    assert!(rt; said.is_ok() == is_read, "{case}: verified");
    let read = text_of(alloc, &read).expect(rt, case);
    let said = text_of(alloc, &said).expect(rt, case);
    assert!(rt;
        read.as_str() == said.as_str(),
        "{case}: {read}, not {said}"
    );
}

#[test]
fn records_that_are_read(rt: HostRuntime) {
    records_are_decoded();
    let alloc = rt.alloc();
    for (case, parts, is_read) in ROWS {
        let data = section_of(alloc, parts);
        let reader = opened(&rt, alloc, with_data(alloc, data.as_slice()));
        let address = Ipv4Addr::new(128, 0, 0, 0);
        assert_said(&rt, alloc, &reader, address, *is_read, case);
    }
}

/// The offsets of the records of three leaves, and the address of the first, by its offset, that can't be read, if one
/// can't be. At 0 is a text, at 2 a map with a number for a key, at 7 a pointer to it.
#[rattlefmt::skip]
const THREE: &[([u16; 3], Option<[u8; 4]>)] = &[
    ([0, 0, 0], None),
    ([2, 0, 0], Some([0, 0, 0, 0])),
    ([0, 2, 0], Some([64, 0, 0, 0])),
    ([0, 0, 2], Some([128, 0, 0, 0])),
    ([0, 0, 7], Some([128, 0, 0, 0])),
    ([7, 0, 2], Some([128, 0, 0, 0])),
];

#[test]
fn each_record_is_read(rt: HostRuntime) {
    let alloc = rt.alloc();
    for (offsets, first) in THREE {
        let file = of_three_leaves(alloc, b"\x41x\xE1\xA1\x07\x00\x07\x20\x02", *offsets);
        let reader = opened(&rt, alloc, file);
        let address = Ipv4Addr::from_octets(first.unwrap_or([0; 4]));
        assert_said(
            &rt,
            alloc,
            &reader,
            address,
            first.is_none(),
            "three leaves",
        );
    }
}

#[test]
fn what_is_not_whole_is_rejected_so(rt: HostRuntime) {
    let alloc = rt.alloc();
    let reader = opened(&rt, alloc, with_data(alloc, b"\xE1\xA1\x07\x41\xFF"));
    let whole = text_of(alloc, &reader.verify(alloc)).expect(&rt, "a text");
    let said = text_of(alloc, &reader.verify_records(alloc)).expect(&rt, "a text");
    assert!(&rt; whole.as_str() == said.as_str(), "{said}");
    assert!(&rt; !whole.is_empty(), "an error");
}
