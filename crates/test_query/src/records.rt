//! What is read of databases side by side, without lookups, and what lookups find.
use super::databases::{BROKEN, FIRST, HALF, Tree};
use super::several::{asked_of, readers_of};
use mmdb_query::{Answer, Many, QueryError, Segment, Walk};
use mmdb_reader::{MaxMindDbError, PathElement, Reader};
use mmdb_value::Value;
use mmdb_vectors::answer::shown;
use mmdb_vectors::failures::Failures;
use std::alloc::{AllocError, Global};
use std::net::{IpAddr, Ipv4Addr};

/// The field that is read.
const FIELD: &[PathElement<'static>] = &[PathElement::Key("c")];

/// Databases side by side, the first byte of an address, and the place of one of them; the whole record that it has for the
/// address, and the value at `c`.
#[derive(Clone, Copy, Debug)]
struct Row {
    trees: &'static [Tree],
    first: u8,
    place: usize,
    whole: &'static str,
    value: &'static str,
}

#[rattlefmt::skip]
const ROWS: &[Row] = &[
    Row { trees: &[FIRST, HALF], first: 1, place: 0, whole: "None", value: "None" },
    Row { trees: &[FIRST, HALF], first: 1, place: 1, whole: "Some(Map([(\"c\", String(\"B\"))]))", value: "Some(String(\"B\"))" },
    Row { trees: &[FIRST, HALF], first: 64, place: 0, whole: "Some(Map([(\"c\", String(\"A\"))]))", value: "Some(String(\"A\"))" },
    Row { trees: &[FIRST, HALF], first: 64, place: 1, whole: "Some(Map([(\"c\", String(\"B\"))]))", value: "Some(String(\"B\"))" },
    Row { trees: &[FIRST, HALF], first: 192, place: 0, whole: "Some(Map([(\"c\", String(\"A\"))]))", value: "Some(String(\"A\"))" },
    Row { trees: &[FIRST, HALF], first: 192, place: 1, whole: "None", value: "None" },
    // there is no third database
    Row { trees: &[FIRST, HALF], first: 192, place: 2, whole: "None", value: "None" },
    Row { trees: &[FIRST, BROKEN], first: 1, place: 1, whole: "Some(Map([(\"c\", Map([(\"d\", String(\"D\"))]))]))", value: "Some(Map([(\"d\", String(\"D\"))]))" },
    // the record beside one that can't be read
    Row { trees: &[FIRST, BROKEN], first: 64, place: 0, whole: "Some(Map([(\"c\", String(\"A\"))]))", value: "Some(String(\"A\"))" },
    Row { trees: &[FIRST, BROKEN], first: 64, place: 1, whole: "invalid database at offset 55: unexpected end of buffer", value: "invalid database at offset 55: unexpected end of buffer" },
];

// What a lookup finds at the end of a path.
fn looked_up(
    alloc: Global,
    reader: &Reader<Vec<u8>>,
    address: IpAddr,
    path: &[PathElement<'_>],
) -> Result<String, AllocError> {
    match reader.lookup(address) {
        Ok(found) => {
            let read: Result<Option<Value<'_>>, MaxMindDbError> = found.decode_path(alloc, path);
            shown(alloc, read)
        }
        Err(error) => format!(in alloc; "{error}"),
    }
}

// What databases have in the block of an address. There are at most four blocks.
fn segment_of<'a>(walk: &mut Many<'a, Vec<u8>>, address: IpAddr) -> Option<Segment<'a, Vec<u8>>> {
    for _ in 0..4 {
        if let Ok(segment) = walk.next_item()? {
            if segment.network().contains(address) {
                return Some(segment);
            }
        }
    }
    None
}

// Notes what is read that a row does not say.
fn expect_read(failures: &mut Failures, alloc: Global, row: &Row) -> Result<(), QueryError> {
    let readers = readers_of(alloc, row.trees)?;
    let asked = asked_of(alloc, readers.as_slice())?;
    let address = IpAddr::V4(Ipv4Addr::new(row.first, 0, 0, 1));
    let Ok(mut walk) = Many::new(alloc, asked.as_slice()) else {
        return Err(QueryError::Memory);
    };
    let Some(segment) = segment_of(&mut walk, address) else {
        return Err(QueryError::OutOfOrder);
    };
    failures.expect_text(
        row,
        shown(alloc, segment.read_at(alloc, row.place, &[])),
        row.whole,
    );
    failures.expect_text(
        row,
        shown(alloc, segment.read_at(alloc, row.place, FIELD)),
        row.value,
    );
    if let Some(reader) = readers.get(row.place) {
        failures.expect_text(row, looked_up(alloc, reader, address, &[]), row.whole);
        failures.expect_text(row, looked_up(alloc, reader, address, FIELD), row.value);
    }
    Ok(())
}

#[test]
fn records_without_lookups(rt: HostRuntime) -> Result<(), Failures> {
    let mut failures = Failures::new(rt.alloc());
    for row in ROWS {
        let read = expect_read(&mut failures, rt.alloc(), row);
        failures.expect(row, read.is_ok());
    }
    failures.verdict()
}
