//! What an answer says of itself.
use super::databases::{BROKEN, FIRST, Tree, reader_of};
use mmdb_query::{Answer, outline_along};
use mmdb_reader::{LookupResult, PathElement};
use mmdb_vectors::answer::shown;
use mmdb_vectors::failures::Failures;
use std::alloc::{AllocError, Global};
use std::convert::AsSlice;
use std::net::{IpAddr, Ipv4Addr};

/// A database and the first byte of an address; the network, the key, the offset, whether there is a record, the value at `c`,
/// no more of it than its header, the value at `c.d`, and the whole record.
#[derive(Clone, Copy, Debug)]
struct Row {
    tree: Tree,
    first: u8,
    answer: &'static str,
    value: &'static str,
    outline: &'static str,
    below: &'static str,
    record: &'static str,
}

#[rattlefmt::skip]
const ROWS: &[Row] = &[
    Row { tree: FIRST, first: 1, answer: "0.0.0.0/2 Some(0) None false", value: "None", outline: "None", below: "None", record: "None" },
    Row { tree: FIRST, first: 64, answer: "64.0.0.0/2 Some(1) Some(0) true", value: "Some(String(\"A\"))", outline: "Some(String(\"A\"))", below: "None", record: "Some(Map([(\"c\", String(\"A\"))]))" },
    Row { tree: FIRST, first: 128, answer: "128.0.0.0/2 Some(6) Some(5) true", value: "Some(String(\"B\"))", outline: "Some(String(\"B\"))", below: "None", record: "Some(Map([(\"c\", String(\"B\"))]))" },
    Row { tree: BROKEN, first: 0, answer: "0.0.0.0/2 Some(11) Some(10) true", value: "Some(Map([(\"d\", String(\"D\"))]))", outline: "Some(Map([]))", below: "Some(String(\"D\"))", record: "Some(Map([(\"c\", Map([(\"d\", String(\"D\"))]))]))" },
];

// What an answer has at a path, and of it no more than its header.
fn read<A: Answer>(
    alloc: Global,
    answer: &A,
    path: &[PathElement<'_>],
    is_outline: bool,
) -> Result<String, AllocError> {
    let value = if is_outline {
        answer.outline_along(alloc, path)
    } else {
        answer.read_along(alloc, path)
    };
    shown(alloc, value)
}

// Notes what an answer says that a row does not.
fn expect_answer<A: Answer>(failures: &mut Failures, alloc: Global, answer: &A, row: &Row) {
    let network = answer.network();
    let (key, offset, has_record) = (answer.key(), answer.offset(0), answer.has_record());
    let text = format!(in alloc; "{network} {key:?} {offset:?} {has_record}");
    failures.expect_text(row, text, row.answer);
    failures.expect(row, answer.offset(1).is_none());
    let path = [PathElement::Key("c"), PathElement::Key("d")];
    failures.expect_text(row, read(alloc, answer, &path[..1], false), row.value);
    failures.expect_text(row, read(alloc, answer, &path[..1], true), row.outline);
    failures.expect_text(row, read(alloc, answer, &path, false), row.below);
    failures.expect_text(
        row,
        shown(alloc, answer.read_at(alloc, 0, &path)),
        row.below,
    );
    failures.expect_text(row, shown(alloc, answer.read_at(alloc, 0, &[])), row.record);
    failures.expect_text(row, shown(alloc, answer.read_at(alloc, 1, &[])), "None");
}

// Notes where a record says something else at a path than the answer that has it.
fn expect_record<S: AsSlice<u8> + Drop>(
    failures: &mut Failures,
    alloc: Global,
    found: &LookupResult<'_, S>,
    row: &Row,
) {
    let Some(record) = found.to_record() else {
        return;
    };
    let outline = outline_along(alloc, &record, &[PathElement::Key("c")]);
    failures.expect_text(row, shown(alloc, outline), row.outline);
}

#[test]
fn answers_of_one_database(rt: HostRuntime) -> Result<(), Failures> {
    let mut failures = Failures::new(rt.alloc());
    for row in ROWS {
        let address = IpAddr::V4(Ipv4Addr::new(row.first, 0, 0, 1));
        let Ok(reader) = reader_of(rt.alloc(), row.tree) else {
            failures.expect(row, false);
            continue;
        };
        match reader.lookup(address) {
            Ok(found) => {
                expect_answer(&mut failures, rt.alloc(), &found, row);
                expect_record(&mut failures, rt.alloc(), &found, row);
            }
            Err(_) => failures.expect(row, false),
        }
    }
    failures.verdict()
}
