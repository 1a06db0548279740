//! Addresses that are asked of several databases.
use crate::tests::asserted::assert_of;
use mmdb_vectors::builder::{BASE_DATA, BASE_NODE, Changes, Field, changed_file};
use std::alloc::{AllocError, Global};
use std::process::Abort;
use test_runs::program::{Run, run_over, two_files};

/// A database: its nodes, its data, and what is changed of its metadata.
type Database<'a> = (&'a [u8], &'a [u8], Changes<'a>);

/// A node with the same record on both sides.
const BOTH: &[u8] = b"\x00\x00\x11\x00\x00\x11";

/// {"c": {"i": "DE"}, "n": 7} in 128.0.0.0/1.
const CITY: Database<'static> = (
    BASE_NODE,
    b"\xE2\x41c\xE1\x41i\x42DE\x41n\xA1\x07",
    &[(Field::DatabaseType, b"\x44City")],
);

/// {"n": 8, "o": "x"} in 0.0.0.0/1 and 128.0.0.0/1.
const ASN: Database<'static> = (
    BOTH,
    b"\xE2\x41n\xA1\x08\x41o\x41x",
    &[(Field::DatabaseType, b"\x43ASN")],
);

/// The text x in 128.0.0.0/1.
const PLAIN: Database<'static> = (BASE_NODE, BASE_DATA, &[]);

/// The text x in 8000::/1.
const LONG: Database<'static> = (
    BASE_NODE,
    BASE_DATA,
    &[
        (Field::IpVersion, b"\xA1\x06"),
        (Field::DatabaseType, b"\x44Long"),
    ],
);

/// A type that an address is called.
const ADDRESS: Database<'static> = (
    BASE_NODE,
    BASE_DATA,
    &[(Field::DatabaseType, b"\x47address")],
);

/// A type that is the name of a file.
const FILE: Database<'static> = (
    BASE_NODE,
    BASE_DATA,
    &[(Field::DatabaseType, b"\x48new.mmdb")],
);

/// A text that is not UTF-8 in 128.0.0.0/1.
const UNREADABLE: Database<'static> = (
    BASE_NODE,
    b"\x41\xFF",
    &[(Field::DatabaseType, b"\x43Bad")],
);

/// What a damaged file has of metadata.
const DAMAGED: Database<'static> = (BASE_NODE, BASE_DATA, &[(Field::NodeCount, b"\xC0")]);

/// The databases here.mmdb and new.mmdb, words, the status, standard output, and how the lines of standard error begin.
type Row<'a> = (
    Database<'a>,
    Database<'a>,
    &'a [&'a str],
    u8,
    &'a str,
    &'a [&'a str],
);

const HERE: &str =
    "{\"address\":\"200.0.0.1\",\"network\":\"128.0.0.0/1\",\"record\":{\"c\":{\"i\":\"DE\"},\"n\":7}}\n";

const TOGETHER: &str =
    "{\"address\":\"200.0.0.1\",\"City\":{\"network\":\"128.0.0.0/1\",\"record\":{\"c\":{\"i\":\"DE\"},\"n\":7}},\"ASN\":{\"network\":\"128.0.0.0/1\",\"record\":{\"n\":8,\"o\":\"x\"}}}\n";

const BACKWARDS: &str =
    "{\"address\":\"1.1.1.1\",\"ASN\":{\"network\":\"0.0.0.0/1\",\"record\":{\"n\":8,\"o\":\"x\"}},\"City\":{\"network\":\"0.0.0.0/1\",\"record\":null}}
{\"address\":\"200.0.0.1\",\"ASN\":{\"network\":\"128.0.0.0/1\",\"record\":{\"n\":8,\"o\":\"x\"}},\"City\":{\"network\":\"128.0.0.0/1\",\"record\":{\"c\":{\"i\":\"DE\"},\"n\":7}}}
";

#[rattlefmt::skip]
const RECORDS: &[Row<'static>] = &[
    (CITY, ASN, &["here.mmdb", "new.mmdb", "200.0.0.1"], 0, TOGETHER, &[]),
    // in any order; the members come in that of the databases
    (CITY, ASN, &["1.1.1.1", "new.mmdb", "200.0.0.1", "here.mmdb"], 0, BACKWARDS, &[]),
    // none has the address
    (
        CITY, PLAIN, &["here.mmdb", "new.mmdb", "1.1.1.1"], 6,
        "{\"address\":\"1.1.1.1\",\"City\":{\"network\":\"0.0.0.0/1\",\"record\":null},\"T\":{\"network\":\"0.0.0.0/1\",\"record\":null}}\n", &[],
    ),
    // one database, named twice or beside addresses alone
    (CITY, ASN, &["here.mmdb", "200.0.0.1", "here.mmdb"], 0, HERE, &[]),
    (CITY, ASN, &["200.0.0.1", "here.mmdb"], 0, HERE, &[]),
    // equal types, and one that is called as the address
    (
        PLAIN, PLAIN, &["here.mmdb", "new.mmdb", "200.0.0.1"], 0,
        "{\"address\":\"200.0.0.1\",\"T\":{\"network\":\"128.0.0.0/1\",\"record\":\"x\"},\"new.mmdb\":{\"network\":\"128.0.0.0/1\",\"record\":\"x\"}}\n", &[],
    ),
    (
        ADDRESS, PLAIN, &["here.mmdb", "new.mmdb", "200.0.0.1"], 0,
        "{\"address\":\"200.0.0.1\",\"here.mmdb\":{\"network\":\"128.0.0.0/1\",\"record\":\"x\"},\"T\":{\"network\":\"128.0.0.0/1\",\"record\":\"x\"}}\n", &[],
    ),
    // a type and a name that are both taken
    (
        FILE, FILE, &["here.mmdb", "new.mmdb", "200.0.0.1"], 0,
        "{\"address\":\"200.0.0.1\",\"new.mmdb\":{\"network\":\"128.0.0.0/1\",\"record\":\"x\"},\"new.mmdb (2)\":{\"network\":\"128.0.0.0/1\",\"record\":\"x\"}}\n", &[],
    ),
    // one that can't be opened, one whose record can't be read, and one that can't be asked
    (
        CITY, DAMAGED, &["here.mmdb", "new.mmdb", "200.0.0.1"], 1,
        "{\"address\":\"200.0.0.1\",\"City\":{\"network\":\"128.0.0.0/1\",\"record\":{\"c\":{\"i\":\"DE\"},\"n\":7}}}\n",
        &["mmdb: new.mmdb: invalid database"],
    ),
    (
        UNREADABLE, PLAIN, &["here.mmdb", "new.mmdb", "200.0.0.1"], 1,
        "{\"address\":\"200.0.0.1\",\"Bad\":null,\"T\":{\"network\":\"128.0.0.0/1\",\"record\":\"x\"}}\n",
        &["mmdb: here.mmdb: 200.0.0.1: invalid database at offset "],
    ),
    (UNREADABLE, UNREADABLE, &["here.mmdb", "new.mmdb", "200.0.0.1"], 1, "", &["mmdb: here.mmdb: 200.0.0.1: ", "mmdb: new.mmdb: 200.0.0.1: "]),
    (
        CITY, LONG, &["here.mmdb", "new.mmdb", "ffff::1"], 0,
        "{\"address\":\"ffff::1\",\"City\":null,\"Long\":{\"network\":\"8000::/1\",\"record\":\"x\"}}\n", &[],
    ),
    (CITY, ASN, &["here.mmdb", "new.mmdb", "::1"], 1, "", &["mmdb: here.mmdb: ::1: invalid input: cannot look up IPv6", "mmdb: new.mmdb: ::1: invalid input"]),
];

#[rattlefmt::skip]
const VALUES: &[Row<'static>] = &[
    // the first that has a value at the path
    (CITY, ASN, &["here.mmdb", "new.mmdb", "200.0.0.1", "--field", "n", "--path", "o"], 0, "7\n\"x\"\n", &[]),
    (CITY, ASN, &["new.mmdb", "here.mmdb", "200.0.0.1", "--field", "n", "--path", "c.i"], 0, "8\n\"DE\"\n", &[]),
    (CITY, ASN, &["here.mmdb", "new.mmdb", "1.1.1.1", "--field", "n", "--field", "c"], 6, "8\nnull\n", &["mmdb: no record has c\n"]),
    (CITY, ASN, &["here.mmdb", "new.mmdb", "1.1.1.1", "200.0.0.1", "--field", "p"], 6, "null\nnull\n", &["mmdb: no record has p\n"]),
    (
        CITY, ASN, &["here.mmdb", "new.mmdb", "200.0.0.1", "1.1.1.1", "--field", "cc=c.i", "--field", "org=o"], 6,
        "{\"address\":\"200.0.0.1\",\"cc\":\"DE\",\"org\":\"x\"}\n{\"address\":\"1.1.1.1\",\"cc\":null,\"org\":\"x\"}\n", &[],
    ),
    // a path that is called as the address, which no name is beside
    (CITY, ASN, &["here.mmdb", "200.0.0.1", "--path", "address"], 6, "null\n", &["mmdb: no record has address\n"]),
    // what can't be read is an error, and no reason to ask the next
    (UNREADABLE, PLAIN, &["here.mmdb", "new.mmdb", "200.0.0.1", "--field", ""], 1, "", &["mmdb: here.mmdb: 200.0.0.1: invalid database at offset "]),
    (UNREADABLE, PLAIN, &["new.mmdb", "here.mmdb", "200.0.0.1", "--field", ""], 0, "\"x\"\n", &[]),
    (
        UNREADABLE, CITY, &["here.mmdb", "new.mmdb", "200.0.0.1", "--field", "n", "--field", ""], 1, "7\n",
        &["mmdb: here.mmdb: 200.0.0.1: invalid database at offset "],
    ),
    // a key of a text leads nowhere, whatever the text is
    (CITY, UNREADABLE, &["here.mmdb", "new.mmdb", "200.0.0.1", "--field", "n", "--field", "p"], 6, "7\nnull\n", &["mmdb: no record has p\n"]),
    // a database of IPv4 has nothing of IPv6, unless all have not
    (CITY, LONG, &["here.mmdb", "new.mmdb", "ffff::1", "--field", ""], 0, "\"x\"\n", &[]),
    (CITY, ASN, &["here.mmdb", "new.mmdb", "::1", "--field", ""], 1, "", &["mmdb: here.mmdb: ::1: invalid input: cannot look up IPv6"]),
];

#[rattlefmt::skip]
const STRANGERS: &[Row<'static>] = &[
    // what is good is answered
    (CITY, ASN, &["here.mmdb", "1.1.1", "200.0.0.1"], 1, HERE, &["mmdb: 1.1.1: neither an address nor a file\n"]),
    (CITY, ASN, &["here.mmdb", "200.0.0.1", "gone.mmdb", "x/y"], 1, HERE, &["mmdb: gone.mmdb: neither an address nor a file\n", "mmdb: x/y: neither an address nor a file\n"]),
    (CITY, ASN, &["nowhere", "here.mmdb", "new.mmdb", "200.0.0.1"], 1, TOGETHER, &["mmdb: nowhere: neither an address nor a file\n"]),
    (
        CITY, ASN, &["here.mmdb", "1.2.3.0/24", "200.0.0.1"], 1, HERE,
        &["mmdb: 1.2.3.0/24: a network, not an address; mmdb export FILE 1.2.3.0/24 writes what it has\n"],
    ),
    // nothing is asked
    (CITY, ASN, &["here.mmdb", "1.1.1"], 2, "", &["mmdb: 1.1.1: neither an address nor a file\n"]),
    (CITY, ASN, &["here.mmdb", "2001:db8::/32"], 2, "", &["mmdb: 2001:db8::/32: a network, not an address; "]),
    (CITY, ASN, &["here.mmdb", "new.mmdb"], 2, "", &["mmdb: show: needs an address\n"]),
    (CITY, ASN, &["1.1.1.1", "8.8.8.8"], 2, "", &["mmdb: show: needs a file\n"]),
    // a file that is missing, beside no other
    (CITY, ASN, &["gone.mmdb", "200.0.0.1"], 1, "", &["mmdb: gone.mmdb: i/o error: entity not found\n"]),
    (CITY, ASN, &["200.0.0.1", "gone.mmdb", "x"], 1, "", &["mmdb: gone.mmdb: i/o error: entity not found\n", "mmdb: x: neither an address nor a file\n"]),
    (DAMAGED, ASN, &["here.mmdb", "200.0.0.1", "x"], 1, "", &["mmdb: here.mmdb: invalid database", "mmdb: x: neither an address nor a file\n"]),
];

// The file of a database.
fn file_of(alloc: Global, database: Database<'_>) -> Result<Vec<u8>, AllocError> {
    let (nodes, data, changes) = database;
    changed_file(alloc, nodes, data, changes)
}

// Whether each line of a text begins so.
fn begin_so(text: &str, fronts: &[&str]) -> bool {
    let lines = text.split_inclusive('\n');
    lines.count() == fronts.len()
        && text
            .split_inclusive('\n')
            .zip(fronts)
            .all(|(line, front)| line.starts_with(front))
}

// Whether a run is as a row says.
fn is_as_said(run: &Run, row: &Row<'_>) -> bool {
    let (_, _, _, status, out, err) = row;
    run.status == *status && run.out() == *out && begin_so(run.err(), err)
}

// Asserts runs of `show` over two databases.
fn assert_rows(rt: &impl Abort, alloc: Global, rows: &[Row<'_>]) {
    for row in rows {
        let old = file_of(alloc, row.0).expect(rt, "a file");
        let newer = file_of(alloc, row.1).expect(rt, "a file");
        let files = two_files(old.as_slice(), newer.as_slice());
        let mut words = Vec::new(alloc);
        words.push("show").expect(rt, "memory");
        words.extend_from_slice(row.2).expect(rt, "memory");
        let run = run_over(alloc, &files, words.as_slice(), "", false);
        assert_of(rt, row.2, &run, is_as_said(&run, row));
    }
}

#[test]
fn records_of_several_databases(rt: HostRuntime) {
    assert_rows(&rt, rt.alloc(), RECORDS);
}

#[test]
fn values_of_several_databases(rt: HostRuntime) {
    assert_rows(&rt, rt.alloc(), VALUES);
}

#[test]
fn arguments_that_are_neither(rt: HostRuntime) {
    assert_rows(&rt, rt.alloc(), STRANGERS);
}

const PRETTY: &str = "{
  \"address\": \"1.1.1.1\",
  \"City\": {
    \"network\": \"0.0.0.0/1\",
    \"record\": null
  },
  \"ASN\": {
    \"network\": \"0.0.0.0/1\",
    \"record\": {
      \"n\": 8,
      \"o\": \"x\"
    }
  }
}
";

#[test]
fn a_terminal_gets_several_lines_of_several_databases(rt: HostRuntime) {
    let old = file_of(rt.alloc(), CITY).expect(&rt, "a file");
    let newer = file_of(rt.alloc(), ASN).expect(&rt, "a file");
    let files = two_files(old.as_slice(), newer.as_slice());
    let words = &["show", "here.mmdb", "new.mmdb", "1.1.1.1"];
    let run = run_over(rt.alloc(), &files, words, "", true);
    assert_of(&rt, words, &run, run.status == 0 && run.out() == PRETTY);
}
