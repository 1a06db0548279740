//! Rows with fields of several databases.
use crate::tests::asserted::assert_of;
use mmdb_vectors::builder::{Field, changed_file, nodes_24};
use std::alloc::{AllocError, Global};
use std::process::Abort;
use test_runs::program::{Run, run_over, two_files};

/// A database: its nodes, their count as it is encoded, its IP version as it is encoded, and its data.
pub(super) type Database<'a> = (&'a [(u32, u32)], &'a [u8], &'a [u8], &'a [u8]);

const IPV4: &[u8] = b"\xA1\x04";

const IPV6: &[u8] = b"\xA1\x06";

/// {"c": "own"}, {"n": 7}, and at 12 {"c": a text that is not UTF-8}.
const OWN_DATA: &[u8] = b"\xE1\x41c\x43own\xE1\x41n\xA1\x07\xE1\x41c\x41\xFF";

/// In 64.0.0.0/2, 128.0.0.0/2 and 192.0.0.0/2. Of three nodes: offset o is 19 + o, 3 is none.
pub(super) const OWN: Database<'static> = (
    &[(1, 2), (3, 19), (26, 31)],
    b"\xC1\x03",
    IPV4,
    OWN_DATA,
);

/// {"c": "city", "n": 9}, and at 12 {"c": "q\",t\tab"}.
const CITY_DATA: &[u8] = b"\xE2\x41c\x44city\x41n\xA1\x09\xE1\x41c\x47q\",t\tab";

/// The second in 128.0.0.0/2, none in 0.0.0.0/3, the first one else. Of four nodes: offset o is 20 + o, 4 is none.
pub(super) const CITY: Database<'static> = (
    &[(1, 2), (3, 20), (32, 20), (4, 20)],
    b"\xC1\x04",
    IPV4,
    CITY_DATA,
);

/// {"c": "six"} everywhere.
pub(super) const SIX: Database<'static> = (&[(17, 17)], b"\xC1\x01", IPV6, b"\xE1\x41c\x43six");

/// {"organization": "x"} everywhere.
pub(super) const NAMED: Database<'static> = (
    &[(17, 17)],
    b"\xC1\x01",
    IPV4,
    b"\xE1\x4Corganization\x41x",
);

/// {"t": "text", "b": true, "i": -2, "u": 300, "w": 70000, "x": 2^40, "d": 1.5, "f": 2.5, "y": the byte 255, "a": [1], "z": 1}
/// everywhere: of numbers an int32, a uint16, a uint32, a uint64, a double, a float, and uint16 and uint128.
#[rattlefmt::skip]
pub(super) const KINDS: Database<'static> = (
    &[(17, 17)],
    b"\xC1\x01",
    IPV4,
    b"\xEB\x41t\x44text\x41b\x01\x07\x41i\x04\x01\xFF\xFF\xFF\xFE\x41u\xA2\x01\x2C\x41w\xC3\x01\x11\x70\x41x\x06\x02\x01\x00\x00\x00\x00\x00\x41d\x68\x3F\xF8\x00\x00\x00\x00\x00\x00\x41f\x04\x08\x40\x20\x00\x00\x41y\x81\xFF\x41a\x01\x04\xA1\x01\x41z\x01\x03\x01",
);

/// A field of each of these kinds, and three of other records or of none.
#[rattlefmt::skip]
pub(super) const KIND_FIELDS: &[&str] = &[
    "--field", "t", "--field", "b", "--field", "i", "--field", "u", "--field", "w", "--field", "x", "--field", "d", "--field", "f",
    "--field", "y", "--field", "a", "--field", "z", "--field", "q", "--field", "c", "--field", "n",
];

/// No offset of the data in 0.0.0.0/1, {"c": "six"} in 128.0.0.0/1.
pub(super) const TORN: Database<'static> = (&[(4096, 17)], b"\xC1\x01", IPV4, b"\xE1\x41c\x43six");

/// The databases, words after these, standard input, the status, standard output, and what standard error has to hold.
pub(super) type Row<'a> = (
    Database<'a>,
    Database<'a>,
    &'a [&'a str],
    &'a str,
    u8,
    &'a str,
    &'a [&'a str],
);

/// An address of each kind.
pub(super) const ALL: &str = "1.1.1.1\n33.0.0.1\n70.0.0.1\n130.0.0.1\n200.0.0.1\n-\n";

/// An address for each pair of a database with IPv6 and one without.
pub(super) const BOTH: &str = "1.1.1.1\n70.0.0.1\n::ffff:70.0.0.1\n2001:db8::1\n::1\n";

#[rattlefmt::skip]
const ROWS: &[Row<'static>] = &[
    // each field of the first database that has it; one that can't be read is not asked of the next
    (
        OWN, CITY, &["--field", "c", "--field", "n"], ALL, 1,
        "1.1.1.1\t\t\n33.0.0.1\tcity\t9\n70.0.0.1\town\t9\n130.0.0.1\t\"q\\\",t\\tab\"\t7\n200.0.0.1\t\t9\n-\t\t\n",
        &["mmdb: row 5: here.mmdb: ", "mmdb: 3 lines with a record, 1 without, 1 without an address, 1 with an error\n"],
    ),
    // in the other order
    (
        CITY, OWN, &["--field", "c", "--field", "n"], ALL, 0,
        "1.1.1.1\t\t\n33.0.0.1\tcity\t9\n70.0.0.1\tcity\t9\n130.0.0.1\t\"q\\\",t\\tab\"\t7\n200.0.0.1\tcity\t9\n-\t\t\n",
        &["mmdb: 4 lines with a record, 1 without, 1 without an address, 0 with an error\n"],
    ),
    // a key where there is no map leads nowhere, and is no error
    (
        OWN, CITY, &["--field", "c.d", "--field", "n"], "70.0.0.1\n", 0, "70.0.0.1\t\t9\n",
        &["mmdb: none of the lines' records has c.d\n", "1 lines with a record, 0 without, 0 without an address, 0 with an error\n"],
    ),
    // a record beside one after another, each read once or more
    (
        KINDS, CITY, KIND_FIELDS, "33.0.0.1\n130.0.0.1\n1.1.1.1\n70.0.0.1\n", 0,
        "33.0.0.1\ttext\ttrue\t-2\t300\t70000\t1099511627776\t1.5\t2.5\t\"/w==\"\t[1]\t1\t\tcity\t9
130.0.0.1\ttext\ttrue\t-2\t300\t70000\t1099511627776\t1.5\t2.5\t\"/w==\"\t[1]\t1\t\t\"q\\\",t\\tab\"\t
1.1.1.1\ttext\ttrue\t-2\t300\t70000\t1099511627776\t1.5\t2.5\t\"/w==\"\t[1]\t1\t\t\t
70.0.0.1\ttext\ttrue\t-2\t300\t70000\t1099511627776\t1.5\t2.5\t\"/w==\"\t[1]\t1\t\tcity\t9
",
        &["mmdb: none of the lines' records has q\nmmdb: 4 lines with a record, 0 without"],
    ),
    // the same in the other order
    (
        CITY, KINDS, &["--field", "n", "--field", "w", "--field", "t", "--field", "c"], "33.0.0.1\n130.0.0.1\n1.1.1.1\n70.0.0.1\n", 0,
        "33.0.0.1\t9\t70000\ttext\tcity\n130.0.0.1\t\t70000\ttext\t\"q\\\",t\\tab\"\n1.1.1.1\t\t70000\ttext\t\n70.0.0.1\t9\t70000\ttext\tcity\n",
        &["4 lines with a record, 0 without"],
    ),
    // one that can't be read, each time, beside others
    (
        KINDS, OWN, &["--field", "c", "--field", "u"], "200.0.0.1\n130.0.0.1\n70.0.0.1\n200.0.0.2\n", 1,
        "200.0.0.1\t\t300\n130.0.0.1\t\t300\n70.0.0.1\town\t300\n200.0.0.2\t\t300\n",
        &["mmdb: row 1: new.mmdb: ", "2 lines with a record, 0 without, 0 without an address, 2 with an error\n"],
    ),
    // CSV, with quotes where a cell needs them
    (
        OWN, CITY, &["--delimiter", ",", "--column", "2", "--field", "n", "--field", "c"],
        "\"a\n,\",130.0.0.1\r\nx,\"70.0.0.1\"\n", 0,
        "\"a\n,\",130.0.0.1,7,\"q\"\",t\\tab\"\r\nx,\"70.0.0.1\",9,own\n", &["2 lines with a record"],
    ),
    // without quotes the delimiter and control characters are as JSON escapes them, in JSON too
    (
        OWN, CITY, &["--delimiter", ",", "--no-quotes", "--field", "c", "--field", "r="],
        "130.0.0.1\n33.0.0.1\n", 0,
        "130.0.0.1,q\"\\u002ct\\tab,{\"n\":7}\n33.0.0.1,city,{\"c\":\"city\"\\u002c\"n\":9}\n", &["2 lines with a record"],
    ),
    // a row with fewer cells than the first one, an empty one, and one with more
    (
        OWN, CITY, &["--header", "--network", "--field", "c"], "ip\tx\n70.0.0.1\n\n33.0.0.1\t1\t2\n", 0,
        "ip\tx\tnetwork\tc\n70.0.0.1\t\t64.0.0.0/2\town\n\n33.0.0.1\t1\t2\t32.0.0.0/3\tcity\n",
        &["2 lines with a record, 0 without, 1 without an address, 0 with an error, 1 with more cells than the first line, the first in row 4\n"],
    ),
    // the first row names the columns
    (
        OWN, CITY, &["--header", "--column", "ip", "--field", "n"], "ip\tx\n33.0.0.1\ty\n", 0,
        "ip\tx\tn\n33.0.0.1\ty\t9\n", &["1 lines with a record"],
    ),
    // anywhere in a row, and a hop
    (OWN, CITY, &["--anywhere", "--field", "c"], "from=70.0.0.1;\n", 0, "from=70.0.0.1;\town\n", &["1 lines with a record"]),
    (OWN, CITY, &["--anywhere", "--hop", "last", "--field", "c"], "33.0.0.1 from=70.0.0.1;\n", 0, "33.0.0.1 from=70.0.0.1;\town\n", &["1 lines with a record"]),
    (OWN, CITY, &["--hop", "last", "--field", "c"], "33.0.0.1, 70.0.0.1\n", 0, "33.0.0.1, 70.0.0.1\town\n", &["1 lines with a record"]),
];

#[rattlefmt::skip]
const OTHER_ROWS: &[Row<'static>] = &[
    // a database without IPv6 has no record of an IPv6 address, but of the IPv4 address in it
    (
        OWN, SIX, &["--field", "c"], BOTH, 0,
        "1.1.1.1\tsix\n70.0.0.1\town\n::ffff:70.0.0.1\town\n2001:db8::1\tsix\n::1\tsix\n", &["5 lines with a record"],
    ),
    (
        SIX, OWN, &["--field", "n", "--field", "c"], "130.0.0.1\n::1\n", 0, "130.0.0.1\t7\tsix\n::1\t\tsix\n", &["2 lines with a record"],
    ),
    // no database can be asked for it
    (
        OWN, CITY, &["--field", "c"], "::1\n70.0.0.1\n", 0, "::1\t\n70.0.0.1\town\n",
        &["mmdb: row 1: here.mmdb: invalid input: cannot look up IPv6", "1 lines with a record, 0 without, 0 without an address, 1 with an error\n"],
    ),
    // a field that other records of a file have fails no --strict
    (OWN, CITY, &["--field", "n", "--field", "c", "--strict"], "64.0.0.1\n", 0, "64.0.0.1\t9\town\n", &["1 lines with a record"]),
    (CITY, OWN, &["--field", "n", "--strict"], "130.0.0.1\n", 0, "130.0.0.1\t7\n", &["1 lines with a record"]),
    (SIX, NAMED, &["--field", "c", "--field", "q", "--strict"], "70.0.0.1\n", 1, "70.0.0.1\tsix\t\n", &["none of the lines' records has q\n"]),
    (OWN, CITY, &["--field", "c", "--strict"], "::1\n70.0.0.1\n", 1, "::1\t\n70.0.0.1\town\n", &["1 with an error"]),
    // a lookup that fails is an error, whatever the other has
    (
        CITY, TORN, &["--field", "c"], "70.0.0.1\n200.0.0.1\n", 1, "70.0.0.1\t\n200.0.0.1\tcity\n",
        &["mmdb: row 1: new.mmdb: invalid database", "1 lines with a record, 0 without, 0 without an address, 1 with an error\n"],
    ),
    (
        TORN, CITY, &["--field", "c"], "70.0.0.1\n", 1, "70.0.0.1\t\n", &["mmdb: row 1: here.mmdb: invalid database"],
    ),
    (SIX, TORN, &["--field", "c"], "1.1.1.1\n::1\n", 1, "1.1.1.1\t\n::1\tsix\n", &["mmdb: row 1: new.mmdb: invalid database"]),
    // a field that no record of any has, with what may be meant of either
    (
        OWN, CITY, &["--field", "cc", "--field", "n", "--field", "nn"], "70.0.0.1\n", 0, "70.0.0.1\t\t9\t\n",
        &["mmdb: none of the lines' records has cc\nmmdb: none of the lines' records has nn\nmmdb: 1 lines"],
    ),
    (
        OWN, NAMED, &["--field", "organisation", "--field", "c"], "70.0.0.1\n", 0, "70.0.0.1\t\town\n",
        &["mmdb: none of the lines' records has organisation; did you mean organization?\nmmdb: 1 lines"],
    ),
    (
        NAMED, OWN, &["--field", "organisation", "--field", "c"], "70.0.0.1\n", 0, "70.0.0.1\t\town\n",
        &["mmdb: none of the lines' records has organisation; did you mean organization?\nmmdb: 1 lines"],
    ),
    (OWN, CITY, &["--field", "n"], "", 0, "", &["mmdb: 0 lines with a record, 0 without, 0 without an address, 0 with an error\n"]),
];

/// Words, the status, and what standard error has to hold, of runs that write nothing.
type Rejected<'a> = (&'a [&'a str], u8, &'a [&'a str]);

#[rattlefmt::skip]
const REJECTED: &[Rejected<'static>] = &[
    (&["enrich", "here.mmdb", "gone.mmdb", "--field", "c"], 1, &["mmdb: gone.mmdb: i/o error: entity not found\n"]),
    (&["enrich", "gone.mmdb", "here.mmdb", "--field", "c"], 1, &["mmdb: gone.mmdb: i/o error: entity not found\n"]),
    (
        &["enrich", "here.mmdb", "new.mmdb", "--field", "c"], 2,
        &["mmdb: new.mmdb: invalid database", "mmdb: new.mmdb is no database; enrich reads standard input: < new.mmdb\n"],
    ),
    (&["enrich", "new.mmdb", "here.mmdb", "--field", "c"], 1, &["mmdb: new.mmdb: invalid database"]),
    (&["enrich", "here.mmdb", "gone.mmdb"], 2, &["enrich: needs a --field"]),
];

/// The file of a database, or none without memory.
pub(super) fn file_with(alloc: Global, database: &Database<'_>) -> Vec<u8> {
    let (nodes, count, version, data) = *database;
    let changes = &[(Field::NodeCount, count), (Field::IpVersion, version)];
    match nodes_24(alloc, nodes) {
        Ok(nodes) => changed_file(alloc, nodes.as_slice(), data, changes).unwrap_or(Vec::new(
            alloc,
        )),
        Err(_) => Vec::new(alloc),
    }
}

/// Whether standard error holds each of these texts.
pub(super) fn holds_all(run: &Run, texts: &[&str]) -> bool {
    for text in texts {
        if !run.err().contains(*text) {
            return false;
        }
    }
    true
}

/// A run of `enrich` over two databases.
pub(super) fn run_both(
    alloc: Global,
    old: &[u8],
    newer: &[u8],
    words: &[&str],
    lines: &str,
) -> Run {
    let mut all: Vec<&str> = Vec::new(alloc);
    let _ = all.extend_from_slice(&["enrich", "here.mmdb", "new.mmdb"]);
    let _ = all.extend_from_slice(words);
    run_over(alloc, &two_files(old, newer), all.as_slice(), lines, false)
}

/// Asserts what a run leaves.
pub(super) fn assert_row(rt: &impl Abort, alloc: Global, row: &Row<'_>) {
    let (first, second, words, lines, status, out, err) = *row;
    let old = file_with(alloc, &first);
    let newer = file_with(alloc, &second);
    let run = run_both(alloc, old.as_slice(), newer.as_slice(), words, lines);
    let holds = run.status == status && run.out() == out && holds_all(&run, err);
    assert_of(rt, words, &run, holds);
}

#[test]
fn fields_of_two_databases(rt: HostRuntime) {
    for row in ROWS {
        assert_row(&rt, rt.alloc(), row);
    }
}

#[test]
fn errors_of_two_databases(rt: HostRuntime) {
    for row in OTHER_ROWS {
        assert_row(&rt, rt.alloc(), row);
    }
}

#[test]
fn files_that_are_no_databases(rt: HostRuntime) {
    let old = file_with(rt.alloc(), &OWN);
    for (words, status, err) in REJECTED {
        let run = run_over(
            rt.alloc(),
            &two_files(old.as_slice(), b"x"),
            words,
            "70.0.0.1\n",
            false,
        );
        let holds = run.status == *status && run.out().is_empty() && holds_all(&run, err);
        assert_of(&rt, words, &run, holds);
    }
}

/// How many records each of the databases of many has: one for each value of six bits.
pub(super) const MANY: u32 = 64;

/// The nodes of a tree of six bits that has so many nodes before it, of which both halves are the next one. The record of
/// each value is five bytes after that of the value before.
fn many_nodes(alloc: Global, before: u32) -> Result<Vec<(u32, u32)>, AllocError> {
    let mut nodes = Vec::new(alloc);
    for at in 0..before {
        let next = at.saturating_add(1);
        nodes.push((next, next))?;
    }
    let count = before.saturating_add(MANY - 1);
    for at in 0..MANY - 1 {
        let left = many_child(before, count, 2 * at + 1);
        let right = many_child(before, count, 2 * at + 2);
        nodes.push((left, right))?;
    }
    Ok(nodes)
}

// Where a child leads in such a tree: to a node, or to the record of a value.
fn many_child(before: u32, count: u32, child: u32) -> u32 {
    if child < MANY - 1 {
        return before.saturating_add(child);
    }
    let value = child.saturating_sub(MANY - 1);
    count
        .saturating_add(16)
        .saturating_add(value.saturating_mul(5))
}

// The records {KEY: value} of all values.
fn many_records(alloc: Global, key: u8) -> Result<Vec<u8>, AllocError> {
    let mut data = Vec::new(alloc);
    for value in 0..MANY {
        data.extend_from_slice(&[0xE1, 0x41, key, 0xA1, value as u8])?;
    }
    Ok(data)
}

/// The file of such a database, whose records have their values at a key of one byte.
pub(super) fn many_file(
    alloc: Global,
    before: u32,
    count: &[u8],
    key: u8,
) -> Result<Vec<u8>, AllocError> {
    let nodes = many_nodes(alloc, before)?;
    let nodes = nodes_24(alloc, nodes.as_slice())?;
    let data = many_records(alloc, key)?;
    changed_file(
        alloc,
        nodes.as_slice(),
        data.as_slice(),
        &[(Field::NodeCount, count)],
    )
}

// Adds the row of a value of the first six bits and one of the first six bits of the second octet, as it is read or written.
fn push_many(
    alloc: Global,
    first: u32,
    second: u32,
    is_written: bool,
    text: &mut String,
) -> Result<(), AllocError> {
    let (high, low) = (first.saturating_mul(4), second.saturating_mul(4));
    let row: String = format!(in alloc; "{high}.{low}.0.1")?;
    text.push_str(row.as_str())?;
    if is_written {
        let cells: String = format!(in alloc; "\t{first}\t{second}")?;
        text.push_str(cells.as_str())?;
    }
    text.push_str("\n")
}

// The rows of all pairs of values, twice.
fn many_rows(alloc: Global, is_written: bool) -> Result<String, AllocError> {
    let mut text = String::new(alloc);
    for _ in 0..2 {
        for first in 0..MANY {
            for second in 0..MANY {
                push_many(alloc, first, second, is_written, &mut text)?;
            }
        }
    }
    Ok(text)
}

// Whether the rows of all pairs are written so.
fn are_many_written(alloc: Global) -> Result<bool, AllocError> {
    let old = many_file(alloc, 0, b"\xC1\x3F", b'a')?;
    let newer = many_file(alloc, 8, b"\xC1\x47", b'b')?;
    let lines = many_rows(alloc, false)?;
    let want = many_rows(alloc, true)?;
    let words = ["--field", "a", "--field", "b"];
    let run = run_both(
        alloc,
        old.as_slice(),
        newer.as_slice(),
        &words,
        lines.as_str(),
    );
    Ok(run.status == 0 && run.out() == want.as_str())
}

#[test]
fn many_pairs_of_records(rt: HostRuntime) {
    let are_written = are_many_written(rt.alloc()).unwrap_or(false);
    assert!(rt; are_written, "rows of all pairs");
}

/// Data of {"a": TEXT}, and the cell of the text in a line and in CSV.
type Text<'a> = (&'a [u8], &'a str, &'a str);

#[rattlefmt::skip]
const TEXTS: &[Text<'static>] = &[
    (b"\xE1\x41a\x42DE", "DE", "DE"),
    (b"\xE1\x41a\x40", "", ""),
    (b"\xE1\x41a\x43a\tb", "\"a\\tb\"", "a\\tb"),
    (b"\xE1\x41a\x46x,\"y\"z", "x,\"y\"z", "\"x,\"\"y\"\"z\""),
    // on both sides of a control character and of what is looked at at once
    (b"\xE1\x41a\x41\x1F", "\"\\u001f\"", "\\u001f"),
    (b"\xE1\x41a\x42 ~", " ~", " ~"),
    (b"\xE1\x41a\x4F0123456789abcde", "0123456789abcde", "0123456789abcde"),
    (b"\xE1\x41a\x500123456789abcdef", "0123456789abcdef", "0123456789abcdef"),
    (b"\xE1\x41a\x500123456789abcde\t", "\"0123456789abcde\\t\"", "0123456789abcde\\t"),
    (b"\xE1\x41a\x51\t123456789abcdefg", "\"\\t123456789abcdefg\"", "\\t123456789abcdefg"),
    (b"\xE1\x41a\x51123456789abcdef\xC3\xA9", "123456789abcdef\u{E9}", "123456789abcdef\u{E9}"),
];

// Rows of one record with a text, and of another one of numbers in each row, as they are read or written.
fn text_rows(alloc: Global, delimiter: char, cell: Option<&str>) -> Result<String, AllocError> {
    let mut text = String::new(alloc);
    for second in 0..MANY {
        let low = second.saturating_mul(4);
        let row: String = match cell {
            Some(cell) => {
                format!(in alloc; "0.{low}.0.1{delimiter}{cell}{delimiter}{second}\n")?
            }
            None => format!(in alloc; "0.{low}.0.1\n")?,
        };
        text.push_str(row.as_str())?;
    }
    Ok(text)
}

// Whether the text of a record is written in each row so.
fn is_text_written(alloc: Global, text: Text<'_>) -> Result<bool, AllocError> {
    let (data, in_line, in_csv) = text;
    let old = file_with(alloc, &(&[(17, 17)], b"\xC1\x01", IPV4, data));
    let newer = many_file(alloc, 8, b"\xC1\x47", b'b')?;
    for (delimiter, cell, words) in [
        ('\t', in_line, &["--field", "a", "--field", "b"] as &[&str]),
        (
            ',',
            in_csv,
            &["--delimiter", ",", "--field", "a", "--field", "b"],
        ),
    ] {
        let lines = text_rows(alloc, delimiter, None)?;
        let want = text_rows(alloc, delimiter, Some(cell))?;
        let run = run_both(
            alloc,
            old.as_slice(),
            newer.as_slice(),
            words,
            lines.as_str(),
        );
        if run.status != 0 || run.out() != want.as_str() {
            return Ok(false);
        }
    }
    Ok(true)
}

#[test]
fn texts_that_were_read_before(rt: HostRuntime) {
    for text in TEXTS {
        let is_written = is_text_written(rt.alloc(), *text).unwrap_or(false);
        assert!(rt; is_written, "{:?}", text.1);
    }
}

/// How a row of one record that can't be read is named, of one database and of two, in rows and in objects.
#[rattlefmt::skip]
const UNREAD: &[(&[&str], &str)] = &[
    (&["enrich", "here.mmdb", "--field", "c"], "mmdb: row 10: invalid database"),
    (&["enrich", "here.mmdb", "new.mmdb", "--field", "c"], "mmdb: row 10: here.mmdb: invalid database"),
    (&["enrich", "here.mmdb", "--json", "i", "--field", "c"], "mmdb: row 10: invalid database"),
    (&["enrich", "here.mmdb", "new.mmdb", "--json", "i", "--field", "c"], "mmdb: row 10: here.mmdb: invalid database"),
];

// Ten rows are named, also where they have one record that can't be read.
#[test]
fn rows_of_one_unread_record(rt: HostRuntime) {
    let old = file_with(rt.alloc(), &OWN);
    let newer = file_with(rt.alloc(), &CITY);
    let files = two_files(old.as_slice(), newer.as_slice());
    for (words, last) in UNREAD {
        let line = if words.contains(&"--json") {
            "{\"i\":\"200.0.0.1\"}\n"
        } else {
            "200.0.0.1\n"
        };
        let mut lines = String::new(rt.alloc());
        for _ in 0..12 {
            lines.push_str(line).expect(&rt, "memory");
        }
        let run = run_over(rt.alloc(), &files, words, lines.as_str(), false);
        let is_named = run.err().contains(*last) && !run.err().contains("mmdb: row 11: ");
        assert_of(
            &rt,
            words,
            &run,
            is_named && run.err().contains(" 12 with an error") && run.status == 1,
        );
    }
}

/// Words, and what is added to a line of JSON by a database that is named twice.
#[rattlefmt::skip]
const TWICE: &[(&[&str], &str, &str)] = &[
    (&["enrich", "here.mmdb", "here.mmdb", "--json", "i"], "{\"i\":\"70.0.0.1\"}\n", "{\"i\":\"70.0.0.1\",\"geo\":{\"c\":\"own\"}}\n"),
    (&["enrich", "here.mmdb", "here.mmdb", "--field", "c"], "70.0.0.1\n", "70.0.0.1\town\n"),
];

#[test]
fn databases_that_are_named_twice(rt: HostRuntime) {
    let bytes = file_with(rt.alloc(), &OWN);
    let files = two_files(bytes.as_slice(), &[]);
    for (words, line, written) in TWICE {
        let run = run_over(rt.alloc(), &files, words, *line, false);
        assert_of(&rt, words, &run, run.out() == *written && run.status == 0);
    }
}
