//! Lines of JSON with fields of several databases.
use super::layers::{
    CITY, Database, KINDS, MANY, OWN, Row, SIX, TORN, assert_row, file_with, holds_all, many_file,
    run_both,
};
use crate::tests::asserted::assert_of;
use std::alloc::{AllocError, Global};
use test_runs::program::{run_of, run_over, two_files};

/// A line of each kind.
const ALL: &str =
    "{\"ip\":\"1.1.1.1\"}\n{\"ip\":\"33.0.0.1\"}\n{\"ip\":\"70.0.0.1\"}\n{\"ip\":\"130.0.0.1\"}\n{\"ip\":\"200.0.0.1\"}\n{\"ip\":\"-\"}\n[]\n{}\n";

/// An address for each pair of a database with IPv6 and one without.
const BOTH: &str =
    "{\"ip\":\"70.0.0.1\"}\n{\"ip\":\"::ffff:70.0.0.1\"}\n{\"ip\":\"2001:db8::1\"}\n";

#[rattlefmt::skip]
const ROWS: &[Row<'static>] = &[
    // each field of the first database that has it; one that can't be read is not asked of the next
    (
        OWN, CITY, &["--json", "ip", "--field", "c", "--field", "n"], ALL, 1,
        "{\"ip\":\"1.1.1.1\"}\n{\"ip\":\"33.0.0.1\",\"geo\":{\"c\":\"city\",\"n\":9}}\n{\"ip\":\"70.0.0.1\",\"geo\":{\"c\":\"own\",\"n\":9}}\n{\"ip\":\"130.0.0.1\",\"geo\":{\"c\":\"q\\\",t\\tab\",\"n\":7}}\n{\"ip\":\"200.0.0.1\"}\n{\"ip\":\"-\"}\n[]\n{}\n",
        &["mmdb: row 5: here.mmdb: ", "mmdb: 3 lines with a record, 1 without, 2 without an address, 1 with an error, 1 not objects of JSON\n"],
    ),
    // in the other order
    (
        CITY, OWN, &["--json", "ip", "--field", "c", "--field", "n"], ALL, 0,
        "{\"ip\":\"1.1.1.1\"}\n{\"ip\":\"33.0.0.1\",\"geo\":{\"c\":\"city\",\"n\":9}}\n{\"ip\":\"70.0.0.1\",\"geo\":{\"c\":\"city\",\"n\":9}}\n{\"ip\":\"130.0.0.1\",\"geo\":{\"c\":\"q\\\",t\\tab\",\"n\":7}}\n{\"ip\":\"200.0.0.1\",\"geo\":{\"c\":\"city\",\"n\":9}}\n{\"ip\":\"-\"}\n[]\n{}\n",
        &["mmdb: 4 lines with a record, 1 without, 2 without an address, 0 with an error, 1 not objects of JSON\n"],
    ),
    // nulls where no database has a record or there is no address, and not where there is an error
    (
        OWN, CITY, &["--json", "ip", "--field", "c", "--field", "n", "--nulls"], ALL, 1,
        "{\"ip\":\"1.1.1.1\",\"geo\":{\"c\":null,\"n\":null}}\n{\"ip\":\"33.0.0.1\",\"geo\":{\"c\":\"city\",\"n\":9}}\n{\"ip\":\"70.0.0.1\",\"geo\":{\"c\":\"own\",\"n\":9}}\n{\"ip\":\"130.0.0.1\",\"geo\":{\"c\":\"q\\\",t\\tab\",\"n\":7}}\n{\"ip\":\"200.0.0.1\"}\n{\"ip\":\"-\",\"geo\":{\"c\":null,\"n\":null}}\n[]\n{\"geo\":{\"c\":null,\"n\":null}}\n",
        &["mmdb: 3 lines with a record, 1 without, 2 without an address, 1 with an error, 1 not objects of JSON\n"],
    ),
    // null where none of the records has a value
    (
        OWN, CITY, &["--json", "ip", "--field", "x", "--field", "c"], "{\"ip\":\"70.0.0.1\"}\n", 0,
        "{\"ip\":\"70.0.0.1\",\"geo\":{\"x\":null,\"c\":\"own\"}}\n", &["mmdb: none of the lines' records has x\nmmdb: 1 lines with a record"],
    ),
    // and null where a key meets no map
    (
        OWN, CITY, &["--json", "ip", "--field", "c.d", "--field", "n"], "{\"ip\":\"70.0.0.1\"}\n", 0,
        "{\"ip\":\"70.0.0.1\",\"geo\":{\"d\":null,\"n\":9}}\n",
        &["mmdb: none of the lines' records has c.d\n", "1 lines with a record, 0 without, 0 without an address, 0 with an error"],
    ),
    (
        CITY, OWN, &["--json", "ip", "--field", "n", "--field", "c.d"], "{\"ip\":\"130.0.0.1\"}\n", 0,
        "{\"ip\":\"130.0.0.1\",\"geo\":{\"n\":7,\"d\":null}}\n",
        &["mmdb: none of the lines' records has c.d\n"],
    ),
    // whole records are those of the first database that has one
    (
        OWN, CITY, &["--json", "ip", "--field", "r="], "{\"ip\":\"33.0.0.1\"}\n{\"ip\":\"70.0.0.1\"}\n", 0,
        "{\"ip\":\"33.0.0.1\",\"geo\":{\"r\":{\"c\":\"city\",\"n\":9}}}\n{\"ip\":\"70.0.0.1\",\"geo\":{\"r\":{\"c\":\"own\"}}}\n", &["2 lines with a record"],
    ),
    // without a field the record of each by its name, and nulls; one that can't be read is an error
    (
        OWN, CITY, &["--json", "ip"], ALL, 1,
        "{\"ip\":\"1.1.1.1\"}\n{\"ip\":\"33.0.0.1\",\"geo\":{\"T\":null,\"new.mmdb\":{\"c\":\"city\",\"n\":9}}}\n{\"ip\":\"70.0.0.1\",\"geo\":{\"T\":{\"c\":\"own\"},\"new.mmdb\":{\"c\":\"city\",\"n\":9}}}\n{\"ip\":\"130.0.0.1\",\"geo\":{\"T\":{\"n\":7},\"new.mmdb\":{\"c\":\"q\\\",t\\tab\"}}}\n{\"ip\":\"200.0.0.1\"}\n{\"ip\":\"-\"}\n[]\n{}\n",
        &["mmdb: row 5: here.mmdb: ", "mmdb: 3 lines with a record, 1 without, 2 without an address, 1 with an error, 1 not objects of JSON\n"],
    ),
    (
        OWN, CITY, &["--json", "ip", "--nulls", "--into", "r"], "{\"ip\":\"1.1.1.1\"}\n{\"ip\":\"33.0.0.1\"}\n{}\n", 0,
        "{\"ip\":\"1.1.1.1\",\"r\":null}\n{\"ip\":\"33.0.0.1\",\"r\":{\"T\":null,\"new.mmdb\":{\"c\":\"city\",\"n\":9}}}\n{\"r\":null}\n",
        &["mmdb: 1 lines with a record, 1 without, 1 without an address, 0 with an error"],
    ),
    // the same records again, with and without an error
    (
        OWN, CITY, &["--json", "ip", "--field", "c"],
        "{\"ip\":\"70.0.0.1\"}\n{\"ip\":\"200.0.0.1\"}\n{\"a\":1,\"ip\":\"70.0.0.2\"} \n{\"ip\":\"200.0.0.2\"}\n{\"ip\":\"33.0.0.1\"}\n{\"ip\":\"70.0.0.1\"}\n", 1,
        "{\"ip\":\"70.0.0.1\",\"geo\":{\"c\":\"own\"}}\n{\"ip\":\"200.0.0.1\"}\n{\"a\":1,\"ip\":\"70.0.0.2\",\"geo\":{\"c\":\"own\"}} \n{\"ip\":\"200.0.0.2\"}\n{\"ip\":\"33.0.0.1\",\"geo\":{\"c\":\"city\"}}\n{\"ip\":\"70.0.0.1\",\"geo\":{\"c\":\"own\"}}\n",
        &["mmdb: row 2: here.mmdb: ", "4 lines with a record, 0 without, 0 without an address, 2 with an error"],
    ),
    // a record beside one after another, each read once or more
    (
        KINDS, CITY, &["--json", "ip", "--field", "t", "--field", "w", "--field", "d", "--field", "a", "--field", "c"],
        "{\"ip\":\"33.0.0.1\"}\n{\"ip\":\"130.0.0.1\"}\n{\"ip\":\"1.1.1.1\"}\n{\"ip\":\"70.0.0.1\"}\n", 0,
        "{\"ip\":\"33.0.0.1\",\"geo\":{\"t\":\"text\",\"w\":70000,\"d\":1.5,\"a\":[1],\"c\":\"city\"}}
{\"ip\":\"130.0.0.1\",\"geo\":{\"t\":\"text\",\"w\":70000,\"d\":1.5,\"a\":[1],\"c\":\"q\\\",t\\tab\"}}
{\"ip\":\"1.1.1.1\",\"geo\":{\"t\":\"text\",\"w\":70000,\"d\":1.5,\"a\":[1],\"c\":null}}
{\"ip\":\"70.0.0.1\",\"geo\":{\"t\":\"text\",\"w\":70000,\"d\":1.5,\"a\":[1],\"c\":\"city\"}}
",
        &["mmdb: 4 lines with a record, 0 without"],
    ),
    // a member of the name that is there already
    (
        OWN, CITY, &["--json", "ip", "--field", "c"], "{\"ip\":\"70.0.0.1\",\"geo\":1}\n{\"geo\":{},\"ip\":\"200.0.0.1\"}\n", 0,
        "{\"ip\":\"70.0.0.1\",\"geo\":1}\n{\"geo\":{},\"ip\":\"200.0.0.1\"}\n", &["2 with a member geo already, the first in row 1"],
    ),
    // names, and an address that is not alone
    (
        OWN, CITY, &["--json", "a.b", "--into", "g", "--field", "m=n", "--anywhere"], "{\"a\":{\"b\":\"from=70.0.0.1;\"}}\n", 0,
        "{\"a\":{\"b\":\"from=70.0.0.1;\"},\"g\":{\"m\":9}}\n", &["1 lines with a record"],
    ),
];

#[rattlefmt::skip]
const OTHER_ROWS: &[Row<'static>] = &[
    // a database without IPv6 has no record of an IPv6 address, but of the IPv4 address in it
    (
        OWN, SIX, &["--json", "ip", "--field", "c"], BOTH, 0,
        "{\"ip\":\"70.0.0.1\",\"geo\":{\"c\":\"own\"}}\n{\"ip\":\"::ffff:70.0.0.1\",\"geo\":{\"c\":\"own\"}}\n{\"ip\":\"2001:db8::1\",\"geo\":{\"c\":\"six\"}}\n",
        &["3 lines with a record"],
    ),
    // no database can be asked for it
    (
        OWN, CITY, &["--json", "ip", "--field", "c", "--nulls"], "{\"ip\":\"::1\"}\n{\"ip\":\"70.0.0.1\"}\n", 0,
        "{\"ip\":\"::1\"}\n{\"ip\":\"70.0.0.1\",\"geo\":{\"c\":\"own\"}}\n",
        &["mmdb: row 1: here.mmdb: invalid input: cannot look up IPv6", "1 lines with a record, 0 without, 0 without an address, 1 with an error"],
    ),
    // a lookup that fails is an error, whatever the other has
    (
        CITY, TORN, &["--json", "ip", "--field", "c"], "{\"ip\":\"70.0.0.1\"}\n{\"ip\":\"200.0.0.1\"}\n", 1,
        "{\"ip\":\"70.0.0.1\"}\n{\"ip\":\"200.0.0.1\",\"geo\":{\"c\":\"city\"}}\n",
        &["mmdb: row 1: new.mmdb: invalid database", "1 lines with a record, 0 without, 0 without an address, 1 with an error"],
    ),
];

#[rattlefmt::skip]
const NETWORK_ROWS: &[Row<'static>] = &[
    // the smallest network in which one of them has the address, with a record or without
    (
        OWN, CITY, &["--json", "ip", "--network", "--field", "c", "--field", "n"], ALL, 1,
        "{\"ip\":\"1.1.1.1\"}\n{\"ip\":\"33.0.0.1\",\"geo\":{\"network\":\"32.0.0.0/3\",\"c\":\"city\",\"n\":9}}\n{\"ip\":\"70.0.0.1\",\"geo\":{\"network\":\"64.0.0.0/2\",\"c\":\"own\",\"n\":9}}\n{\"ip\":\"130.0.0.1\",\"geo\":{\"network\":\"128.0.0.0/2\",\"c\":\"q\\\",t\\tab\",\"n\":7}}\n{\"ip\":\"200.0.0.1\"}\n{\"ip\":\"-\"}\n[]\n{}\n",
        &["mmdb: row 5: here.mmdb: ", "mmdb: 3 lines with a record, 1 without, 2 without an address, 1 with an error, 1 not objects of JSON\n"],
    ),
    // a record beside one after another, in the networks of those
    (
        KINDS, CITY, &["--json", "ip", "--network", "--field", "u", "--field", "c"],
        "{\"ip\":\"33.0.0.1\"}\n{\"ip\":\"130.0.0.1\"}\n{\"ip\":\"1.1.1.1\"}\n", 0,
        "{\"ip\":\"33.0.0.1\",\"geo\":{\"network\":\"32.0.0.0/3\",\"u\":300,\"c\":\"city\"}}
{\"ip\":\"130.0.0.1\",\"geo\":{\"network\":\"128.0.0.0/2\",\"u\":300,\"c\":\"q\\\",t\\tab\"}}
{\"ip\":\"1.1.1.1\",\"geo\":{\"network\":\"0.0.0.0/3\",\"u\":300,\"c\":null}}
",
        &["3 lines with a record, 0 without"],
    ),
    // null where there is no record or no address
    (
        CITY, OWN, &["--json", "ip", "--network", "--field", "n", "--nulls"], ALL, 0,
        "{\"ip\":\"1.1.1.1\",\"geo\":{\"network\":null,\"n\":null}}\n{\"ip\":\"33.0.0.1\",\"geo\":{\"network\":\"32.0.0.0/3\",\"n\":9}}\n{\"ip\":\"70.0.0.1\",\"geo\":{\"network\":\"64.0.0.0/2\",\"n\":9}}\n{\"ip\":\"130.0.0.1\",\"geo\":{\"network\":\"128.0.0.0/2\",\"n\":7}}\n{\"ip\":\"200.0.0.1\",\"geo\":{\"network\":\"192.0.0.0/2\",\"n\":9}}\n{\"ip\":\"-\",\"geo\":{\"network\":null,\"n\":null}}\n[]\n{\"geo\":{\"network\":null,\"n\":null}}\n",
        &["4 lines with a record, 1 without, 2 without an address, 0 with an error"],
    ),
    // of one record in two networks, again and again
    (
        CITY, OWN, &["--json", "ip", "--network", "--field", "c"], "{\"ip\":\"33.0.0.1\"}\n{\"ip\":\"200.0.0.1\"}\n{\"ip\":\"34.0.0.1\"}\n{\"ip\":\"201.0.0.1\"}\n", 0,
        "{\"ip\":\"33.0.0.1\",\"geo\":{\"network\":\"32.0.0.0/3\",\"c\":\"city\"}}\n{\"ip\":\"200.0.0.1\",\"geo\":{\"network\":\"192.0.0.0/2\",\"c\":\"city\"}}\n{\"ip\":\"34.0.0.1\",\"geo\":{\"network\":\"32.0.0.0/3\",\"c\":\"city\"}}\n{\"ip\":\"201.0.0.1\",\"geo\":{\"network\":\"192.0.0.0/2\",\"c\":\"city\"}}\n",
        &["4 lines with a record"],
    ),
    // of IPv4 in IPv6
    (
        SIX, OWN, &["--json", "ip", "--network", "--field", "c"], BOTH, 0,
        "{\"ip\":\"70.0.0.1\",\"geo\":{\"network\":\"64.0.0.0/2\",\"c\":\"six\"}}\n{\"ip\":\"::ffff:70.0.0.1\",\"geo\":{\"network\":\"64.0.0.0/2\",\"c\":\"six\"}}\n{\"ip\":\"2001:db8::1\",\"geo\":{\"network\":\"::/1\",\"c\":\"six\"}}\n",
        &["3 lines with a record"],
    ),
];

/// A database, words after it, standard input, the status, standard output, and what standard error has to hold.
type OneRow<'a> = (
    Database<'a>,
    &'a [&'a str],
    &'a str,
    u8,
    &'a str,
    &'a [&'a str],
);

#[rattlefmt::skip]
const ONE_ROWS: &[OneRow<'static>] = &[
    (
        OWN, &["enrich", "here.mmdb", "--json", "ip", "--network", "--field", "c", "--nulls"], ALL, 1,
        "{\"ip\":\"1.1.1.1\",\"geo\":{\"network\":null,\"c\":null}}\n{\"ip\":\"33.0.0.1\",\"geo\":{\"network\":null,\"c\":null}}\n{\"ip\":\"70.0.0.1\",\"geo\":{\"network\":\"64.0.0.0/2\",\"c\":\"own\"}}\n{\"ip\":\"130.0.0.1\",\"geo\":{\"network\":\"128.0.0.0/2\",\"c\":null}}\n{\"ip\":\"200.0.0.1\"}\n{\"ip\":\"-\",\"geo\":{\"network\":null,\"c\":null}}\n[]\n{\"geo\":{\"network\":null,\"c\":null}}\n",
        &["mmdb: row 5: invalid database", "mmdb: 2 lines with a record, 2 without, 2 without an address, 1 with an error, 1 not objects of JSON\n"],
    ),
    (
        CITY, &["enrich", "here.mmdb", "--json", "ip", "--network", "--field", "record="], "{\"ip\":\"33.0.0.1\"}\n", 0,
        "{\"ip\":\"33.0.0.1\",\"geo\":{\"network\":\"32.0.0.0/3\",\"record\":{\"c\":\"city\",\"n\":9}}}\n", &["1 lines with a record"],
    ),
];

/// Words, the status, and what standard error has to hold, of runs that write nothing.
type Rejected<'a> = (&'a [&'a str], u8, &'a [&'a str]);

#[rattlefmt::skip]
const REJECTED: &[Rejected<'static>] = &[
    (&["enrich", "here.mmdb", "gone.mmdb", "--json", "ip", "--field", "c"], 1, &["mmdb: gone.mmdb: i/o error: entity not found\n"]),
    (&["enrich", "gone.mmdb", "--json", "ip", "--network"], 2, &["--network: with --json needs a --field; --field record= has the whole record"]),
    (&["enrich", "gone.mmdb", "here.mmdb", "--json", "ip", "--network"], 2, &["--network: with --json needs a --field"]),
    (&["enrich", "gone.mmdb", "--json", "ip", "--network", "--field", "network=c"], 2, &["network=c: the name network is taken"]),
    (&["enrich", "gone.mmdb", "--json", "ip", "--network", "--field", "a.network"], 2, &["a.network: the name network is taken"]),
];

#[test]
fn members_of_two_databases(rt: HostRuntime) {
    for row in ROWS {
        assert_row(&rt, rt.alloc(), row);
    }
}

#[test]
fn members_and_errors_of_two_databases(rt: HostRuntime) {
    for row in OTHER_ROWS {
        assert_row(&rt, rt.alloc(), row);
    }
}

#[test]
fn networks_of_two_databases(rt: HostRuntime) {
    for row in NETWORK_ROWS {
        assert_row(&rt, rt.alloc(), row);
    }
}

#[test]
fn networks_of_one_database(rt: HostRuntime) {
    for row in ONE_ROWS {
        let (database, words, lines, status, out, err) = *row;
        let file = file_with(rt.alloc(), &database);
        let run = run_of(rt.alloc(), file.as_slice(), words, lines);
        let holds = run.status == status && run.out() == out && holds_all(&run, err);
        assert_of(&rt, words, &run, holds);
    }
}

#[test]
fn arguments_of_members_of_two_databases(rt: HostRuntime) {
    let old = file_with(rt.alloc(), &OWN);
    for (words, status, err) in REJECTED {
        let run = run_over(
            rt.alloc(),
            &two_files(old.as_slice(), b"x"),
            words,
            "{\"ip\":\"70.0.0.1\"}\n",
            false,
        );
        let holds = run.status == *status && run.out().is_empty() && holds_all(&run, err);
        assert_of(&rt, words, &run, holds);
    }
}

/// More than the bytes of a member that is kept.
const LONG: usize = 600;

// Whether a member that is too long to be kept is written again and again.
fn is_long_written(alloc: Global) -> Result<bool, AllocError> {
    let mut name = String::new(alloc);
    for _ in 0..LONG {
        name.push_str("x")?;
    }
    let old = file_with(alloc, &OWN);
    let newer = file_with(alloc, &CITY);
    let words = ["--json", "ip", "--into", name.as_str(), "--field", "c"];
    let lines = "{\"ip\":\"70.0.0.1\"}\n{\"ip\":\"33.0.0.1\"}\n{\"ip\":\"70.0.0.1\"}\n";
    let run = run_both(alloc, old.as_slice(), newer.as_slice(), &words, lines);
    let name = name.as_str();
    let want: String = format!(in alloc;
        "{{\"ip\":\"70.0.0.1\",\"{name}\":{{\"c\":\"own\"}}}}\n{{\"ip\":\"33.0.0.1\",\"{name}\":{{\"c\":\"city\"}}}}\n{{\"ip\":\"70.0.0.1\",\"{name}\":{{\"c\":\"own\"}}}}\n"
    )?;
    Ok(run.status == 0 && run.out() == want.as_str())
}

#[test]
fn long_members(rt: HostRuntime) {
    let is_written = is_long_written(rt.alloc()).unwrap_or(false);
    assert!(rt; is_written, "a member that is not kept");
}

// Adds the line of a value of the first six bits and one of the first six bits of the second octet, as it is read or written.
fn push_many(
    alloc: Global,
    first: u32,
    second: u32,
    is_written: bool,
    text: &mut String,
) -> Result<(), AllocError> {
    let (high, low) = (first.saturating_mul(4), second.saturating_mul(4));
    let line: String = format!(in alloc; "{{\"ip\":\"{high}.{low}.0.1\"")?;
    text.push_str(line.as_str())?;
    if is_written {
        let member: String = format!(in alloc; ",\"geo\":{{\"a\":{first},\"b\":{second}}}")?;
        text.push_str(member.as_str())?;
    }
    text.push_str("}\n")
}

// The lines of all pairs of values, twice.
fn many_lines(alloc: Global, is_written: bool) -> Result<String, AllocError> {
    let mut text = String::new(alloc);
    for _ in 0..2 {
        for first in 0..MANY {
            for second in 0..MANY {
                push_many(alloc, first, second, is_written, &mut text)?;
            }
        }
    }
    Ok(text)
}

// Whether the lines of all pairs are written so.
fn are_many_written(alloc: Global) -> Result<bool, AllocError> {
    let old = many_file(alloc, 0, b"\xC1\x3F", b'a')?;
    let newer = many_file(alloc, 8, b"\xC1\x47", b'b')?;
    let lines = many_lines(alloc, false)?;
    let want = many_lines(alloc, true)?;
    let words = ["--json", "ip", "--field", "a", "--field", "b"];
    let run = run_both(
        alloc,
        old.as_slice(),
        newer.as_slice(),
        &words,
        lines.as_str(),
    );
    Ok(run.status == 0 && run.out() == want.as_str())
}

#[test]
fn many_pairs_of_members(rt: HostRuntime) {
    let are_written = are_many_written(rt.alloc()).unwrap_or(false);
    assert!(rt; are_written, "lines of all pairs");
}
